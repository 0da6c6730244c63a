// The cases of a table, one after another.

use crate::case::Case;
use crate::outcome::{Outcome, outcome_of};
use crate::print::push_outcome;
use std::alloc::{AllocError, Global};
use std::sync::Wait;
use std::thread::Threads;

// Runs the case in pieces of each length, and says of each later run whether it comes to the same as the first.
fn push_runs<R: Threads + Wait + Sync>(
    rt: &R,
    alloc: Global,
    out: &mut String,
    case: &Case<'_>,
) -> Result<(), AllocError> {
    let mut first: Option<Outcome> = None;
    for word in case.pieces.split_whitespace() {
        let most = word.parse::<u32>().unwrap_or(0);
        if most == 0 {
            writeln!(out, "no length: {word}")?;
            continue;
        }
        let ended = outcome_of(rt, alloc, case, most)?;
        match &first {
            Some(told) if told.is(&ended) => writeln!(out, "the same by {word}")?,
            _ => {
                push_outcome(out, &ended, case.shown)?;
                first = Some(ended);
            }
        }
    }
    Ok(())
}

/// What the cases of the table come to. A case begins with `case NAME`, has lines of words, pieces, failing calls and
/// input, and is run at the line `run`.
pub fn answers<R: Threads + Wait + Sync>(
    rt: &R,
    alloc: Global,
    table: &str,
) -> Result<String, AllocError> {
    let mut out = String::new(alloc);
    let mut case = Case::new(alloc);
    for line in table.lines() {
        let (key, text) = line.split_once(' ').unwrap_or((line, ""));
        match key {
            "case" => {
                case = Case::new(alloc);
                writeln!(out, "{line}")?;
            }
            "run" => push_runs(rt, alloc, &mut out, &case)?,
            "" | "#" => writeln!(out, "{line}")?,
            _ if case.take(key, text)? => {}
            _ => writeln!(out, "no such line: {line}")?,
        }
    }
    Ok(out)
}
