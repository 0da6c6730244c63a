// The cases of a table, one after another.

use crate::alone::work_alone;
use crate::case::Case;
use crate::print::{push_left, push_work};
use crate::running::run_case;
use std::alloc::{AllocError, Global};
use std::sync::Wait;
use std::thread::Threads;

// Lets the worker of the case work, and says what it came to.
fn push_alone<R: Wait>(
    rt: &R,
    alloc: Global,
    out: &mut String,
    case: &Case,
) -> Result<(), AllocError> {
    match work_alone(rt, alloc, case)? {
        Some(work) => push_work(alloc, out, &work),
        None => out.push_str("no worker\n"),
    }
}

// Runs the case, and says what its server or its worker came to.
fn push_run<R: Threads + Wait + Sync>(
    rt: &R,
    alloc: Global,
    out: &mut String,
    case: &Case,
) -> Result<(), AllocError> {
    if case.alone {
        return push_alone(rt, alloc, out, case);
    }
    match run_case(rt, alloc, case)? {
        Some(left) => push_left(alloc, out, &left, case.together),
        None => out.push_str("no server\n"),
    }
}

/// What the cases of the table come to. A case begins with `case NAME`, has lines of doors, connections and gates, and is
/// run at the line `run`.
pub fn answers<R: Threads + Wait + Sync>(
    rt: &R,
    alloc: Global,
    table: &str,
) -> Result<String, AllocError> {
    let mut out = String::new(alloc);
    let mut case = Case::new(alloc);
    for line in table.lines() {
        let (key, text) = line.split_once(' ').unwrap_or((line, ""));
        match key {
            "case" => {
                case = Case::new(alloc);
                writeln!(out, "{line}")?;
            }
            "run" => push_run(rt, alloc, &mut out, &case)?,
            "" | "#" => writeln!(out, "{line}")?,
            _ if case.take(alloc, key, text)? => {}
            _ => writeln!(out, "no such line: {line}")?,
        }
    }
    Ok(out)
}
