//! A table of replays: for each the text that comes of it, or why none does. A replay is begun by its name, in a line `case
//! NAME`. Its lines: `words`, the words behind the program's name; `=`, a line of slurm.conf; `@`, a line of the association
//! file; `<`, a line of the trace; `+` and `*`, lines of another slurm.conf and of another association file. The files of a
//! case that has no line of them are those of the case before. At `run` it is worked.
#![tactic(auto)]

mod case;

use case::Case;
use replay_run::{Texts, Unwatched, make_report, wanted_in};
use std::alloc::{AllocError, Global};
use std::io;

// The words of a line.
fn words_in(alloc: Global, line: &str) -> Result<Vec<String>, AllocError> {
    let mut words = Vec::new(alloc);
    for word in line.split_whitespace() {
        words.push(String::from_str(alloc, word)?)?;
    }
    Ok(words)
}

// Writes what comes of a case: the text, or a line that tells why there is none.
fn push_case(alloc: Global, out: &mut String, case: &Case<'_>) -> Result<(), AllocError> {
    let words = words_in(alloc, case.words)?;
    let wanted = match wanted_in(words.as_slice()) {
        Ok(wanted) => wanted,
        Err(fault) => {
            writeln!(out, "error: {fault}")?;
            return Ok(());
        }
    };
    let texts = Texts {
        conf: case.conf.as_slice(),
        assocs: case.assocs.as_slice(),
        trace: case.trace.as_slice(),
        other_conf: wanted.other_conf.map(|_| case.other_conf.as_slice()),
        other_assocs: wanted.other_assocs.map(|_| case.other_assocs.as_slice()),
    };
    match make_report(alloc, &wanted, &texts, &mut Unwatched) {
        Ok(report) => match std::str::from_utf8(report.text.as_slice()) {
            Ok(text) => out.push_str(text)?,
            Err(_) => writeln!(out, "error: no text")?,
        },
        Err(refusal) => writeln!(out, "error: {refusal}")?,
    }
    Ok(())
}

// What the cases of the table come to.
fn answers(alloc: Global, table: &str) -> Result<String, AllocError> {
    let mut out = String::new(alloc);
    let mut case = Case::new(alloc);
    for line in table.lines() {
        let (key, text) = line.split_once(' ').unwrap_or((line, ""));
        match key {
            "case" => {
                case.begin();
                writeln!(out, "{line}")?;
            }
            "run" => push_case(alloc, &mut out, &case)?,
            "" | "#" => writeln!(out, "{line}")?,
            _ if case.take(key, text)? => {}
            _ => writeln!(out, "no such line: {line}")?,
        }
    }
    Ok(out)
}

fn main(rt: HostRuntime) -> io::Result<()> {
    let alloc = rt.alloc();
    let text = io::read_to_string(alloc, rt.reader())?;
    let answers = answers(alloc, text.as_str())?;
    print!(rt; "{answers}")
}
