// The lines of the table, one after another.

use crate::asked::{Asked, Desks, asked_in};
use crate::desks::{run_alone, run_locked};
use std::alloc::{AllocError, Global};
use std::sync::Wait;

// The line of a simulation. None where it has none.
fn run<R: Wait>(rt: &R, alloc: Global, asked: Asked) -> Option<Vec<u8>> {
    match asked.desks {
        Desks::Own => run_alone(alloc, asked.number),
        Desks::Locked(count) => run_locked(rt, alloc, asked.number, count.checked_sub(1)?),
    }
}

// Writes the line of a simulation.
fn push_run<R: Wait>(
    rt: &R,
    alloc: Global,
    out: &mut String,
    asked: Asked,
) -> Result<(), AllocError> {
    let Some(line) = run(rt, alloc, asked) else {
        return out.push_str("no line\n");
    };
    match str::from_utf8(line.as_slice()) {
        Ok(line) => out.push_str(line),
        Err(_) => out.push_str("no text\n"),
    }
}

/// What the lines of the table come to. A line that is empty or begins with `#` stands as it is.
pub fn answers<R: Wait>(rt: &R, alloc: Global, table: &str) -> Result<String, AllocError> {
    let mut out = String::new(alloc);
    for line in table.lines() {
        if line.is_empty() || line.starts_with("#") {
            writeln!(out, "{line}")?;
            continue;
        }
        match asked_in(line) {
            Some(asked) => {
                write!(out, "{line}: ")?;
                push_run(rt, alloc, &mut out, asked)?;
            }
            None => writeln!(out, "no such line: {line}")?,
        }
    }
    Ok(out)
}
