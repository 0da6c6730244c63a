// An outcome as lines.

use crate::outcome::Outcome;
use percent_encoding::{AsciiSet, CONTROLS, percent_encode};
use std::alloc::AllocError;

fn escaped() -> AsciiSet {
    CONTROLS.add(b'%')
}

// A line behind the mark. One that doesn't end has `!` behind the mark.
fn push_line(out: &mut String, mark: &str, line: &[u8]) -> Result<(), AllocError> {
    out.push_str(mark)?;
    let whole = line.strip_suffix(b"\n");
    if whole.is_none() {
        out.push_str("!")?;
    }
    out.push_str(" ")?;
    percent_encode(whole.unwrap_or(line), escaped()).append_to(out)?;
    out.push_str("\n")
}

// The lines of the text behind the mark, so many at the most, and how many more there are.
fn push_lines(out: &mut String, mark: &str, text: &[u8], most: u32) -> Result<(), AllocError> {
    let (mut told, mut more) = (0u32, 0u32);
    for line in text.split_inclusive(|byte| *byte == b'\n') {
        if told < most {
            push_line(out, mark, line)?;
            told += 1;
        } else {
            more = more.saturating_add(1);
        }
    }
    if more > 0 {
        writeln!(out, "{mark}.. {more} more")?;
    }
    Ok(())
}

// The status and the text of each reply, but not its place: who asks beside it makes entries too.
fn push_replies(out: &mut String, replies: &[Vec<u8>]) -> Result<(), AllocError> {
    for reply in replies {
        let status = reply.get(4).copied().unwrap_or(255);
        writeln!(out, "& {status}")?;
        push_lines(out, "&", reply.get(13..).unwrap_or(b""), u32::MAX)?;
    }
    Ok(())
}

/// The output behind `>`, so many lines at the most, the errors behind `*`, what was sent behind `^`, what came back at the
/// door behind `&`, and the status.
pub fn push_outcome(out: &mut String, outcome: &Outcome, shown: u32) -> Result<(), AllocError> {
    push_lines(out, ">", outcome.output.as_slice(), shown)?;
    push_lines(out, "*", outcome.errors.as_slice(), u32::MAX)?;
    push_lines(out, "^", outcome.sent.as_slice(), u32::MAX)?;
    push_replies(out, outcome.replies.as_slice())?;
    let status = outcome.status;
    writeln!(out, "status {status}")
}
