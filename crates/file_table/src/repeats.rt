//! Lines of a table that stand for many: `@ FROM TO TEXT` is TEXT for each number from FROM to TO, which takes the
//! place of `%`; `|` in it ends a line.

use small_texts::digits::parse_number;
use small_texts::fields::first_field;
use std::alloc::{AllocError, Global};

const MOST_DIGITS: usize = 9;

const GREATEST: u64 = 999_999_999;

/// A line that stands for many.
#[derive(Clone, Copy)]
struct Repeat<'a> {
    from: u64,
    to: u64,
    text: &'a [u8],
}

fn read_repeat(line: &[u8]) -> Option<Repeat<'_>> {
    let (from, rest) = first_field(line.strip_prefix(b"@ ")?, b' ');
    let (to, text) = first_field(rest?, b' ');
    let from = parse_number(from, MOST_DIGITS, GREATEST)?;
    let to = parse_number(to, MOST_DIGITS, GREATEST)?;
    let text = text?;
    Some(Repeat { from, to, text })
}

// Puts the text for one number behind what was written.
fn push_text(alloc: Global, out: &mut Vec<u8>, number: u64, text: &[u8]) -> Result<(), AllocError> {
    let digits = format!(in alloc; "{number}")?;
    for b in text {
        match *b {
            b'%' => out.extend_from_slice(digits.as_bytes())?,
            b'|' => out.push(b'\n')?,
            other => out.push(other)?,
        }
    }
    Ok(())
}

fn push_repeat(alloc: Global, out: &mut Vec<u8>, repeat: Repeat) -> Result<(), AllocError> {
    for number in repeat.from..repeat.to {
        push_text(alloc, out, number, repeat.text)?;
        out.push(b'\n')?;
    }
    push_text(alloc, out, repeat.to, repeat.text)
}

// Puts what a line stands for behind what was written.
fn push_line(alloc: Global, out: &mut Vec<u8>, line: &[u8]) -> Result<(), AllocError> {
    match read_repeat(line) {
        Some(repeat) => push_repeat(alloc, out, repeat),
        None => Ok(out.extend_from_slice(line)?),
    }
}

/// A file, with what its lines stand for.
pub(crate) fn expand(alloc: Global, file: &[u8]) -> Result<Vec<u8>, AllocError> {
    let mut out = Vec::with_capacity(alloc, file.len())?;
    let mut begun = false;
    for line in file.split(|byte| *byte == b'\n') {
        if begun {
            out.push(b'\n')?;
        }
        begun = true;
        push_line(alloc, &mut out, line)?;
    }
    Ok(out)
}
