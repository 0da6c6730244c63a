// Scripts that are drawn from a number.

use generator::{read_number, script_of};
use md5::{Digest, Md5};
use std::alloc::Global;
use table_lines::answer::{Unanswered, taken};
use table_lines::fields::narrow_number;

/// The number that a word names.
pub fn number(alloc: Global, arguments: &[&[u8]]) -> Result<Vec<u8>, Unanswered> {
    let [word] = *arguments else {
        return Err(Unanswered::Arguments);
    };
    match read_number(word) {
        Some(number) => taken(alloc, &number),
        None => taken(alloc, &"none"),
    }
}

// The lines of a text from the first to the last, which are counted from 1.
fn lines_between(alloc: Global, text: &[u8], first: u32, last: u32) -> Result<Vec<u8>, Unanswered> {
    let mut out = Vec::new(alloc);
    let mut place = 0u32;
    for line in text.split_inclusive(|byte| *byte == b'\n') {
        place = place.saturating_add(1);
        if first <= place && place <= last {
            out.extend_from_slice(line)?;
        }
    }
    Ok(out)
}

/// The lines of a number's script from the first to the last, which are counted from 1.
pub fn lines(alloc: Global, arguments: &[&[u8]]) -> Result<Vec<u8>, Unanswered> {
    let [number, first, last] = *arguments else {
        return Err(Unanswered::Arguments);
    };
    let number = narrow_number(number)?;
    let first = narrow_number(first)?;
    let last = narrow_number(last)?;
    let script = script_of(alloc, number)?;
    lines_between(alloc, script.as_slice(), first, last)
}

// The bytes in hexadecimal digits, two for each.
fn hexadecimal(alloc: Global, bytes: &[u8]) -> Result<Vec<u8>, Unanswered> {
    let mut out = Vec::new(alloc);
    for byte in bytes {
        let digits = format!(in alloc; "{byte:02x}")?;
        out.extend_from_slice(digits.as_bytes())?;
    }
    Ok(out)
}

/// The MD5 of a number's script, in hexadecimal digits: it tells any change of its text.
pub fn digest(alloc: Global, arguments: &[&[u8]]) -> Result<Vec<u8>, Unanswered> {
    let [number] = *arguments else {
        return Err(Unanswered::Arguments);
    };
    let number = narrow_number(number)?;
    let script = script_of(alloc, number)?;
    hexadecimal(alloc, &Md5::digest(script.as_slice()))
}
