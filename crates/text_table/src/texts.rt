// Names, numbers, amounts of memory and moments.

use small_texts::digits::parse_number;
use small_texts::memory::parse_mem;
use small_texts::moment;
use small_texts::moment::parse_moment;
use small_texts::name::{JobName, Name, NameRefusal};
use std::alloc::Global;
use table_lines::answer::{Unanswered, refused, taken};
use table_lines::fields::number as argument;

fn quoted(alloc: Global, text: &[u8]) -> Result<Vec<u8>, Unanswered> {
    let mut out = Vec::new(alloc);
    out.push(b'"')?;
    out.extend_from_slice(text)?;
    out.push(b'"')?;
    Ok(out)
}

fn refused_name(alloc: Global, refusal: NameRefusal) -> Result<Vec<u8>, Unanswered> {
    match refusal {
        NameRefusal::Memory => Err(Unanswered::Memory),
        NameRefusal::BadName => refused(alloc, &refusal),
    }
}

/// The name that the bytes are.
pub fn name(alloc: Global, arguments: &[&[u8]]) -> Result<Vec<u8>, Unanswered> {
    let [text] = *arguments else {
        return Err(Unanswered::Arguments);
    };
    match Name::read(alloc, text) {
        Ok(name) => quoted(alloc, name.as_bytes()),
        Err(refusal) => refused_name(alloc, refusal),
    }
}

/// The name of a job that the bytes are.
pub fn job_name(alloc: Global, arguments: &[&[u8]]) -> Result<Vec<u8>, Unanswered> {
    let [text] = *arguments else {
        return Err(Unanswered::Arguments);
    };
    match JobName::read(alloc, text) {
        Ok(name) => quoted(alloc, name.as_bytes()),
        Err(refusal) => refused_name(alloc, refusal),
    }
}

/// The number of at most so many digits, and no greater than the last argument.
pub fn number(alloc: Global, arguments: &[&[u8]]) -> Result<Vec<u8>, Unanswered> {
    let [text, most_digits, greatest] = *arguments else {
        return Err(Unanswered::Arguments);
    };
    let most_digits = argument(most_digits)?;
    let greatest = argument(greatest)?;
    match parse_number(text, most_digits as usize, greatest) {
        Some(number) => taken(alloc, &number),
        None => taken(alloc, &"none"),
    }
}

/// An amount of memory in megabytes.
pub fn memory(alloc: Global, arguments: &[&[u8]]) -> Result<Vec<u8>, Unanswered> {
    let [text] = *arguments else {
        return Err(Unanswered::Arguments);
    };
    match parse_mem(text) {
        Ok(megabytes) => taken(alloc, &megabytes),
        Err(refusal) => refused(alloc, &refusal),
    }
}

/// The second that a text means at another.
pub fn moment(alloc: Global, arguments: &[&[u8]]) -> Result<Vec<u8>, Unanswered> {
    let [text, now] = *arguments else {
        return Err(Unanswered::Arguments);
    };
    let now = argument(now)?;
    match parse_moment(text, now) {
        Ok(moment) => taken(alloc, &moment),
        Err(refusal) => refused(alloc, &refusal),
    }
}

/// A second as a date and a time.
pub fn print_moment(alloc: Global, arguments: &[&[u8]]) -> Result<Vec<u8>, Unanswered> {
    let [moment] = *arguments else {
        return Err(Unanswered::Arguments);
    };
    let moment = argument(moment)?;
    if moment > 253_402_300_799 {
        return Err(Unanswered::Arguments);
    }
    let mut out = [0; 19];
    moment::print_moment(moment, &mut out);
    Ok(Vec::from_slice(alloc, &out)?)
}
