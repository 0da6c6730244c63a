// Host expressions.

use host_lists::folding::fold_hosts;
use host_lists::hosts::{HostRefusal, expand_hosts};
use small_texts::name::Name;
use std::alloc::Global;
use table_lines::answer::{Unanswered, refused, taken};
use table_lines::fields::{LONGEST, number};

fn refused_hosts(alloc: Global, refusal: HostRefusal) -> Result<Vec<u8>, Unanswered> {
    match refusal {
        HostRefusal::Memory => Err(Unanswered::Memory),
        _ => refused(alloc, &refusal),
    }
}

// The names, each followed by a blank.
fn listed(alloc: Global, names: &[Name]) -> Result<Vec<u8>, Unanswered> {
    let mut out = Vec::new(alloc);
    for name in names {
        out.extend_from_slice(name.as_bytes())?;
        out.push(b' ')?;
    }
    Ok(out)
}

/// The names that a host expression means.
pub fn expand(alloc: Global, arguments: &[&[u8]]) -> Result<Vec<u8>, Unanswered> {
    let [text] = *arguments else {
        return Err(Unanswered::Arguments);
    };
    if text.len() > LONGEST {
        return Err(Unanswered::Arguments);
    }
    match expand_hosts(alloc, text, usize::MAX) {
        Ok(names) => listed(alloc, names.as_slice()),
        Err(refusal) => refused_hosts(alloc, refusal),
    }
}

// How many names there are, of no more than so many.
fn counted(alloc: Global, text: &[u8], most: u64) -> Result<Vec<u8>, Unanswered> {
    if text.len() > LONGEST {
        return Err(Unanswered::Arguments);
    }
    match expand_hosts(alloc, text, most as usize) {
        Ok(names) => taken(alloc, &names.len()),
        Err(refusal) => refused_hosts(alloc, refusal),
    }
}

/// How many names a host expression means; its second argument, if it has one, is the most that may be.
pub fn count(alloc: Global, arguments: &[&[u8]]) -> Result<Vec<u8>, Unanswered> {
    match *arguments {
        [text] => counted(alloc, text, u64::MAX),
        [text, most] => {
            let most = number(most)?;
            counted(alloc, text, most)
        }
        _ => Err(Unanswered::Arguments),
    }
}

/// The names of the text, folded.
pub fn fold(alloc: Global, arguments: &[&[u8]]) -> Result<Vec<u8>, Unanswered> {
    let [text] = *arguments else {
        return Err(Unanswered::Arguments);
    };
    if text.len() > LONGEST {
        return Err(Unanswered::Arguments);
    }
    match expand_hosts(alloc, text, usize::MAX) {
        Ok(names) => Ok(fold_hosts(alloc, names.as_slice())?),
        Err(refusal) => refused_hosts(alloc, refusal),
    }
}
