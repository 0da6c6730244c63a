// Calls of a server, over links in memory.

use crate::words::list_of;
use line_words::words::words_of;
use slurm_client::{Called, client_run, fits_request, read_address};
use slurm_io::MemLink;
use small_texts::memory_error::Memory;
use small_texts::name::Name;
use std::alloc::{AllocError, Global};
use table_lines::answer::{Unanswered, push};
use table_lines::fields::{LONGEST, narrow_number, number, parts};

// The numbers that stand behind this letter, of texts such as `r1,w2`.
fn numbers_of(alloc: Global, calls: &[u8], letter: u8) -> Result<Vec<u64>, Unanswered> {
    let mut numbers = Vec::new(alloc);
    for call in &parts(alloc, calls, b',')? {
        if let Some((first, digits)) = call.split_first()
            && *first == letter
        {
            numbers.push(number(digits)?)?;
        }
    }
    Ok(numbers)
}

// What is called: the link with the reply, the output and the errors.
#[derive(Drop)]
struct Outside {
    link: MemLink,
    output: MemLink,
    errors: MemLink,
}

impl Outside {
    // The link gives these bytes. Each moves so many bytes at once, and of its calls those fail that are named: `r` a
    // read of the link, `w` a write, `o` one of the output and `e` one of the errors.
    fn new(alloc: Global, most: &[u8], failing: &[u8], bytes: &[u8]) -> Result<Self, Unanswered> {
        let most = narrow_number(most)?.max(1);
        let bytes = Vec::from_slice(alloc, bytes)?;
        let reads = numbers_of(alloc, failing, b'r')?;
        let writes = numbers_of(alloc, failing, b'w')?;
        let outputs = numbers_of(alloc, failing, b'o')?;
        let errors = numbers_of(alloc, failing, b'e')?;
        Ok(Outside {
            link: MemLink::new(alloc, bytes, most, reads, writes),
            output: MemLink::new(alloc, Vec::new(alloc), most, Vec::new(alloc), outputs),
            errors: MemLink::new(alloc, Vec::new(alloc), most, Vec::new(alloc), errors),
        })
    }

    // The status, what was sent, what is left of the link's bytes, and what the output and the errors took.
    fn told(&self, alloc: Global, called: Called) -> Result<Vec<u8>, Unanswered> {
        let mut out = Vec::new(alloc);
        push(&mut out, &called.status())?;
        push_named(&mut out, b" sent[", self.link.taken())?;
        push_named(&mut out, b" left[", self.link.left())?;
        push_named(&mut out, b" output[", self.output.taken())?;
        push_named(&mut out, b" errors[", self.errors.taken())?;
        Ok(out)
    }
}

fn push_named(out: &mut Vec<u8>, name: &[u8], bytes: &[u8]) -> Result<(), AllocError> {
    out.extend_from_slice(name)?;
    out.extend_from_slice(bytes)?;
    out.push(b']')?;
    Ok(())
}

fn call_with(
    alloc: Global,
    outside: &mut Outside,
    user: &[u8],
    words: &[u8],
    script: Option<&[u8]>,
) -> Result<Vec<u8>, Unanswered> {
    let user = Name::read(alloc, user)?;
    let list = list_of(alloc, words)?;
    if list.len() > LONGEST {
        return Err(Unanswered::Arguments);
    }
    let Ok(words) = words_of(alloc, list.as_slice()) else {
        return Err(Unanswered::Arguments);
    };
    if !fits_request(alloc, &user, &words, script)? {
        return Err(Unanswered::Arguments);
    }
    let Outside {
        link,
        output,
        errors,
    } = outside;
    let called = client_run(alloc, link, &user, &words, script, output, errors);
    outside.told(alloc, called)
}

/// What becomes of a call without a script: how many bytes are moved at once, the calls that fail, the user, the words,
/// each ended by `;`, and the bytes that the link gives.
pub fn call(alloc: Global, arguments: &[&[u8]]) -> Result<Vec<u8>, Unanswered> {
    let [most, failing, user, words, bytes] = *arguments else {
        return Err(Unanswered::Arguments);
    };
    let mut outside = Outside::new(alloc, most, failing, bytes)?;
    call_with(alloc, &mut outside, user, words, None)
}

/// The same with a script, which stands before the bytes.
pub fn call_with_script(alloc: Global, arguments: &[&[u8]]) -> Result<Vec<u8>, Unanswered> {
    let [most, failing, user, words, script, bytes] = *arguments else {
        return Err(Unanswered::Arguments);
    };
    let mut outside = Outside::new(alloc, most, failing, bytes)?;
    call_with(alloc, &mut outside, user, words, Some(script))
}

/// The user and the port of a word that names a server.
pub fn address(alloc: Global, arguments: &[&[u8]]) -> Result<Vec<u8>, Unanswered> {
    let [word] = *arguments else {
        return Err(Unanswered::Arguments);
    };
    let mut out = Vec::new(alloc);
    let Some((user, port)) = read_address(word) else {
        out.extend_from_slice(b"none")?;
        return Ok(out);
    };
    out.extend_from_slice(user)?;
    out.push(b' ')?;
    push(&mut out, &port)?;
    Ok(out)
}
