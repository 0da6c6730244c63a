// Runs of slurmd, over a host, a clock and links in memory.
ghost use Rattle.std.specs.Prelude.{◌<◌};

use slurm_io::MemLink;
use slurm_net::{MemClock, MemHost};
use slurmd_link::slurmd_run;
use std::alloc::{AllocError, Global};
use std::str;
use table_lines::answer::{Unanswered, push};
use table_lines::fields::{narrow_number, number, parts};

// The numbers that stand behind this letter, of texts such as `r1,w2`.
fn numbers_of(alloc: Global, calls: &[u8], letter: u8) -> Result<Vec<u64>, Unanswered> {
    let mut numbers = Vec::new(alloc);
    for call in &parts(alloc, calls, b',')? {
        if let Some((first, digits)) = call.split_first()
            && *first == letter
        {
            numbers.push(number(digits)?)?;
        }
    }
    Ok(numbers)
}

// The words, with a blank between two.
fn words_of(alloc: Global, text: &[u8]) -> Result<Vec<String>, Unanswered> {
    let Ok(text) = str::from_utf8(text) else {
        return Err(Unanswered::Arguments);
    };
    let mut words = Vec::new(alloc);
    for word in text.split_whitespace() {
        words.push(String::from_str(alloc, word)?)?;
    }
    Ok(words)
}

// A host with one link that gives these bytes.
fn host_of(alloc: Global, most: u32, failing: &[u8], bytes: &[u8]) -> Result<MemHost, Unanswered>
    requires { 0 < most }
{
    let bytes = Vec::from_slice(alloc, bytes)?;
    let reads = numbers_of(alloc, failing, b'r')?;
    let writes = numbers_of(alloc, failing, b'w')?;
    let dials = numbers_of(alloc, failing, b'd')?;
    let link = MemLink::new(alloc, bytes, most, reads, writes);
    let links = vec![in alloc; link]?;
    Ok(MemHost::new(alloc, Vec::new(alloc), links, dials))
}

fn push_named(out: &mut Vec<u8>, name: &[u8], bytes: &[u8]) -> Result<(), AllocError> {
    out.extend_from_slice(name)?;
    out.extend_from_slice(bytes)?;
    out.push(b']')?;
    Ok(())
}

// Puts what the link that was hung up had taken and had left, where one was.
fn push_link(out: &mut Vec<u8>, host: &MemHost) -> Result<(), AllocError> {
    match host.last() {
        Some(link) => {
            push_named(out, b" sent[", link.taken())?;
            push_named(out, b" left[", link.left())
        }
        None => out.extend_from_slice(b" undialled"),
    }
}

/// What becomes of a run: how many bytes are moved at once, the calls that fail (`d` a dial, `r` a read of the link, `w` a
/// write of it, `o` one of the output), the first moment of the clock and by how much each reading is later, the words, and
/// the bytes that the link gives.
pub fn run(alloc: Global, arguments: &[&[u8]]) -> Result<Vec<u8>, Unanswered> {
    let [most, failing, first, step, words, bytes] = *arguments else {
        return Err(Unanswered::Arguments);
    };
    let most = narrow_number(most)?.max(1);
    let words = words_of(alloc, words)?;
    let mut host = host_of(alloc, most, failing, bytes)?;
    let mut clock = MemClock::new(number(first)?, number(step)?);
    let writes = numbers_of(alloc, failing, b'o')?;
    let mut output = MemLink::new(alloc, Vec::new(alloc), most, Vec::new(alloc), writes);
    let mut errors = MemLink::new(
        alloc,
        Vec::new(alloc),
        most,
        Vec::new(alloc),
        Vec::new(alloc),
    );
    let status = slurmd_run(
        alloc,
        words.as_slice(),
        &mut output,
        &mut errors,
        &mut clock,
        &mut host,
    );
    let mut out = Vec::new(alloc);
    push(&mut out, &status)?;
    push_link(&mut out, &host)?;
    push_named(&mut out, b" output[", output.taken())?;
    push_named(&mut out, b" errors[", errors.taken())?;
    Ok(out)
}
