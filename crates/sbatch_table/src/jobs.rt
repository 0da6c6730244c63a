// The words and the script of sbatch(1).

use crate::description::described;
use line_words::words::{Words, WordsRefusal, split_words};
use sbatch_reader::reader::{read_job, script_word};
use sbatch_reader::refusal::JobRefusal;
use std::alloc::Global;
use table_lines::answer::{Unanswered, push};
use table_lines::fields::LONGEST;

// The moment at which words are read.
const NOW: u64 = 1000;

/// The words of a line.
pub fn words_in(alloc: Global, line: &[u8]) -> Result<Words, Unanswered> {
    if line.len() > LONGEST {
        return Err(Unanswered::Arguments);
    }
    match split_words(alloc, line) {
        Ok(words) => Ok(words),
        Err(WordsRefusal::Memory) => Err(Unanswered::Memory),
        Err(_) => Err(Unanswered::Arguments),
    }
}

fn refused_job(alloc: Global, refusal: JobRefusal) -> Result<Vec<u8>, Unanswered> {
    if let JobRefusal::Memory = refusal {
        return Err(Unanswered::Memory);
    }
    let mut out = Vec::new(alloc);
    push(&mut out, &refusal)?;
    Ok(out)
}

// The job that a command and its script ask for.
fn asked(alloc: Global, line: &[u8], script: Option<&[u8]>) -> Result<Vec<u8>, Unanswered> {
    let words = words_in(alloc, line)?;
    match read_job(alloc, &words, script, NOW) {
        Ok(job) => described(alloc, &job),
        Err(refusal) => refused_job(alloc, refusal),
    }
}

/// The job that a command asks for, with its script where there is one.
pub fn job(alloc: Global, arguments: &[&[u8]]) -> Result<Vec<u8>, Unanswered> {
    match *arguments {
        [line] => asked(alloc, line, None),
        [line, script] => asked(alloc, line, Some(script)),
        _ => Err(Unanswered::Arguments),
    }
}

/// The number of the word that names the script.
pub fn script(alloc: Global, arguments: &[&[u8]]) -> Result<Vec<u8>, Unanswered> {
    let [line] = *arguments else {
        return Err(Unanswered::Arguments);
    };
    let words = words_in(alloc, line)?;
    let mut out = Vec::new(alloc);
    match script_word(&words) {
        Some(number) => push(&mut out, &number)?,
        None => out.push(b'-')?,
    }
    Ok(out)
}
