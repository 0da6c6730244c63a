// The words of commands other than sbatch(1).

use crate::headers::push_place;
use crate::jobs::words_in;
use crate::requests::push_request;
use command_words::alone::read_alone;
use command_words::command::{Command, command_named};
use line_words::words::Words;
use std::alloc::Global;
use table_lines::answer::{Unanswered, push};
use table_lines::fields::number;

fn named(words: &Words) -> Option<Command> {
    command_named(words.get(0)?)
}

// What the words of a command ask for, or the first that is wrong.
fn read(alloc: Global, command: Command, now: u64, words: &Words) -> Result<Vec<u8>, Unanswered> {
    let mut out = Vec::new(alloc);
    match read_alone(alloc, command, now, words)? {
        Ok(request) => push_request(&mut out, &request)?,
        Err(fault) => push_place(&mut out, b"word ", fault.word, fault.kind)?,
    }
    Ok(out)
}

fn no_command(alloc: Global) -> Result<Vec<u8>, Unanswered> {
    let mut out = Vec::new(alloc);
    push(&mut out, &"no such command")?;
    Ok(out)
}

fn told(alloc: Global, moment: &[u8], line: &[u8]) -> Result<Vec<u8>, Unanswered> {
    let now = number(moment)?;
    let words = words_in(alloc, line)?;
    match named(&words) {
        Some(command) => read(alloc, command, now, &words),
        None => no_command(alloc),
    }
}

/// What the words of a command ask for at a moment, or the first that is wrong.
pub fn command(alloc: Global, arguments: &[&[u8]]) -> Result<Vec<u8>, Unanswered> {
    match *arguments {
        [moment, line] => told(alloc, moment, line),
        _ => Err(Unanswered::Arguments),
    }
}
