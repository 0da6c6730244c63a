// Headers of blocks.

use crate::description::described;
use crate::requests::push_request;
use crate::show::push_marked;
use command_words::command::Command;
use command_words::fault::{WordFault, WordKind};
use command_words::header::{Asked, Meaning, read_header};
use plain_data::job::JobDesc;
use request_data::request::Request;
use std::alloc::Global;
use table_lines::answer::{Unanswered, push};
use table_lines::fields::LONGEST;
use text_values::conf_refusal::ConfKind;

// Puts what a job asks for behind the command that hands it in.
fn push_job(out: &mut Vec<u8>, job: &JobDesc) -> Result<(), Unanswered> {
    let fields = described(*out.allocator(), job)?;
    out.push(b' ')?;
    out.extend_from_slice(fields.as_slice())?;
    Ok(())
}

// Puts a request behind an answer, and of a job that is handed in what it asks for.
fn push_what(out: &mut Vec<u8>, request: &Request) -> Result<(), Unanswered> {
    push_request(out, request)?;
    match request {
        Request::Submit(job) => push_job(out, job),
        _ => Ok(()),
    }
}

fn push_asked(out: &mut Vec<u8>, asked: &Asked) -> Result<(), Unanswered> {
    push_marked(out, b"Asks ", &asked.moment)?;
    push_marked(out, b" ", &asked.user)?;
    out.push(b' ')?;
    push_what(out, &asked.request)
}

/// Puts a bad place and what is wrong there behind an answer.
pub fn push_place(
    out: &mut Vec<u8>,
    place: &[u8],
    number: u32,
    kind: WordKind,
) -> Result<(), Unanswered> {
    push_marked(out, place, &number)?;
    out.push(b' ')?;
    push(out, &kind)
}

// Puts a bad line of a configuration and what is wrong there behind an answer.
fn push_conf_fault(out: &mut Vec<u8>, line: u32, kind: ConfKind) -> Result<(), Unanswered> {
    push_marked(out, b": conf line ", &line)?;
    out.push(b' ')?;
    push(out, &kind)
}

fn push_malformed(out: &mut Vec<u8>, command: Command, fault: WordFault) -> Result<(), Unanswered> {
    out.extend_from_slice(b"Malformed ")?;
    out.extend_from_slice(command.name())?;
    match fault {
        WordFault::Word { word, kind } => push_place(out, b": word ", word, kind),
        WordFault::Line { line, kind } => push_place(out, b": line ", line, kind),
        WordFault::Conf { line, kind } => push_conf_fault(out, line, kind),
    }
}

fn push_meaning(out: &mut Vec<u8>, meaning: &Meaning) -> Result<(), Unanswered> {
    match meaning {
        Meaning::Asks(asked) => push_asked(out, asked),
        Meaning::Malformed { command, fault } => push_malformed(out, *command, *fault),
        Meaning::UnknownCommand => push(out, &"UnknownCommand"),
        Meaning::BadWords { place } => push_marked(out, b"BadWords ", place),
        Meaning::BadHeader => push(out, &"BadHeader"),
    }
}

fn meaning_text(alloc: Global, meaning: &Meaning) -> Result<Vec<u8>, Unanswered> {
    let mut out = Vec::new(alloc);
    push_meaning(&mut out, meaning)?;
    Ok(out)
}

fn told(alloc: Global, header: &[u8], attachment: Option<&[u8]>) -> Result<Vec<u8>, Unanswered> {
    if header.len() > LONGEST {
        return Err(Unanswered::Arguments);
    }
    let meaning = read_header(alloc, header, attachment)?;
    meaning_text(alloc, &meaning)
}

/// What a header means, with its attachment where there is one.
pub fn header(alloc: Global, arguments: &[&[u8]]) -> Result<Vec<u8>, Unanswered> {
    match *arguments {
        [header] => told(alloc, header, None),
        [header, attachment] => told(alloc, header, Some(attachment)),
        _ => Err(Unanswered::Arguments),
    }
}
