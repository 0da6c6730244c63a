//! Sessions for people: a script of commands with comments and moments, or a terminal, at the controller of a cluster.
#![tactic(auto)]

use session_text::Input;
use slurm_io::{FileShelf, ReaderSource, WriterSink};
use std::env;
use std::io::{ErrorKind, IsTerminal};
use std::process::ExitCode;

/// The words behind the program's name.
fn read_words(rt: &HostRuntime) -> Result<Vec<String>, WordsFault> {
    match env::args(rt) {
        Ok(words) => match words.skip(1).collect(rt.alloc()) {
            Ok(words) => Ok(words),
            Err(_) => Err(WordsFault::Memory),
        },
        Err(error) if error.kind() == ErrorKind::InvalidData => Err(WordsFault::NotText),
        Err(_) => Err(WordsFault::Memory),
    }
}

fn main(rt: HostRuntime) -> ExitCode {
    let mut errors = WriterSink::new(rt.stderr());
    let words = match read_words(&rt) {
        Ok(words) => words,
        Err(fault) => return ExitCode::from(session_without_words(&mut errors, fault)),
    };
    let input = if rt.stdin().is_terminal() {
        Input::Terminal
    } else {
        Input::Text
    };
    let status = session_run(
        rt.alloc(),
        words.as_slice(),
        &mut ReaderSource::new(rt.stdin()),
        &mut WriterSink::new(rt.stdout()),
        &mut errors,
        &mut FileShelf::new(&rt),
        input,
    );
    ExitCode::from(status)
}

mod command;
mod ending;
mod opening;
mod running;
mod words;

use running::{WordsFault, session_run, session_without_words};
