//! The daemon of one node, as a program of its own: it reports to a controller of this machine, and does what that orders.
#![tactic(auto)]

use slurm_io::WriterSink;
use slurm_net::{SystemClock, TcpHost};
use slurmd_link::{WordsFault, slurmd_run, slurmd_without_words};
use std::env;
use std::io::ErrorKind;
use std::process::ExitCode;

/// The words behind the program's name.
fn read_words(rt: &HostRuntime) -> Result<Vec<String>, WordsFault> {
    match env::args(rt) {
        Ok(words) => match words.skip(1).collect(rt.alloc()) {
            Ok(words) => Ok(words),
            Err(_) => Err(WordsFault::Memory),
        },
        Err(error) if error.kind() == ErrorKind::InvalidData => Err(WordsFault::NotText),
        Err(_) => Err(WordsFault::Memory),
    }
}

fn main(rt: HostRuntime) -> ExitCode {
    let mut errors = WriterSink::new(rt.stderr());
    let words = match read_words(&rt) {
        Ok(words) => words,
        Err(fault) => return ExitCode::from(slurmd_without_words(&mut errors, fault)),
    };
    let mut host = TcpHost::new(rt.alloc(), &rt);
    let status = slurmd_run(
        rt.alloc(),
        words.as_slice(),
        &mut WriterSink::new(rt.stdout()),
        &mut errors,
        &mut SystemClock::new(&rt),
        &mut host,
    );
    ExitCode::from(status)
}
