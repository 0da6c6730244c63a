//! slurm_replay: what a cluster would have done with the jobs that a trace tells of.
#![tactic(auto)]

mod telling;

use replay_run::{Texts, USAGE, Wanted, make_report, wanted_in};
use std::process::ExitCode;
use std::{env, fs, io};
use telling::Teller;

// The bytes of a file, where one is named.
fn read_named(rt: &HostRuntime, name: Option<&str>) -> io::Result<Option<Vec<u8>>> {
    match name {
        Some(name) => {
            let bytes = fs::read(rt, name)?;
            Ok(Some(bytes))
        }
        None => Ok(None),
    }
}

fn bytes_in(bytes: &Option<Vec<u8>>) -> Option<&[u8]> {
    match bytes {
        Some(bytes) => Some(bytes.as_slice()),
        None => None,
    }
}

// Writes a text to a file, where both are there.
fn write_named(rt: &HostRuntime, name: Option<&str>, text: &Option<Vec<u8>>) -> io::Result<()> {
    if let (Some(name), Some(text)) = (name, text) {
        fs::write(rt, name, text.as_slice())?;
    }
    Ok(())
}

fn replay_files(rt: &HostRuntime, wanted: &Wanted<'_>) -> io::Result<u8> {
    let conf = fs::read(rt, wanted.conf)?;
    let assocs = fs::read(rt, wanted.assocs)?;
    let trace = fs::read(rt, wanted.trace)?;
    let other_conf = read_named(rt, wanted.other_conf)?;
    let other_assocs = read_named(rt, wanted.other_assocs)?;
    let other_conf = bytes_in(&other_conf);
    let other_assocs = bytes_in(&other_assocs);
    let texts = Texts {
        conf: conf.as_slice(),
        assocs: assocs.as_slice(),
        trace: trace.as_slice(),
        other_conf,
        other_assocs,
    };
    match make_report(rt.alloc(), wanted, &texts, &mut Teller::new(rt)) {
        Ok(report) => {
            rt.write_all(report.text.as_slice())?;
            write_named(rt, wanted.svg, &report.picture)?;
            write_named(rt, wanted.other_svg, &report.other_picture)?;
            Ok(0)
        }
        Err(refusal) => {
            eprintln!(rt; "slurm_replay: error: {refusal}")?;
            Ok(1)
        }
    }
}

fn main(rt: HostRuntime) -> io::Result<ExitCode> {
    let words: Vec<String> = env::args(&rt)?.skip(1).collect(rt.alloc())?;
    let status = match wanted_in(words.as_slice()) {
        Ok(wanted) => replay_files(&rt, &wanted)?,
        Err(fault) => {
            eprintln!(rt; "slurm_replay: error: {fault}")?;
            eprintln!(rt; "{USAGE}")?;
            2
        }
    };
    Ok(ExitCode::from(status))
}
