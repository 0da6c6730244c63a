//! The script that a number stands for.

ghost use Rattle.std.specs.Prelude.{◌≡◌, ◌++◌, IfOk, OnOk};
ghost use Rattle.generator.specs.Generated.{next_number, header_line, run_line, block_text, pass_line, job_text, script_from, jobs_drawn, generated};

use crate::job::Job;
use small_texts::memory_error::Memory;
use small_texts::pieces::{push_labelled, push_number, push_text};
use std::alloc::Global;

// How many jobs a script has.
const JOBS: u32 = 500;

// Room for the longest script: a job's block has up to 64 bytes, and a pass has up to 15.
const LONGEST: usize = 32_768;

// The number that follows another. The C standard's example of `rand` draws by this rule; what is drawn is (own).
fn next_number(number: u32) -> u32
    ensures { result ≡ next_number number }
{
    ((1_103_515_245 * u64::from(number) + 12_345) % 2_147_483_648) as u32
}

fn push_header(out: &mut Vec<u8>, job: &Job) -> Result<(), Memory>
    ensures { OnOk result (out.new.items ≡ out.old.items ++ header_line job.now) }
{
    push_number(out, job.moment)?;
    push_labelled(out, b" u", u64::from(job.user))?;
    push_labelled(out, b" sbatch -n ", u64::from(job.tasks))?;
    push_labelled(out, b" -t ", u64::from(job.minutes))?;
    push_text(out, b" <<\n")?;
    Ok(())
}

fn push_run(out: &mut Vec<u8>, seconds: u32) -> Result<(), Memory>
    ensures { OnOk result (out.new.items ≡ out.old.items ++ run_line seconds) }
{
    push_labelled(out, b"#SIM run=", u64::from(seconds))?;
    push_text(out, b" exit=0\n")?;
    Ok(())
}

fn push_block(out: &mut Vec<u8>, job: &Job) -> Result<(), Memory>
    ensures { OnOk result (out.new.items ≡ out.old.items ++ block_text job.now) }
{
    push_header(out, job)?;
    push_text(out, b"#!/bin/sh\n")?;
    push_run(out, job.seconds)?;
    push_text(out, b".\n")?;
    Ok(())
}

fn push_pass(out: &mut Vec<u8>, moment: u64) -> Result<(), Memory>
    ensures { OnOk result (out.new.items ≡ out.old.items ++ pass_line moment) }
{
    push_number(out, moment)?;
    push_text(out, b" root pass\n")?;
    Ok(())
}

// The job of a place, counted from 1, and a pass behind each tenth.
fn push_job(out: &mut Vec<u8>, place: u32, job: &Job) -> Result<(), Memory>
    ensures { OnOk result (out.new.items ≡ out.old.items ++ job_text place job.now) }
{
    push_block(out, job)?;
    if place % 10 == 0 {
        push_pass(out, job.moment)?;
    }
    Ok(())
}

// So many jobs, which are drawn from a number.
fn push_jobs(out: &mut Vec<u8>, count: u32, number: u32) -> Result<(), Memory>
    ensures { OnOk result (out.new.items ≡ out.old.items ++ script_from 1 (jobs_drawn count number)) }
{
    let mut last = number;
    let mut moment = 0;
    for place in 0..count {
        last = next_number(last);
        let job = Job::drawn(moment, last / 65_536);
        push_job(out, place + 1, &job)?;
        moment = job.moment;
    }
    Ok(())
}

/// The script that a number stands for: 500 jobs of four users, with a pass behind each tenth. It is the same whenever
/// and wherever it is made (own).
#[tactic(auto, unfolding(crate::specs::Generated::generated))]
pub fn script_of(alloc: Global, number: u32) -> Result<Vec<u8>, Memory>
    ensures { IfOk result (λ text. text.items ≡ generated number) }
{
    let mut out = Vec::with_capacity(alloc, LONGEST)?;
    push_jobs(&mut out, JOBS, number)?;
    Ok(out)
}
