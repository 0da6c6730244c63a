//! A line of sacct(1), of the fields JobID, User, Account, Partition, QOS, Submit, Start, End, Timelimit, ReqNodes, ReqCPUS,
//! ReqMem and State.

ghost use Rattle.std.specs.Prelude.{◌≡◌, IfOk, map};
ghost use Rattle.trace_text.specs.Sacct.{between, facts_in, fits_name, names_fit, names_of, needs_in, partition_in, sacct_fields, sacct_line, times_in};

use crate::fault::LineFault;
use crate::fields::{at_field, field, fields_of};
use crate::job::{Facts, TraceJob, TraceNames, TraceNeeds, TraceTimes};
use crate::names::name_in;
use crate::sacct_values::{
    count_in, front_of, id_in, is_no_job, limit_in, memory_in, moment_in, outcome_in,
};
use small_texts::memory_error::Memory;
use small_texts::name::is_name;
use std::alloc::Global;

const JOB_ID: usize = 1;

const USER: usize = 2;

const ACCOUNT: usize = 3;

const PARTITION: usize = 4;

const QOS: usize = 5;

const SUBMIT: usize = 6;

const START: usize = 7;

const END: usize = 8;

const LIMIT: usize = 9;

const NODES: usize = 10;

const PROCESSORS: usize = 11;

const MEMORY: usize = 12;

const STATE: usize = 13;

fn fits_name(place: usize, text: &[u8]) -> Result<(), LineFault>
    ensures { result ≡ fits_name place text.now }
{
    if text.is_empty() || is_name(text) {
        Ok(())
    } else {
        Err(LineFault::Field { place })
    }
}

fn partition_in<'a>(parts: &[&'a [u8]]) -> &'a [u8]
    ensures { result.now ≡ partition_in (map (λ part. part.now) parts.now) }
{
    front_of(field(parts, PARTITION), b',')
}

#[tactic(auto, unfolding(crate::specs::Sacct::names_fit))]
fn names_fit(parts: &[&[u8]]) -> Result<(), LineFault>
    ensures { result ≡ names_fit (map (λ part. part.now) parts.now) }
{
    fits_name(USER, field(parts, USER))?;
    fits_name(ACCOUNT, field(parts, ACCOUNT))?;
    fits_name(PARTITION, partition_in(parts))?;
    fits_name(QOS, field(parts, QOS))
}

fn names_of(alloc: Global, parts: &[&[u8]]) -> Result<TraceNames, Memory>
    ensures { IfOk result (λ names. names ≡ names_of (map (λ part. part.now) parts.now)) }
{
    let user = name_in(alloc, field(parts, USER))?;
    let account = name_in(alloc, field(parts, ACCOUNT))?;
    let partition = name_in(alloc, partition_in(parts))?;
    let qos = name_in(alloc, field(parts, QOS))?;
    Ok(TraceNames {
        user,
        account,
        partition,
        qos,
    })
}

// How long it took from a start to an end.
fn between(start: Option<u64>, end: Option<u64>) -> Option<u64>
    ensures { result ≡ between start end }
{
    match (start, end) {
        (Some(start), Some(end)) => Some(end.saturating_sub(start)),
        _ => None,
    }
}

#[tactic(auto, unfolding(crate::specs::Sacct::times_in))]
fn times_in(parts: &[&[u8]]) -> Result<TraceTimes, LineFault>
    ensures { result ≡ times_in (map (λ part. part.now) parts.now) }
{
    let submit = at_field(SUBMIT, moment_in(field(parts, SUBMIT)))?;
    let start = at_field(START, moment_in(field(parts, START)))?;
    let end = at_field(END, moment_in(field(parts, END)))?;
    Ok(TraceTimes {
        submit,
        start,
        end,
        run: between(start, end),
    })
}

#[tactic(auto, unfolding(crate::specs::Sacct::needs_in))]
fn needs_in(parts: &[&[u8]]) -> Result<TraceNeeds, LineFault>
    ensures { result ≡ needs_in (map (λ part. part.now) parts.now) }
{
    let limit = at_field(LIMIT, limit_in(field(parts, LIMIT)))?;
    let nodes = at_field(NODES, count_in(field(parts, NODES)))?;
    let processors = at_field(PROCESSORS, count_in(field(parts, PROCESSORS)))?;
    let memory = at_field(MEMORY, memory_in(field(parts, MEMORY)))?;
    Ok(TraceNeeds {
        limit,
        nodes,
        processors,
        memory,
    })
}

#[tactic(auto, unfolding(crate::specs::Sacct::facts_in))]
fn facts_in(parts: &[&[u8]]) -> Result<Facts, LineFault>
    ensures { result ≡ facts_in (map (λ part. part.now) parts.now) }
{
    let id = at_field(JOB_ID, id_in(field(parts, JOB_ID)))?;
    names_fit(parts)?;
    let times = times_in(parts)?;
    let needs = needs_in(parts)?;
    let outcome = at_field(STATE, outcome_in(field(parts, STATE)))?;
    Ok(Facts {
        id,
        times,
        needs,
        outcome,
    })
}

#[tactic(auto, unfolding(crate::specs::Sacct::sacct_fields))]
fn sacct_fields(
    alloc: Global,
    parts: &[&[u8]],
) -> Result<Result<Option<TraceJob>, LineFault>, Memory>
    ensures { IfOk result (λ said. said ≡ sacct_fields (map (λ part. part.now) parts.now)) }
{
    if parts.len() != 13 {
        return Ok(Err(LineFault::FieldCount));
    }
    if is_no_job(field(parts, JOB_ID)) {
        return Ok(Ok(None));
    }
    match facts_in(parts) {
        Ok(facts) => {
            let names = names_of(alloc, parts)?;
            Ok(Ok(Some(facts.with(names))))
        }
        Err(fault) => Ok(Err(fault)),
    }
}

/// The job that a line tells of, if it tells of one, or the first bad field. Linear in the line.
#[tactic(auto, unfolding(crate::specs::Sacct::sacct_line))]
pub(crate) fn sacct_line(
    alloc: Global,
    line: &[u8],
) -> Result<Result<Option<TraceJob>, LineFault>, Memory>
    ensures { IfOk result (λ said. said ≡ sacct_line line.now) }
{
    if line.is_empty() {
        return Ok(Ok(None));
    }
    let parts = fields_of(alloc, line, b'|')?;
    sacct_fields(alloc, parts.as_slice())
}
