//! A line of a Standard Workload Format file: eighteen fields with blanks or tabs between them, or a remark behind `;`.
//! Fields that the reader doesn't use may hold anything.

ghost use Rattle.std.specs.Prelude.{◌≡◌, ◌≤◌, IfOk, IfSome, map};
ghost use Rattle.trace_text.specs.Swf.{count_in, facts_of, is_remark, job_by, names_of_numbers, seconds_in, sum_of, swf_facts, swf_line, swf_names, swf_needs, swf_times, swf_words, times_of};

use crate::fault::LineFault;
use crate::fields::{at_field, field, words_of};
use crate::job::{Facts, Outcome, TraceId, TraceJob, TraceNames, TraceNeeds, TraceTimes};
use crate::names::numbered;
use crate::swf_values::{SwfStatus, limit_of_seconds, memory_of, number_in, status_in};
use small_texts::digits::parse_number;
use small_texts::memory_error::Memory;
use std::alloc::Global;

const JOB_NUMBER: usize = 1;

const SUBMIT_TIME: usize = 2;

const WAIT_TIME: usize = 3;

const RUN_TIME: usize = 4;

const ALLOCATED: usize = 5;

const REQUESTED: usize = 8;

const REQUESTED_TIME: usize = 9;

const REQUESTED_MEMORY: usize = 10;

const STATUS: usize = 11;

const USER_ID: usize = 12;

const GROUP_ID: usize = 13;

const QUEUE: usize = 15;

const PARTITION_NUMBER: usize = 16;

/// Who and where, in numbers.
#[derive(Clone, Copy)]
struct NumberedNames {
    user: Option<u64>,
    group: Option<u64>,
    queue: Option<u64>,
    partition: Option<u64>,
}

/// What a line says.
#[derive(Clone, Copy)]
struct SwfFacts {
    number: u64,
    times: TraceTimes,
    needs: TraceNeeds,
    status: SwfStatus,
    names: NumberedNames,
}

fn seconds_in(word: &[u8]) -> Option<Option<u64>>
    ensures value { result ≡ seconds_in word.now }
    ensures bound { IfSome result (λ known. IfSome known (λ n. n ≤ 250_000_000_000)) }
{
    number_in(12, 250_000_000_000, word)
}

fn count_in(word: &[u8]) -> Option<Option<u64>>
    ensures { result ≡ count_in word.now }
{
    number_in(9, 999_999_999, word)
}

// The sum of two numbers that are known.
fn sum_of(a: Option<u64>, b: Option<u64>) -> Option<u64>
    requires left { IfSome a (λ n. n ≤ 500_000_000_000) }
    requires right { IfSome b (λ n. n ≤ 250_000_000_000) }
    ensures { result ≡ sum_of a b }
{
    match (a, b) {
        (Some(a), Some(b)) => Some(a + b),
        _ => None,
    }
}

// When a job was handed in, started and ended.
fn times_of(submit: Option<u64>, wait: Option<u64>, run: Option<u64>) -> TraceTimes
    requires submitted { IfSome submit (λ n. n ≤ 250_000_000_000) }
    requires waited { IfSome wait (λ n. n ≤ 250_000_000_000) }
    requires ran { IfSome run (λ n. n ≤ 250_000_000_000) }
    ensures { result ≡ times_of submit wait run }
{
    let start = sum_of(submit, wait);
    TraceTimes {
        submit,
        start,
        end: sum_of(start, run),
        run,
    }
}

#[tactic(auto, unfolding(crate::specs::Swf::swf_times))]
fn swf_times(parts: &[&[u8]]) -> Result<TraceTimes, LineFault>
    ensures { result ≡ swf_times (map (λ part. part.now) parts.now) }
{
    let submit = at_field(SUBMIT_TIME, seconds_in(field(parts, SUBMIT_TIME)))?;
    let wait = at_field(WAIT_TIME, seconds_in(field(parts, WAIT_TIME)))?;
    let run = at_field(RUN_TIME, seconds_in(field(parts, RUN_TIME)))?;
    Ok(times_of(submit, wait, run))
}

#[tactic(auto, unfolding(crate::specs::Swf::swf_needs))]
fn swf_needs(parts: &[&[u8]]) -> Result<TraceNeeds, LineFault>
    ensures { result ≡ swf_needs (map (λ part. part.now) parts.now) }
{
    let allocated = at_field(ALLOCATED, count_in(field(parts, ALLOCATED)))?;
    let requested = at_field(REQUESTED, count_in(field(parts, REQUESTED)))?;
    let seconds = at_field(
        REQUESTED_TIME,
        number_in(10, 3_153_600_000, field(parts, REQUESTED_TIME)),
    )?;
    let kilobytes = at_field(
        REQUESTED_MEMORY,
        number_in(12, 999_999_999_999, field(parts, REQUESTED_MEMORY)),
    )?;
    Ok(TraceNeeds {
        limit: limit_of_seconds(seconds),
        nodes: None,
        processors: requested.or(allocated),
        memory: memory_of(kilobytes),
    })
}

#[tactic(auto, unfolding(crate::specs::Swf::swf_names))]
fn swf_names(parts: &[&[u8]]) -> Result<NumberedNames, LineFault>
    ensures { result ≡ swf_names (map (λ part. part.now) parts.now) }
{
    let user = at_field(USER_ID, count_in(field(parts, USER_ID)))?;
    let group = at_field(GROUP_ID, count_in(field(parts, GROUP_ID)))?;
    let queue = at_field(QUEUE, count_in(field(parts, QUEUE)))?;
    let partition = at_field(PARTITION_NUMBER, count_in(field(parts, PARTITION_NUMBER)))?;
    Ok(NumberedNames {
        user,
        group,
        queue,
        partition,
    })
}

#[tactic(auto, unfolding(crate::specs::Swf::swf_facts))]
fn swf_facts(parts: &[&[u8]]) -> Result<SwfFacts, LineFault>
    ensures { result ≡ swf_facts (map (λ part. part.now) parts.now) }
{
    let number = at_field(
        JOB_NUMBER,
        parse_number(field(parts, JOB_NUMBER), 10, 4_294_967_295),
    )?;
    let times = swf_times(parts)?;
    let needs = swf_needs(parts)?;
    let status = at_field(STATUS, status_in(field(parts, STATUS)))?;
    let names = swf_names(parts)?;
    Ok(SwfFacts {
        number,
        times,
        needs,
        status,
        names,
    })
}

fn names_of_numbers(alloc: Global, numbers: NumberedNames) -> Result<TraceNames, Memory>
    ensures { IfOk result (λ names. names ≡ names_of_numbers numbers) }
{
    let user = numbered(alloc, b"user", numbers.user)?;
    let account = numbered(alloc, b"group", numbers.group)?;
    let partition = numbered(alloc, b"partition", numbers.partition)?;
    let qos = numbered(alloc, b"queue", numbers.queue)?;
    Ok(TraceNames {
        user,
        account,
        partition,
        qos,
    })
}

fn facts_of(said: SwfFacts, outcome: Option<Outcome>) -> Facts
    ensures { result ≡ facts_of said outcome }
{
    Facts {
        id: TraceId::Job(said.number),
        times: said.times,
        needs: said.needs,
        outcome,
    }
}

// The job that a line tells of whose fields are good.
fn job_of(alloc: Global, said: SwfFacts) -> Result<Option<TraceJob>, Memory>
    ensures { IfOk result (λ job. job ≡ job_by said.status said) }
{
    match said.status {
        SwfStatus::Part => Ok(None),
        SwfStatus::Whole(outcome) => {
            let names = names_of_numbers(alloc, said.names)?;
            Ok(Some(facts_of(said, outcome).with(names)))
        }
    }
}

fn is_remark(word: &[u8]) -> bool
    ensures { result ≡ is_remark word.now }
{
    matches!(word, [] | [b';', ..])
}

#[tactic(auto, unfolding(crate::specs::Swf::swf_words))]
fn swf_words(alloc: Global, parts: &[&[u8]]) -> Result<Result<Option<TraceJob>, LineFault>, Memory>
    ensures { IfOk result (λ said. said ≡ swf_words (map (λ part. part.now) parts.now)) }
{
    if is_remark(field(parts, JOB_NUMBER)) {
        return Ok(Ok(None));
    }
    if parts.len() != 18 {
        return Ok(Err(LineFault::FieldCount));
    }
    match swf_facts(parts) {
        Ok(said) => {
            let job = job_of(alloc, said)?;
            Ok(Ok(job))
        }
        Err(fault) => Ok(Err(fault)),
    }
}

/// The job that a line tells of, if it tells of one, or the first bad field. Linear in the line.
#[tactic(auto, unfolding(crate::specs::Swf::swf_line))]
pub(crate) fn swf_line(
    alloc: Global,
    line: &[u8],
) -> Result<Result<Option<TraceJob>, LineFault>, Memory>
    ensures { IfOk result (λ said. said ≡ swf_line line.now) }
{
    let parts = words_of(alloc, line)?;
    swf_words(alloc, parts.as_slice())
}
