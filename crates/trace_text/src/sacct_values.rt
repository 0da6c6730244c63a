//! What single fields of sacct's lines say: "Job Accounting Fields" of sacct(1).

ghost use Rattle.std.specs.Prelude.{◌≡◌, ◌==◌, ◌≤◌, ◌<◌, ◌^◌, IfSome};
ghost use Rattle.std.specs.List.{list_any};
ghost use Rattle.std.specs.Str.{byte};
ghost use Rattle.trace_text.specs.SacctValues.{behind_whole, but_last, civil_in, count_in, front_of, hundredths_in, id_behind, id_in, in_unit, is_failed, is_no_job, is_partitions, is_unfinished, is_untold, known_memory, known_moment, limit_in, megabytes_in, memory_in, moment_in, outcome_in, outcome_named, task_of};

use crate::job::{Outcome, TraceId, TraceMemory};
use plain_data::limit::Limit;
use plain_data::parse_limit;
use small_texts::digits::{parse_number, split_digits};
use small_texts::fields::first_field;
use small_texts::moment::parse_moment;

/// The greatest number of a job.
const GREATEST_ID: u64 = 4_294_967_295;

/// The last moment, in seconds since 1970.
const LAST: u64 = 250_000_000_000;

/// What stands before the first such byte, or all of the text.
pub(crate) fn front_of(text: &[u8], mark: u8) -> &[u8]
    ensures { result.now ≡ front_of mark text.now }
{
    let (front, _rest) = first_field(text, mark);
    front
}

/// Whether a line is of a step of a job, or the head of the columns.
#[tactic(auto, unfolding(crate::specs::SacctValues::is_no_job))]
pub(crate) fn is_no_job(id: &[u8]) -> bool
    ensures { result ≡ is_no_job id.now }
{
    has_point(id) || id == b"JobID".as_slice()
}

fn has_point(id: &[u8]) -> bool
    ensures { result ≡ list_any (λ b. b == byte ".") id.now }
{
    id.iter().any(|b| *b == b'.')
}

#[tactic(auto, unfolding(crate::specs::SacctValues::task_of))]
fn task_of(array: u64, text: &[u8]) -> Option<TraceId>
    ensures { result ≡ task_of array text.now }
{
    if text.starts_with(b"[") && text.ends_with(b"]") {
        return Some(TraceId::WaitingTasks { array });
    }
    let task = parse_number(text, 10, GREATEST_ID)?;
    Some(TraceId::Task { array, task })
}

// What stands behind the number of a job.
#[tactic(auto, unfolding(crate::specs::SacctValues::id_behind))]
fn id_behind(job: u64, text: &[u8]) -> Option<TraceId>
    ensures { result ≡ id_behind job text.now }
{
    match text {
        [] => Some(TraceId::Job(job)),
        [b'_', rest @ ..] => task_of(job, rest),
        [b'+', rest @ ..] => {
            let place = parse_number(rest, 10, GREATEST_ID)?;
            Some(TraceId::Component { job, place })
        }
        _ => None,
    }
}

/// "JobID".
#[tactic(auto, unfolding(crate::specs::SacctValues::id_in))]
pub(crate) fn id_in(text: &[u8]) -> Option<TraceId>
    ensures { result ≡ id_in text.now }
{
    let (digits, rest) = split_digits(text);
    let job = parse_number(digits, 10, GREATEST_ID)?;
    id_behind(job, rest)
}

// The moment of a date and a time of day.
#[tactic(auto, unfolding(crate::specs::SacctValues::civil_in))]
fn civil_in(text: &[u8]) -> Option<u64>
    ensures value { result ≡ civil_in text.now }
    ensures bound { IfSome result (λ moment. moment ≤ 250_000_000_000) }
{
    let [first, ..] = text else {
        return None;
    };
    if !first.is_ascii_digit() {
        return None;
    }
    match parse_moment(text, 0) {
        Ok(moment) => Some(moment),
        Err(_) => None,
    }
}

#[tactic(auto, unfolding(crate::specs::SacctValues::known_moment))]
fn known_moment(text: &[u8]) -> Option<u64>
    ensures value { result ≡ known_moment text.now }
    ensures bound { IfSome result (λ moment. moment ≤ 250_000_000_000) }
{
    match parse_number(text, 12, LAST) {
        Some(seconds) => Some(seconds),
        None => civil_in(text),
    }
}

fn is_untold(text: &[u8]) -> bool
    ensures { result ≡ is_untold text.now }
{
    text.is_empty() || text == b"Unknown".as_slice() || text == b"None".as_slice()
}

/// "Submit", "Start" and "End": a date and a time of day, or seconds since 1970, as `SLURM_TIME_FORMAT` has it.
#[tactic(auto, unfolding(crate::specs::SacctValues::moment_in))]
pub(crate) fn moment_in(text: &[u8]) -> Option<Option<u64>>
    ensures { result ≡ moment_in text.now }
{
    if is_untold(text) {
        return Some(None);
    }
    let moment = known_moment(text)?;
    Some(Some(moment))
}

fn is_partitions(text: &[u8]) -> bool
    ensures { result ≡ is_partitions text.now }
{
    text.is_empty() || text == b"Partition_Limit".as_slice()
}

/// "Timelimit".
#[tactic(auto, unfolding(crate::specs::SacctValues::limit_in))]
pub(crate) fn limit_in(text: &[u8]) -> Option<Option<Limit>>
    ensures { result ≡ limit_in text.now }
{
    if is_partitions(text) {
        return Some(None);
    }
    match parse_limit(text) {
        Ok(limit) => Some(Some(limit)),
        Err(_) => None,
    }
}

/// "ReqNodes" and "ReqCPUS".
#[tactic(auto, unfolding(crate::specs::SacctValues::count_in))]
pub(crate) fn count_in(text: &[u8]) -> Option<Option<u64>>
    ensures { result ≡ count_in text.now }
{
    if text.is_empty() {
        return Some(None);
    }
    let count = parse_number(text, 9, 999_999_999)?;
    Some(Some(count))
}

// So many hundredths of a unit in megabytes.
#[tactic(auto, unfolding(crate::specs::SacctValues::in_unit))]
fn in_unit(hundredths: u64, unit: &[u8]) -> Option<u64>
    requires { hundredths < 2 ^ 40 }
    ensures { result ≡ in_unit hundredths unit.now }
{
    match unit {
        [] | [b'M' | b'm'] => Some(hundredths.div_ceil(100)),
        [b'K' | b'k'] => Some(hundredths.div_ceil(102_400)),
        [b'G' | b'g'] => Some((hundredths * 1024).div_ceil(100)),
        [b'T' | b't'] => Some((hundredths * 1_048_576).div_ceil(100)),
        _ => None,
    }
}

#[tactic(auto, unfolding(crate::specs::SacctValues::hundredths_in))]
fn hundredths_in(digits: &[u8]) -> Option<u64>
    ensures value { result ≡ hundredths_in digits.now }
    ensures bound { IfSome result (λ part. part ≤ 990) }
{
    let number = parse_number(digits, 2, 99)?;
    Some(if digits.len() == 1 {
        10 * number
    } else {
        number
    })
}

// What follows the whole number of units.
#[tactic(auto, unfolding(crate::specs::SacctValues::behind_whole))]
fn behind_whole(whole: u64, text: &[u8]) -> Option<u64>
    requires { whole ≤ 999_999_999 }
    ensures { result ≡ behind_whole whole text.now }
{
    match text {
        [b'.', rest @ ..] => {
            let (digits, unit) = split_digits(rest);
            let part = hundredths_in(digits)?;
            in_unit(100 * whole + part, unit)
        }
        _ => in_unit(100 * whole, text),
    }
}

#[tactic(auto, unfolding(crate::specs::SacctValues::megabytes_in))]
fn megabytes_in(text: &[u8]) -> Option<u64>
    ensures { result ≡ megabytes_in text.now }
{
    let (digits, rest) = split_digits(text);
    let whole = parse_number(digits, 9, 999_999_999)?;
    behind_whole(whole, rest)
}

fn but_last(text: &[u8]) -> &[u8]
    ensures { result.now ≡ but_last text.now }
{
    &text[..text.len().saturating_sub(1)]
}

#[tactic(auto, unfolding(crate::specs::SacctValues::known_memory))]
fn known_memory(text: &[u8]) -> Option<TraceMemory>
    ensures { result ≡ known_memory text.now }
{
    if text.ends_with(b"c") {
        let amount = megabytes_in(but_last(text))?;
        Some(TraceMemory::PerProcessor(amount))
    } else if text.ends_with(b"n") {
        let amount = megabytes_in(but_last(text))?;
        Some(TraceMemory::PerNode(amount))
    } else {
        let amount = megabytes_in(text)?;
        Some(TraceMemory::InAll(amount))
    }
}

/// "ReqMem": a number with at most two digits behind a point, a unit, and maybe whose the memory is.
#[tactic(auto, unfolding(crate::specs::SacctValues::memory_in))]
pub(crate) fn memory_in(text: &[u8]) -> Option<Option<TraceMemory>>
    ensures { result ≡ memory_in text.now }
{
    if text.is_empty() {
        return Some(None);
    }
    let memory = known_memory(text)?;
    Some(Some(memory))
}

#[tactic(auto, unfolding(crate::specs::SacctValues::is_failed))]
fn is_failed(word: &[u8]) -> bool
    ensures { result ≡ is_failed word.now }
{
    word == b"FAILED".as_slice()
        || word == b"OUT_OF_MEMORY".as_slice()
        || word == b"NODE_FAIL".as_slice()
        || word == b"BOOT_FAIL".as_slice()
        || word == b"LAUNCH_FAILED".as_slice()
        || word == b"PREEMPTED".as_slice()
        || word == b"DEADLINE".as_slice()
        || word == b"REVOKED".as_slice()
}

#[tactic(auto, unfolding(crate::specs::SacctValues::is_unfinished))]
fn is_unfinished(word: &[u8]) -> bool
    ensures { result ≡ is_unfinished word.now }
{
    word == b"PENDING".as_slice()
        || word == b"RUNNING".as_slice()
        || word == b"SUSPENDED".as_slice()
        || word == b"REQUEUED".as_slice()
        || word == b"RESIZING".as_slice()
        || word == b"COMPLETING".as_slice()
        || word == b"CONFIGURING".as_slice()
}

#[tactic(auto, unfolding(crate::specs::SacctValues::outcome_named))]
fn outcome_named(word: &[u8]) -> Option<Outcome>
    ensures { result ≡ outcome_named word.now }
{
    if word == b"COMPLETED".as_slice() {
        Some(Outcome::Completed)
    } else if word == b"CANCELLED".as_slice() {
        Some(Outcome::Cancelled)
    } else if word == b"TIMEOUT".as_slice() {
        Some(Outcome::TimedOut)
    } else if is_failed(word) {
        Some(Outcome::Failed)
    } else if is_unfinished(word) {
        Some(Outcome::Unfinished)
    } else {
        None
    }
}

/// "State": a word, behind which may stand who cancelled the job.
#[tactic(auto, unfolding(crate::specs::SacctValues::outcome_in))]
pub(crate) fn outcome_in(text: &[u8]) -> Option<Option<Outcome>>
    ensures { result ≡ outcome_in text.now }
{
    if text.is_empty() {
        return Some(None);
    }
    let outcome = outcome_named(front_of(text, b' '))?;
    Some(Some(outcome))
}
