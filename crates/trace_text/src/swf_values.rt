//! What single fields of a Standard Workload Format file say.

ghost use Rattle.std.specs.Prelude.{◌≡◌, ◌≤◌, IfSome};
ghost use Rattle.trace_text.specs.SwfValues.{limit_of_seconds, memory_of, number_in, status_in, status_of};

use crate::job::{Outcome, TraceMemory};
use plain_data::limit::Limit;
use plain_data::ranged::Ranged;
use small_texts::digits::parse_number;

/// The status of a job, or of a part of one that was swapped out or moved.
#[derive(Clone, Copy)]
pub(crate) enum SwfStatus {
    Whole(Option<Outcome>),
    Part,
}

/// A number, or -1 for what isn't known.
#[tactic(auto, unfolding(crate::specs::SwfValues::number_in))]
pub(crate) fn number_in(most: usize, greatest: u64, word: &[u8]) -> Option<Option<u64>>
    ensures value { result ≡ number_in most greatest word.now }
    ensures bound { IfSome result (λ number. IfSome number (λ n. n ≤ greatest)) }
{
    if word == b"-1".as_slice() {
        return Some(None);
    }
    let number = parse_number(word, most, greatest)?;
    Some(Some(number))
}

/// So many seconds as a time limit.
#[tactic(auto, unfolding(crate::specs::SwfValues::limit_of_seconds))]
pub(crate) fn limit_of_seconds(seconds: Option<u64>) -> Option<Limit>
    requires { IfSome seconds (λ s. s ≤ 3_153_600_000) }
    ensures { result ≡ limit_of_seconds seconds }
{
    let seconds = seconds?;
    if seconds > 0 {
        Some(Limit::Minutes(Ranged::new(seconds.div_ceil(60))))
    } else {
        None
    }
}

/// Kilobytes of each processor in megabytes.
#[tactic(auto, unfolding(crate::specs::SwfValues::memory_of))]
pub(crate) fn memory_of(kilobytes: Option<u64>) -> Option<TraceMemory>
    ensures { result ≡ memory_of kilobytes }
{
    let kilobytes = kilobytes?;
    Some(TraceMemory::PerProcessor(kilobytes.div_ceil(1024)))
}

#[tactic(auto, unfolding(crate::specs::SwfValues::status_of))]
fn status_of(number: Option<u64>) -> SwfStatus
    ensures { result ≡ status_of number }
{
    match number {
        None => SwfStatus::Whole(None),
        Some(0) => SwfStatus::Whole(Some(Outcome::Failed)),
        Some(1) => SwfStatus::Whole(Some(Outcome::Completed)),
        Some(5) => SwfStatus::Whole(Some(Outcome::Cancelled)),
        Some(_) => SwfStatus::Part,
    }
}

/// The status of a job.
#[tactic(auto, unfolding(crate::specs::SwfValues::status_in))]
pub(crate) fn status_in(word: &[u8]) -> Option<SwfStatus>
    ensures { result ≡ status_in word.now }
{
    let number = number_in(1, 5, word)?;
    Some(status_of(number))
}
