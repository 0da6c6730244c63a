//! The use by hour.

ghost use Rattle.std.specs.Prelude.{◌≡◌, ◌≤◌, ◌<◌, ◌++◌, ◌∷◌, [], List, IfOk, length};
ghost use Rattle.replay_report.specs.Hours.{CountsHours, hour_at, hours_in, used_in};
ghost use Rattle.replay_report.specs.declared.spans.Span.{Span};

use crate::spans::{Reach, Span, used_between};
use small_texts::memory_error::Memory;
use std::alloc::Global;

/// The seconds of an hour.
const HOUR: u64 = 3600;

/// The most hours that are told: ten years (own).
const MOST_HOURS: u64 = 87_600;

// How many hours there are from the first submission to the last end.
fn hours_in(reach: Reach) -> u64
    ensures value { result ≡ hours_in reach }
    ensures few { result ≤ 87_600 }
{
    reach
        .last
        .saturating_sub(reach.first)
        .div_ceil(HOUR)
        .min(MOST_HOURS)
}

// The second at which an hour begins.
fn hour_at(first: u64, hour: usize) -> u64
    ensures { result ≡ hour_at first hour }
{
    first.saturating_add(HOUR.saturating_mul(hour as u64))
}

// The processor-seconds of a job within an hour.
#[tactic(auto, unfolding(crate::specs::Hours::used_in))]
fn used_in(first: u64, hour: usize, span: Span) -> u64
    requires { hour < 87_600 }
    ensures { result ≡ used_in first hour span }
{
    used_between(hour_at(first, hour), hour_at(first, hour + 1), span)
}

// Adds the use of a job to the hours in which it ran.
fn add_span(hours: &mut [u64], first: u64, span: Span)
    requires { length hours.old ≤ 87_600 }
    ensures { (before : List Span) → CountsHours first before hours.old
        → CountsHours first (before ++ span ∷ []) hours.new }
{
    let low = span.start.saturating_sub(first) / HOUR;
    let high = span.end.saturating_sub(first) / HOUR;
    let count = hours.len() as u64;
    for hour in low..high.saturating_add(1).min(count) {
        let place = hour as usize;
        hours[place] = hours[place].saturating_add(used_in(first, place, span));
    }
}

fn add_spans(hours: &mut [u64], first: u64, spans: &[Span])
    requires { length hours.old ≤ 87_600 }
    ensures { CountsHours first [] hours.old → CountsHours first spans.now hours.new }
{
    for span in spans {
        add_span(hours, first, *span);
    }
}

/// The processor-seconds of jobs within each hour from the first submission on, for 87,600 hours at most. Linear in the
/// hours and in those that each job ran in.
pub(crate) fn hours_of(alloc: Global, reach: Reach, spans: &[Span]) -> Result<Vec<u64>, Memory>
    ensures len { IfOk result (λ hours. length hours.items ≡ hours_in reach) }
    ensures counts { IfOk result (λ hours. CountsHours reach.first spans.now hours.items) }
{
    let mut hours = vec![in alloc; 0; hours_in(reach) as usize]?;
    add_spans(&mut hours, reach.first, spans);
    Ok(hours)
}
