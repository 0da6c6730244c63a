//! The times of the jobs that ran.

ghost use Rattle.std.specs.Prelude.{◌≡◌, ◌++◌, IfOk, OnOk, filter_map, option_to_list};
ghost use Rattle.replay_report.specs.Spans.{reach_of, slowdown_of, span_of, used_between, used_of, wait_of};

use crate::outcome::{Fate, JobOutcome};
use small_texts::memory_error::Memory;
use std::alloc::Global;

/// When a job that ran was handed in, started and ended, in seconds, and how many processors it asked for (own).
#[derive(Clone, Copy, Debug, PartialEq, Eq)]
pub struct Span {
    pub submit: u64,
    pub start: u64,
    pub end: u64,
    pub processors: u64,
}

/// The first submission and the last end of the jobs that ran (own).
#[derive(Clone, Copy, Debug, PartialEq, Eq)]
pub struct Reach {
    pub first: u64,
    pub last: u64,
}

/// The times of a job, where it ran.
#[tactic(auto, unfolding(crate::specs::Spans::span_of))]
pub fn span_of(outcome: &JobOutcome) -> Option<Span>
    ensures { result ≡ span_of outcome.now }
{
    match &outcome.fate {
        Fate::Ran(run) => match outcome.times.submit {
            Some(submit) => Some(Span {
                submit,
                start: run.start,
                end: run.end,
                processors: outcome.processors,
            }),
            None => None,
        },
        _ => None,
    }
}

/// For how many seconds a job waited.
pub fn wait_of(span: Span) -> u64
    ensures { result ≡ wait_of span }
{
    span.start.saturating_sub(span.submit)
}

/// The bounded slowdown in hundredths, rounded down: wait and run over the run, which counts as 10 seconds at least; 1 at
/// least.
#[tactic(auto, unfolding(crate::specs::Spans::slowdown_of))]
pub(crate) fn slowdown_of(span: Span) -> u64
    ensures { result ≡ slowdown_of span }
{
    let run = span.end.saturating_sub(span.start);
    let stay = wait_of(span).saturating_add(run).saturating_mul(100);
    (stay / run.max(10)).max(100)
}

/// The processor-seconds of a job.
pub(crate) fn used_of(span: Span) -> u64
    ensures { result ≡ used_of span }
{
    span.processors
        .saturating_mul(span.end.saturating_sub(span.start))
}

/// The processor-seconds of a job from one second to before another.
pub(crate) fn used_between(from: u64, until: u64, span: Span) -> u64
    ensures { result ≡ used_between from until span }
{
    let seconds = span.end.min(until).saturating_sub(span.start.max(from));
    span.processors.saturating_mul(seconds)
}

fn push_span(spans: &mut Vec<Span>, span: Option<Span>) -> Result<(), Memory>
    ensures { OnOk result (spans.new.items ≡ spans.old.items ++ option_to_list span) }
{
    match span {
        Some(span) => spans.push(span)?,
        None => {}
    }
    Ok(())
}

/// The times of those jobs that ran, in their order.
pub(crate) fn spans_in(alloc: Global, outcomes: &[JobOutcome]) -> Result<Vec<Span>, Memory>
    ensures { IfOk result (λ spans. spans.items ≡ filter_map span_of outcomes.now) }
{
    let mut spans = Vec::new(alloc);
    for outcome in outcomes {
        let span = span_of(outcome);
        push_span(&mut spans, span)?;
    }
    Ok(spans)
}

/// From the first submission to the last end, where a job ran.
pub(crate) fn reach_of(spans: &[Span]) -> Option<Reach>
    ensures { result ≡ reach_of spans.now }
{
    match spans {
        [] => None,
        [one, others @ ..] => Some(Reach {
            first: others
                .iter()
                .fold(one.submit, |first, span| first.min(span.submit)),
            last: others.iter().fold(one.end, |last, span| last.max(span.end)),
        }),
    }
}
