//! Sums over jobs.

ghost use Rattle.std.specs.Prelude.{◌≡◌, IfOk, map, sum_by};
ghost use Rattle.replay_report.specs.Numbers.{IsSpreadOf, stopped};
ghost use Rattle.replay_report.specs.Spans.{slowdown_of, used_of, wait_of};
ghost use Rattle.replay_report.specs.Sums.{AreSums};

use crate::spans::{Span, slowdown_of, used_of, wait_of};
use crate::spreads::{Spread, spread_of};
use small_texts::memory_error::Memory;
use std::alloc::Global;

/// Sums over some jobs of a trace (own).
#[derive(Clone, Copy, Debug, PartialEq, Eq)]
pub struct Sums {
    pub jobs: u64,
    /// How many of them ran.
    pub ran: u64,
    /// The waits of those that ran, in seconds.
    pub wait: Option<Spread>,
    /// Their bounded slowdowns, in hundredths.
    pub slowdown: Option<Spread>,
    /// Their processor-seconds.
    pub used: u64,
}

fn wait_spread(alloc: Global, spans: &[Span]) -> Result<Option<Spread>, Memory>
    ensures { IfOk result (λ spread. IsSpreadOf (map wait_of spans.now) spread) }
{
    let waits = spans.iter().map(|span| wait_of(*span)).collect(alloc)?;
    Ok(spread_of(waits))
}

fn slowdown_spread(alloc: Global, spans: &[Span]) -> Result<Option<Spread>, Memory>
    ensures { IfOk result (λ spread. IsSpreadOf (map slowdown_of spans.now) spread) }
{
    let slowdowns = spans.iter().map(|span| slowdown_of(*span)).collect(alloc)?;
    Ok(spread_of(slowdowns))
}

// The processor-seconds of jobs.
fn used_by(spans: &[Span]) -> u64
    ensures { result ≡ stopped (sum_by used_of spans.now) }
{
    let mut used: u64 = 0;
    for span in spans {
        used = used.saturating_add(used_of(*span));
    }
    used
}

/// Sums over so many jobs, of which these ran. n log n in them.
pub(crate) fn sums_of(alloc: Global, jobs: usize, spans: &[Span]) -> Result<Sums, Memory>
    ensures { IfOk result (AreSums jobs spans.now) }
{
    let wait = wait_spread(alloc, spans)?;
    let slowdown = slowdown_spread(alloc, spans)?;
    Ok(Sums {
        jobs: jobs as u64,
        ran: spans.len() as u64,
        wait,
        slowdown,
        used: used_by(spans),
    })
}
