//! All sums over the jobs of a trace.

ghost use Rattle.std.specs.Prelude.{IfOk};
ghost use Rattle.replay_report.specs.Spans.{reach_of};
ghost use Rattle.replay_report.specs.Summaries.{AreHours, IsSummary};

use crate::counts::{Counts, counts_of};
use crate::groups::{GroupSums, groups_of};
use crate::hours::hours_of;
use crate::named::GroupKind;
use crate::outcome::JobOutcome;
use crate::spans::{Reach, Span, reach_of, spans_in};
use crate::sums::{Sums, sums_of};
use small_texts::memory_error::Memory;
use std::alloc::Global;

/// What a replay comes to in sums (own).
#[derive(Debug, Drop)]
pub struct Summary {
    pub counts: Counts,
    pub sums: Sums,
    /// From the first submission to the last end, where a job ran.
    pub reach: Option<Reach>,
    /// The processor-seconds within each hour from the first submission on.
    pub hours: Vec<u64>,
    pub accounts: Vec<GroupSums>,
    pub partitions: Vec<GroupSums>,
    pub qos: Vec<GroupSums>,
}

fn hours_within(alloc: Global, reach: Option<Reach>, spans: &[Span]) -> Result<Vec<u64>, Memory>
    ensures { IfOk result (λ hours. AreHours reach spans.now hours.items) }
{
    match reach {
        Some(reach) => hours_of(alloc, reach, spans),
        None => Ok(Vec::new(alloc)),
    }
}

/// The sums over the outcomes of a trace. n log n in them, and a look at each of them for each account, each partition and
/// each quality of service that the trace names.
pub fn summary_of(alloc: Global, outcomes: &[JobOutcome]) -> Result<Summary, Memory>
    ensures { IfOk result (IsSummary outcomes.now) }
{
    let spans = spans_in(alloc, outcomes)?;
    let reach = reach_of(spans.as_slice());
    let sums = sums_of(alloc, outcomes.len(), spans.as_slice())?;
    let hours = hours_within(alloc, reach, spans.as_slice())?;
    let accounts = groups_of(alloc, GroupKind::Account, outcomes)?;
    let partitions = groups_of(alloc, GroupKind::Partition, outcomes)?;
    let qos = groups_of(alloc, GroupKind::Qos, outcomes)?;
    Ok(Summary {
        counts: counts_of(outcomes),
        sums,
        reach,
        hours,
        accounts,
        partitions,
        qos,
    })
}
