//! What jobs use of the machine.

ghost use Rattle.std.specs.Prelude.{◌≡◌, ◌^◌, ◌-◌, min, if◌then◌else◌, nat_eq, sum_by, length, Some};
ghost use Rattle.job_table.specs.JobStates;
ghost use Rattle.job_table.specs.Usage as spec;
ghost use Rattle.job_table.specs.Walks.{map_at};

use crate::change::Change;
use crate::record::{JobRecord, Part};
use request_data::state::JobState;

/// The greatest usage, in seconds of one processor, that is told apart from more (own).
pub const GREATEST_USAGE: u64 = 4_294_967_295;

/// How many processors the parts have. The count stands still at its type's end. Linear in the parts.
pub fn cpus_in(parts: &[Part]) -> u64
    ensures { result ≡ min (sum_by (λ part. length part.cpus) parts.now) (2 ^ 64 - 1) }
{
    let mut count = 0_u64;
    for part in parts {
        count = count.saturating_add(part.cpus.len() as u64);
    }
    count
}

/// What the job has used from its start to a moment, in seconds of one processor. The number stands still at its type's
/// end. Linear in the job's parts.
pub fn used_by(now: u64, job: &JobRecord) -> u64
    ensures { result ≡ min (spec.used_by now job.now) (2 ^ 64 - 1) }
{
    cpus_in(job.parts.as_slice()).saturating_mul(now.saturating_sub(job.started.unwrap_or(0)))
}

// So much more at a place.
fn grow(totals: &mut Vec<u64>, place: u32, more: u64)
    ensures { totals.new.items ≡ map_at place (λ total. spec.grown total more) totals.old.items }
{
    if more == 0 {
        return;
    }
    if let Some(total) = totals.get_mut(place as usize) {
        *total = total.saturating_add(more).min(GREATEST_USAGE);
    }
}

// What the job has used, where the change takes it out of Running. The number stands still at its type's end.
#[tactic(auto, unfolding(crate::specs::Usage::used_by_change))]
fn used_by_change(change: &Change, job: &JobRecord) -> u64
    ensures { result ≡ min (spec.used_by_change change.now job.now) (2 ^ 64 - 1) }
{
    match change {
        Change::Leave { moment, .. } if is_running(job) => used_by(*moment, job),
        _ => 0,
    }
}

fn is_running(job: &JobRecord) -> bool
    ensures { result ≡ JobStates.is_running job.now.state }
{
    matches!(job.state, JobState::Running)
}

/// Charges the job's association with what it has used, where the change takes it out of Running. Linear in the job's
/// parts.
#[tactic(auto, unfolding(crate::specs::Usage::charged_by))]
pub(crate) fn charge(totals: &mut Vec<u64>, job: &JobRecord, change: &Change)
    ensures { totals.new.items ≡ spec.charged_by change.now (Some job.now) totals.old.items }
{
    grow(totals, job.assoc, used_by_change(change, job));
}
