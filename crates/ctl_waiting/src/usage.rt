//! What associations have used.

ghost use Rattle.std.specs.Prelude.{◌≡◌, ◌≤◌, ◌<◌, ◌+◌, ◌-◌, ◌^◌, ℕ, min, map, nat_eq, if◌then◌else◌, IfOk, All, slice_index, vec_len};
ghost use Rattle.ctl_state.specs.State.{state_of};
ghost use Rattle.ctl_waiting.specs.Usage as spec;

use ctl_state::cluster::Cluster;
use job_table::jobs::Jobs;
use job_table::record::JobRecord;
use job_table::usage::{GREATEST_USAGE, used_by};
use request_data::state::JobState;
use small_texts::memory_error::Memory;
use std::alloc::Global;

// What the job has used since its start, while it runs. The number stands still at its type's end.
#[tactic(auto, unfolding(crate::specs::Usage::used_running))]
fn used_running(now: u64, job: &JobRecord) -> u64
    ensures { result ≡ min (spec.used_running now job.now) (2 ^ 64 - 1) }
{
    match job.state {
        JobState::Running => used_by(now, job),
        _ => 0,
    }
}

// These totals, each up to the greatest usage.
fn capped(alloc: Global, totals: &[u64]) -> Result<Vec<u64>, Memory>
    ensures { IfOk result (λ usage. usage.items ≡ map (λ total. min total GREATEST_USAGE) totals.now) }
{
    Ok(
        totals
            .iter()
            .map(|total| (*total).min(GREATEST_USAGE))
            .collect(alloc)?,
    )
}

// So much more at a place, up to the greatest usage.
fn grow(usage: &mut Vec<u64>, place: u32, more: u64)
    requires small { (at : ℕ) → slice_index usage.old.items at ≤ GREATEST_USAGE }
    ensures len { vec_len usage.new ≡ vec_len usage.old }
    ensures each { (at : ℕ) → at < vec_len usage.old → slice_index usage.new.items at
        ≡ min (slice_index usage.old.items at + (if nat_eq place at then more else 0)) GREATEST_USAGE }
{
    if let Some(used) = usage.get_mut(place as usize) {
        *used = used.saturating_add(more).min(GREATEST_USAGE);
    }
}

// Adds to each what those of the jobs have used that run and are its own. One look for each 64 jobs of which none holds
// anything.
fn add_running(usage: &mut Vec<u64>, jobs: &Jobs, now: u64)
    requires small { (at : ℕ) → slice_index usage.old.items at ≤ GREATEST_USAGE }
    ensures len { vec_len usage.new ≡ vec_len usage.old }
    ensures each { (at : ℕ) → at < vec_len usage.old → slice_index usage.new.items at
        ≡ min (slice_index usage.old.items at + spec.running_usage now jobs.now.records at) GREATEST_USAGE }
{
    let records = jobs.records();
    let mut from = 0;
    while let Some(place) = jobs.next_holding(from) {
        let job = &records[place];
        grow(usage, job.assoc, used_running(now, job));
        from = place + 1;
    }
}

/// What each association has used at a moment, in seconds of one processor and in their order. Linear in associations,
/// the jobs that hold something and their parts; one look for each 64 jobs of which none does.
pub(crate) fn usage_of(alloc: Global, cluster: &Cluster, now: u64) -> Result<Vec<u64>, Memory>
    ensures { IfOk result (λ usage. (place : ℕ)
        → slice_index usage.items place ≡ spec.usage_at (state_of cluster.now) now place) }
{
    let mut usage = capped(alloc, cluster.jobs.usage())?;
    add_running(&mut usage, &cluster.jobs, now);
    Ok(usage)
}
