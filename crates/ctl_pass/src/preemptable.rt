//! Which of the running jobs might go for one that waits.

ghost use Rattle.std.specs.Prelude.{◌≡◌, ◌≤◌, All, IfOk, map, filter, slice_get, unwrap_or};
ghost use Rattle.std.specs.Ordering.{is_lt};
ghost use Rattle.job_table.specs.declared.record.JobRecord.{JobRecord};
ghost use Rattle.ctl_state.specs.State.{state_of, last_moment};
ghost use Rattle.ctl_waiting.specs.Measured.{IsMeasured};
ghost use Rattle.ctl_waiting.specs.Rank;
ghost use Rattle.ctl_waiting.specs.declared.rank_keys.RankKey.{RankKey};
ghost use Rattle.ctl_pass.specs.Limits;
ghost use Rattle.ctl_pass.specs.Preempting;

use crate::limits::is_over;
use crate::naming::names;
use ctl_state::cluster::Cluster;
use ctl_state::laws::a_stable_sort_makes_the_order;
use ctl_waiting::{Factors, RankKey, is_above, key_of};
use job_table::record::JobRecord;
use request_data::state::JobState;
use run_limits::record::QosRecord;
use small_texts::memory_error::Memory;
use std::alloc::Global;
use std::cmp::Ordering;

/// A job that might go, and what it is ranked by.
#[derive(Drop)]
pub(crate) struct Preemptable<'a> {
    pub(crate) job: &'a JobRecord,
    key: RankKey,
}

/// Whether the job ran before the pass, and no limit ends it.
pub(crate) fn runs_on(now: u64, job: &JobRecord) -> bool
    ensures { result ≡ Preempting.runs_on now job.now }
{
    matches!(job.state, JobState::Running) && !is_over(now, job)
}

// Whether the quality of service at a place names that at another one.
#[tactic(auto, unfolding(crate::specs::Preempting::preempts))]
fn preempts(qos: &[QosRecord], one: u32, other: u32) -> bool
    ensures { result ≡ Preempting.preempts qos.now one other }
{
    let Some(high) = qos.get(one as usize) else {
        return false;
    };
    let Some(low) = qos.get(other as usize) else {
        return false;
    };
    one != other && names(high, low)
}

// Whether one job is lower in rank than another.
#[tactic(auto, unfolding(crate::specs::Preempting::is_lower, ctl_waiting::specs::Rank::is_higher))]
fn is_lower(cluster: &Cluster, factors: &Factors, one: &JobRecord, other: &JobRecord) -> bool
    requires { IsMeasured (state_of cluster.now) factors.now }
    ensures { result ≡ Preempting.is_lower (state_of cluster.now) factors.now.moment one.now other.now }
{
    let low = key_of(factors, cluster, one);
    let high = key_of(factors, cluster, other);
    is_above(high, low) || !is_above(low, high) && other.id < one.id
}

/// Whether the job might go for this one. In constant time, beside the names of the qualities of service that this one's
/// has.
pub(crate) fn is_preemptable(
    cluster: &Cluster,
    factors: &Factors,
    high: &JobRecord,
    job: &JobRecord,
) -> bool
    requires { IsMeasured (state_of cluster.now) factors.now }
    ensures { result ≡ Preempting.is_preemptable (state_of cluster.now) factors.now.moment high.now job.now }
{
    runs_on(factors.moment, job)
        && job.terms().requeue
        && preempts(cluster.assocs.qos(), high.qos, job.qos)
        && is_lower(cluster, factors, job, high)
}

// The jobs that might go for this one in the order of their numbers, each with what it is ranked by.
fn all_preemptable<'a>(
    alloc: Global,
    cluster: &'a Cluster,
    factors: &Factors,
    high: &JobRecord,
) -> Result<Vec<Preemptable<'a>>, Memory>
    requires { IsMeasured (state_of cluster.now) factors.now }
    ensures { IfOk result (λ some. map {B = JobRecord × RankKey} (λ one. (one.job.now, one.key)) some.items
        ≡ map (λ (job : JobRecord). (job, Rank.key_of (state_of cluster.now) factors.now.moment job))
        (filter (Preempting.is_preemptable (state_of cluster.now) factors.now.moment high.now)
        cluster.now.jobs.records)) }
{
    let mut some = Vec::new(alloc);
    for job in cluster.jobs.records() {
        if is_preemptable(cluster, factors, high, job) {
            let key = key_of(factors, cluster, job);
            some.push(Preemptable { job, key })?;
        }
    }
    Ok(some)
}

// How two of them are ordered: the one that is higher in rank comes first.
fn compare(one: RankKey, other: RankKey) -> Ordering
    ensures { is_lt result ≡ Rank.is_above one other }
{
    if is_above(one, other) {
        Ordering::Less
    } else if is_above(other, one) {
        Ordering::Greater
    } else {
        Ordering::Equal
    }
}

/// The jobs that might go for this one, the lowest in rank first: a walk over the jobs, and a stable sort of those that
/// might.
#[tactic(auto, unfolding(crate::specs::Preempting::preemptable))]
pub(crate) fn lowest_first<'a>(
    alloc: Global,
    cluster: &'a Cluster,
    factors: &Factors,
    high: &JobRecord,
) -> Result<Vec<Preemptable<'a>>, Memory>
    requires { IsMeasured (state_of cluster.now) factors.now }
    ensures { IfOk result (λ some. map (λ one. one.job.now) some.items
        ≡ Preempting.preemptable (state_of cluster.now) factors.now.moment high.now) }
{
    let mut some = all_preemptable(alloc, cluster, factors, high)?;
    a_stable_sort_makes_the_order::<Preemptable>();
    some.sort_by(|one, other| compare(one.key, other.key))?;
    some.reverse();
    Ok(some)
}
