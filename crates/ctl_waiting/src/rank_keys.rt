//! What a job is ranked by.

ghost use Rattle.std.specs.Prelude.{◌≡◌};
ghost use Rattle.ctl_state.specs.State.{state_of};
ghost use Rattle.ctl_waiting.specs.Rank as spec;
ghost use Rattle.ctl_waiting.specs.Measured.{IsMeasured};

use crate::factors::Factors;
use crate::priority::priority_of;
use ctl_state::cluster::Cluster;
use job_table::record::JobRecord;

/// What a job is ranked by: first the `PriorityTier` of its partition, then its priority; of those alike the lower
/// number comes first (own).
#[derive(Clone, Copy, PartialEq, Eq, Debug)]
pub struct RankKey {
    pub tier: u64,
    pub priority: u32,
}

// The tier of the job's partition.
fn tier_of(cluster: &Cluster, job: &JobRecord) -> u64
    ensures { result ≡ spec.tier_of (state_of cluster.now) job.now }
{
    match cluster.partitions.at(job.partition) {
        Some(partition) => partition.conf.tier.get(),
        None => 0,
    }
}

/// What the job is ranked by. In constant time.
pub fn key_of(factors: &Factors, cluster: &Cluster, job: &JobRecord) -> RankKey
    requires measured { IsMeasured (state_of cluster.now) factors.now }
    ensures { result ≡ spec.key_of (state_of cluster.now) factors.now.moment job.now }
{
    RankKey {
        tier: tier_of(cluster, job),
        priority: priority_of(factors, cluster, job).sum,
    }
}

/// Whether one job is higher in rank than another, by what they are ranked by.
#[tactic(auto, unfolding(crate::specs::Rank::is_above))]
pub fn is_above(one: RankKey, other: RankKey) -> bool
    ensures { result ≡ spec.is_above one other }
{
    one.tier > other.tier || one.tier == other.tier && one.priority > other.priority
}
