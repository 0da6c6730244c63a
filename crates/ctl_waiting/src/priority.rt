//! The priority of a job.

ghost use Rattle.std.specs.Prelude.{◌≡◌, ◌≤◌, option_map, slice_get, unwrap_or};
ghost use Rattle.plain_data.specs.Ratios.{share_of};
ghost use Rattle.run_limits.specs.declared.record.QosRecord.{QosRecord};
ghost use Rattle.run_limits.specs.Priority.{value_of};
ghost use Rattle.ctl_state.specs.State.{state_of};
ghost use Rattle.ctl_waiting.specs.FairShare.{rank_at};
ghost use Rattle.ctl_waiting.specs.Priority as spec;
ghost use Rattle.ctl_waiting.specs.Measured.{IsMeasured};

use crate::factors::Factors;
use crate::ranks::rank_at_place;
use ctl_state::cluster::Cluster;
use job_table::record::JobRecord;
use reply_data::priority::PriorityParts;
use run_limits::record::QosRecord;
use run_limits::{PriorityInput, Term, priority};

// The term of this weight. One that adds nothing has no denominator, since what it adds then takes no division.
fn term(weight: u32, num: u64, den: u64) -> Term
    requires { num ≤ den }
    ensures { value_of result ≡ share_of weight num den }
{
    if weight == 0 || num == 0 {
        return Term {
            weight: 0,
            num: 0,
            den: 0,
        };
    }
    Term { weight, num, den }
}

// How long the job has waited at a moment, as far as that counts.
fn age_term(cluster: &Cluster, moment: u64, job: &JobRecord) -> Term
    ensures { value_of result ≡ spec.age_term (state_of cluster.now) moment job.now }
{
    let whole = cluster.settings.max_age.get() * 60;
    let waited = moment.saturating_sub(job.eligible).min(whole);
    term(cluster.settings.weight_age, waited, whole)
}

// The rank of the user of the association at a place.
fn rank_of(factors: &Factors, cluster: &Cluster, place: u32) -> u32
    requires measured { IsMeasured (state_of cluster.now) factors.now }
    ensures value { result ≡ rank_at (state_of cluster.now) factors.now.moment place }
    ensures low { result ≤ factors.now.users }
{
    rank_at_place(factors.ranks.as_slice(), place as usize)
}

fn fair_share_term(factors: &Factors, cluster: &Cluster, job: &JobRecord) -> Term
    requires measured { IsMeasured (state_of cluster.now) factors.now }
    ensures { value_of result ≡ spec.fair_share_term (state_of cluster.now) factors.now.moment job.now }
{
    let rank = u64::from(rank_of(factors, cluster, job.assoc));
    term(cluster.settings.weight_fairshare, rank, factors.users)
}

// The processors that the job is counted with, as far as there are so many.
fn job_size_term(factors: &Factors, cluster: &Cluster, job: &JobRecord) -> Term
    requires measured { IsMeasured (state_of cluster.now) factors.now }
    ensures { value_of result ≡ spec.job_size_term (state_of cluster.now) job.now }
{
    let cpus = job.terms().tasks.get() * job.terms().cpus_per_task.get();
    term(
        cluster.settings.weight_job_size,
        cpus.min(factors.cpus),
        factors.cpus,
    )
}

// The factor of the job's partition.
fn factor_of(cluster: &Cluster, job: &JobRecord) -> u64
    ensures value { result ≡ spec.factor_of (state_of cluster.now) job.now }
    ensures low { result ≤ spec.greatest_factor (state_of cluster.now) }
{
    match cluster.partitions.at(job.partition) {
        Some(partition) => partition.conf.factor.get(),
        None => 0,
    }
}

fn partition_term(factors: &Factors, cluster: &Cluster, job: &JobRecord) -> Term
    requires measured { IsMeasured (state_of cluster.now) factors.now }
    ensures { value_of result ≡ spec.partition_term (state_of cluster.now) job.now }
{
    term(
        cluster.settings.weight_partition,
        factor_of(cluster, job),
        factors.greatest_factor,
    )
}

// The priority of the quality of service at a place, 0 of none.
fn priority_at(qos: &[QosRecord], place: u32) -> u32
    ensures { result ≡ unwrap_or (option_map (λ (one : QosRecord). one.conf.priority) (slice_get qos.now place)) 0 }
{
    match qos.get(place as usize) {
        Some(one) => one.conf.priority,
        None => 0,
    }
}

// The priority of the job's quality of service.
fn qos_priority_of(cluster: &Cluster, job: &JobRecord) -> u32
    ensures value { result ≡ spec.qos_priority_of (state_of cluster.now) job.now }
    ensures low { result ≤ spec.greatest_qos (state_of cluster.now) }
{
    priority_at(cluster.assocs.qos(), job.qos)
}

fn qos_term(factors: &Factors, cluster: &Cluster, job: &JobRecord) -> Term
    requires measured { IsMeasured (state_of cluster.now) factors.now }
    ensures { value_of result ≡ spec.qos_term (state_of cluster.now) job.now }
{
    term(
        cluster.settings.weight_qos,
        u64::from(qos_priority_of(cluster, job)),
        u64::from(factors.greatest_qos),
    )
}

/// The job's priority, and what it is made of. In constant time. "Job Priority Factors" of Slurm's multifactor
/// priority.
#[tactic(auto, unfolding(crate::specs::Priority::parts_of))]
pub fn priority_of(factors: &Factors, cluster: &Cluster, job: &JobRecord) -> PriorityParts
    requires measured { IsMeasured (state_of cluster.now) factors.now }
    ensures { result ≡ spec.parts_of (state_of cluster.now) factors.now.moment job.now }
{
    priority(&PriorityInput {
        terms: [
            age_term(cluster, factors.moment, job),
            fair_share_term(factors, cluster, job),
            job_size_term(factors, cluster, job),
            partition_term(factors, cluster, job),
            qos_term(factors, cluster, job),
        ],
        nice: job.nice,
    })
}
