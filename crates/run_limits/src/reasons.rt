//! Which limit a job reaches.

ghost use Rattle.std.specs.Prelude.{◌≡◌, ◌+◌, ℕ, List, map};
ghost use Rattle.std.specs.List.{list_any};
ghost use Rattle.run_limits.specs.Accounts.{limits_at};
ghost use Rattle.run_limits.specs.declared.counted.Counted.{Counted as CountedJob};
ghost use Rattle.run_limits.specs.declared.counted.Group.TheVariants.{Below, InQos, OfUser};
ghost use Rattle.run_limits.specs.Limits.{assoc_limits_reached, first_reason, is_above, is_full, limits_reached, nearest, qos_limits_reached};
ghost use Rattle.run_limits.specs.Tallies.{Shows, told};

use crate::assocs::Assocs;
use crate::counted::{Counted, Group};
use crate::limit::{Limit, is_above};
use crate::tally::Tally;
use plain_data::assoc::QosLimits;
use request_data::state::Reason;

// Whether as many tasks of the job's array hold processors as may at once.
#[tactic(auto, unfolding(crate::specs::Tallies::Shows))]
fn is_full(assocs: &Assocs, tally: &Tally, array: Option<u32>, most: Option<u64>) -> bool
    ensures { (holding : List CountedJob) → Shows assocs.now.records tally.now holding
        → result ≡ is_full
        (record { assocs = assocs.now.records; qos = assocs.now.qos; holding = holding }) array most }
{
    match (array, most) {
        (Some(array), Some(most)) => most <= tally.counts(assocs, Group::Array(array)).jobs,
        _ => false,
    }
}

// Whether one job more is above the limit, beside those of a group. Without a limit they aren't looked up.
fn is_job_too_many(limit: Option<Limit>, assocs: &Assocs, tally: &Tally, group: Group) -> bool
    ensures { result ≡ is_above limit ((told assocs.now.records tally.now group).jobs + 1) }
{
    limit.is_some() && is_above(limit, tally.counts(assocs, group).jobs, 1)
}

// Whether so many processors more are above the limit, beside those of a group. Without a limit they aren't looked up.
fn are_cpus_too_many(
    limit: Option<Limit>,
    assocs: &Assocs,
    tally: &Tally,
    group: Group,
    cpus: u64,
) -> bool
    ensures { result ≡ is_above limit ((told assocs.now.records tally.now group).cpus + cpus) }
{
    limit.is_some() && is_above(limit, tally.counts(assocs, group).cpus, cpus)
}

// Whether the job would be one too many at one of these places.
fn has_jobs_too_many(assocs: &Assocs, tally: &Tally, places: &[u32]) -> bool
    ensures { result ≡ list_any (λ place. is_above (limits_at assocs.now.records place).grp_jobs
        ((told assocs.now.records tally.now (Below place)).jobs + 1)) places.now }
{
    places.iter().any(|place| {
        let limit = assocs.limits(*place).grp_jobs;
        is_job_too_many(limit, assocs, tally, Group::Below(*place))
    })
}

// Whether the job would have too many processors at one of these places.
fn has_cpus_too_many(assocs: &Assocs, tally: &Tally, places: &[u32], cpus: u64) -> bool
    ensures { result ≡ list_any (λ place. is_above (limits_at assocs.now.records place).grp_cpus
        ((told assocs.now.records tally.now (Below place)).cpus + cpus)) places.now }
{
    places.iter().any(|place| {
        let limit = assocs.limits(*place).grp_cpus;
        are_cpus_too_many(limit, assocs, tally, Group::Below(*place), cpus)
    })
}

// How many jobs may hold processors at once: the nearest limit at these places.
fn most_jobs(assocs: &Assocs, places: &[u32]) -> Option<Limit>
    ensures { result ≡ nearest (map (λ place. (limits_at assocs.now.records place).max_jobs) places.now) }
{
    for place in places {
        let limit = assocs.limits(*place).max_jobs;
        if limit.is_some() {
            return limit;
        }
    }
    None
}

// The first limit that the job reaches of its association and of those above it.
fn assoc_limit_reached(assocs: &Assocs, tally: &Tally, job: &Counted) -> Option<Reason>
    ensures { (holding : List CountedJob) → Shows assocs.now.records tally.now holding
        → result ≡ first_reason (assoc_limits_reached
        (record { assocs = assocs.now.records; qos = assocs.now.qos; holding = holding }) job.now) }
{
    let places = assocs.above(job.assoc);
    let places = places.as_slice();
    let own = Group::Below(job.assoc);
    if has_jobs_too_many(assocs, tally, places) {
        Some(Reason::AssocGrpJobsLimit)
    } else if has_cpus_too_many(assocs, tally, places, job.cpus) {
        Some(Reason::AssocGrpCpuLimit)
    } else if is_job_too_many(most_jobs(assocs, places), assocs, tally, own) {
        Some(Reason::AssocMaxJobsLimit)
    } else {
        None
    }
}

// The first of these limits, those of its quality of service, that the job reaches.
fn qos_limit_reached(
    limits: &QosLimits,
    assocs: &Assocs,
    tally: &Tally,
    job: &Counted,
) -> Option<Reason>
    ensures { result ≡ first_reason (qos_limits_reached limits.now
        (told assocs.now.records tally.now (InQos job.now.qos))
        (told assocs.now.records tally.now (OfUser job.now.assoc job.now.qos)) job.now.cpus) }
{
    let all = Group::InQos(job.qos);
    let users = Group::OfUser {
        assoc: job.assoc,
        qos: job.qos,
    };
    if is_job_too_many(limits.grp_jobs, assocs, tally, all) {
        Some(Reason::QosGrpJobsLimit)
    } else if are_cpus_too_many(limits.grp_cpus, assocs, tally, all, job.cpus) {
        Some(Reason::QosGrpCpuLimit)
    } else if is_job_too_many(limits.user_jobs, assocs, tally, users) {
        Some(Reason::QosMaxJobsPerUserLimit)
    } else if are_cpus_too_many(limits.user_cpus, assocs, tally, users, job.cpus) {
        Some(Reason::QosMaxCpuPerUserLimit)
    } else {
        None
    }
}

/// The first limit that the job reaches beside the jobs that are counted, of whose array so many tasks may hold
/// processors at once; None where it reaches none. Linear in its way up to root; what jobs count is looked up only
/// where a limit stands. "Resource limits" in slurm.conf(5).
pub fn limit_reached(
    assocs: &Assocs,
    tally: &Tally,
    job: &Counted,
    most: Option<u64>,
) -> Option<Reason>
    ensures { (holding : List CountedJob) → Shows assocs.now.records tally.now holding
        → result ≡ first_reason (limits_reached
        (record { assocs = assocs.now.records; qos = assocs.now.qos; holding = holding }) job.now most) }
{
    if is_full(assocs, tally, job.array, most) {
        return Some(Reason::JobArrayTaskLimit);
    }
    if let Some(reason) = assoc_limit_reached(assocs, tally, job) {
        return Some(reason);
    }
    qos_limit_reached(&assocs.qos_limits(job.qos), assocs, tally, job)
}
