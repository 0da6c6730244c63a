//! Which limits on jobs that haven't ended new jobs exceed.

ghost use Rattle.std.specs.Prelude.{◌≡◌, ◌+◌, ℕ, [], ◌∷◌, List, map};
ghost use Rattle.run_limits.specs.Accounts.{limits_at, qos_limits_at};
ghost use Rattle.run_limits.specs.declared.counted.Counted.{Counted as CountedJob};
ghost use Rattle.run_limits.specs.declared.counted.Group.{Group as GroupOfJobs};
ghost use Rattle.run_limits.specs.declared.counted.Group.TheVariants.{Below, InQos, OfUser};
ghost use Rattle.reply_data.specs.declared.refusal.Which.TheVariants.{AssocGrpSubmitJobs, QosGrpSubmitJobs, QosMaxSubmitJobsPerUser};
ghost use Rattle.run_limits.specs.Counting.{counts_of, is_in};
ghost use Rattle.run_limits.specs.Limits.{nearest};
ghost use Rattle.run_limits.specs.Submitting.{exceeded, first_refusal, submit_limits};

use crate::assocs::Assocs;
use crate::counted::{Counted, Group};
use crate::limit::{Limit, is_above};
use reply_data::refusal::{Refusal, Which};

/// What counts jobs (own).
pub trait CountsJobs {
    ghost use Rattle.std.specs.Prelude.{ℕ};
    ghost use Rattle.run_limits.specs.declared.counted.Group.{Group as GroupOfJobs};

    ghost jobs_of: { Self → GroupOfJobs → ℕ };

    /// How many jobs of the group there are. `submit_limit` asks it only where a limit stands.
    fn jobs_in(&self, group: Group) -> u64
        ensures { result ≡ jobs_of self.now group };
}

// The limit, where so many jobs and so many new ones exceed it.
fn exceeded<C: CountsJobs>(
    which: Which,
    limit: Option<Limit>,
    counter: &C,
    group: Group,
    new: u64,
) -> Option<Refusal>
    ensures { result ≡ exceeded which limit (C.jobs_of counter.now group + new) }
{
    let limit = limit?;
    if is_above(Some(limit), counter.jobs_in(group), new) {
        Some(Refusal::SubmitLimit {
            which,
            limit: limit.get(),
        })
    } else {
        None
    }
}

// How many jobs of one association may be that haven't ended: the nearest limit at these places.
fn most_submitted(assocs: &Assocs, places: &[u32]) -> Option<Limit>
    ensures { result ≡ nearest (map (λ place. (limits_at assocs.now.records place).max_submit) places.now) }
{
    for place in places {
        let limit = assocs.limits(*place).max_submit;
        if limit.is_some() {
            return limit;
        }
    }
    None
}

// The first limit of these places that the new jobs exceed.
fn group_exceeded<C: CountsJobs>(
    assocs: &Assocs,
    places: &[u32],
    counter: &C,
    new: u64,
) -> Option<Refusal>
    ensures { result ≡ first_refusal (map (λ place. exceeded AssocGrpSubmitJobs
        (limits_at assocs.now.records place).grp_submit (C.jobs_of counter.now (Below place) + new)) places.now) }
{
    for place in places {
        let limit = assocs.limits(*place).grp_submit;
        let group = Group::Below(*place);
        if let Some(refusal) = exceeded(Which::AssocGrpSubmitJobs, limit, counter, group, new) {
            return Some(refusal);
        }
    }
    None
}

// The first limit of the job's quality of service that the new jobs exceed.
fn qos_exceeded<C: CountsJobs>(
    assocs: &Assocs,
    job: &Counted,
    counter: &C,
    new: u64,
) -> Option<Refusal>
    ensures { result ≡ first_refusal (
        exceeded QosGrpSubmitJobs (qos_limits_at assocs.now.qos job.now.qos).grp_submit
        (C.jobs_of counter.now (InQos job.now.qos) + new)
        ∷ exceeded QosMaxSubmitJobsPerUser (qos_limits_at assocs.now.qos job.now.qos).user_submit
        (C.jobs_of counter.now (OfUser job.now.assoc job.now.qos) + new)
        ∷ []) }
{
    let limits = assocs.qos_limits(job.qos);
    let all = Group::InQos(job.qos);
    if let Some(refusal) = exceeded(
        Which::QosGrpSubmitJobs,
        limits.grp_submit,
        counter,
        all,
        new,
    ) {
        return Some(refusal);
    }
    let users = Group::OfUser {
        assoc: job.assoc,
        qos: job.qos,
    };
    exceeded(
        Which::QosMaxSubmitJobsPerUser,
        limits.user_submit,
        counter,
        users,
        new,
    )
}

/// The first limit that so many new jobs like this one exceed beside those that haven't ended, which the counter
/// counts; None where they exceed none. Linear in its way up to root, but for the counter, which it asks only where a
/// limit stands. `MaxSubmitJobs` and `GrpSubmitJobs` in sacctmgr(1).
pub fn submit_limit<C: CountsJobs>(
    assocs: &Assocs,
    job: &Counted,
    new: u64,
    counter: &C,
) -> Option<Refusal>
    ensures { (unended : List CountedJob)
        → ((group : GroupOfJobs)
        → C.jobs_of counter.now group ≡ (counts_of (is_in assocs.now.records group) unended).jobs)
        → result ≡ first_refusal (submit_limits
        (record { assocs = assocs.now.records; qos = assocs.now.qos; holding = unended }) job.now new) }
{
    let places = assocs.above(job.assoc);
    let places = places.as_slice();
    let most = most_submitted(assocs, places);
    let own = Group::Below(job.assoc);
    if let Some(refusal) = exceeded(Which::AssocMaxSubmitJobs, most, counter, own, new) {
        return Some(refusal);
    }
    if let Some(refusal) = group_exceeded(assocs, places, counter, new) {
        return Some(refusal);
    }
    qos_exceeded(assocs, job, counter, new)
}
