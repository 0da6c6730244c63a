//! Whether a job stays as it is.

ghost use Rattle.std.specs.Prelude.{◌≡◌};
ghost use Rattle.ctl_jobs.specs.Actions;

use crate::action::Action;
use crate::changing_one::held_after;
use job_table::record::JobRecord;
use plain_data::limit::Limit;
use plain_data::nice::Nice;
use request_data::state::HeldBy;
use small_texts::name::Name;

/// Whether this leaves the job as it is, to which the user may do it.
pub(crate) fn leaves(user: &Name, action: &Action, job: &JobRecord) -> bool
    ensures { result ≡ Actions.leaves user.now action.now job.now }
{
    match action {
        Action::Cancel | Action::Requeue => false,
        Action::Hold { for_owner } => same_holder(held_after(user, *for_owner, job), job.held_by),
        Action::Release => same_holder(HeldBy::Nobody, job.held_by),
        Action::Update { limit, nice } => has_limit(limit, job) && has_nice(nice, job),
    }
}

fn same_holder(one: HeldBy, other: HeldBy) -> bool
    ensures { result ≡ Actions.same_holder one other }
{
    match (one, other) {
        (HeldBy::Nobody, HeldBy::Nobody)
        | (HeldBy::User, HeldBy::User)
        | (HeldBy::Admin, HeldBy::Admin) => true,
        _ => false,
    }
}

fn same_limit(one: &Limit, other: &Limit) -> bool
    ensures { result ≡ Actions.same_limit one.now other.now }
{
    match (one, other) {
        (Limit::Minutes(one), Limit::Minutes(other)) => one.get() == other.get(),
        (Limit::Unlimited, Limit::Unlimited) => true,
        _ => false,
    }
}

fn same_nice(one: &Nice, other: &Nice) -> bool
    ensures { result ≡ Actions.same_nice one.now other.now }
{
    match (one, other) {
        (Nice::Lower(one), Nice::Lower(other)) => one.get() == other.get(),
        (Nice::Raise(one), Nice::Raise(other)) => one.get() == other.get(),
        _ => false,
    }
}

// Whether the job has this limit, if one is given.
fn has_limit(limit: &Option<Limit>, job: &JobRecord) -> bool
    ensures { result ≡ Actions.has_limit limit.now job.now }
{
    match limit {
        Some(limit) => same_limit(&job.limit, limit),
        None => true,
    }
}

// Whether the job has this nice value, if one is given.
fn has_nice(nice: &Option<Nice>, job: &JobRecord) -> bool
    ensures { result ≡ Actions.has_nice nice.now job.now }
{
    match nice {
        Some(nice) => same_nice(&job.nice, nice),
        None => true,
    }
}
