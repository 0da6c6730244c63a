//! Why users may not do something to jobs.

ghost use Rattle.std.specs.Prelude.{◌≡◌, map, filter, find, option_copied, unwrap_or};
ghost use Rattle.std.specs.List.{list_any};
ghost use Rattle.ctl_state.specs.Refusals.{first_refusal};
ghost use Rattle.ctl_state.specs.Soundness.{IsSound};
ghost use Rattle.ctl_state.specs.State.{state_of};
ghost use Rattle.job_table.specs.Table.{HaveRisingIds};
ghost use Rattle.job_table.specs.Targets.{AreTogether, is_named};
ghost use Rattle.ctl_jobs.specs.Actions;
ghost use Rattle.ctl_jobs.specs.Changing;

use crate::action::Action;
use ctl_state::cluster::Cluster;
use ctl_state::limits::exceeds;
use job_table::record::JobRecord;
use job_table::targets::is_named;
use plain_data::limit::Limit;
use plain_data::nice::Nice;
use reply_data::refusal::Refusal;
use request_data::state::{Final, HeldBy, JobState};
use request_data::target::Target;
use small_texts::name::Name;

/// Why the user may not do this to what the targets name, if it is refused: the first target's that is. Logarithmic in
/// the jobs for each target, and linear in the tasks of arrays that it names as a whole.
pub fn refusal_of(
    cluster: &Cluster,
    user: &Name,
    action: &Action,
    targets: &[Target],
) -> Option<Refusal>
    requires { IsSound (state_of cluster.now) }
    ensures { result ≡ first_refusal (Changing.refusals (state_of cluster.now) user.now action.now targets.now) }
{
    for target in targets {
        if let Some(refusal) = target_refusal(cluster, user, action, target) {
            return Some(refusal);
        }
    }
    None
}

/// Why the user may not do anything to the jobs of this owner.
pub fn refusal_of_owner(cluster: &Cluster, user: &Name, owner: &Name) -> Option<Refusal>
    ensures { result ≡ first_refusal (Changing.owner_refusals (state_of cluster.now) user.now owner.now) }
{
    if may_change(cluster, user, owner) {
        None
    } else {
        Some(Refusal::AccessDenied)
    }
}

// Why the user may not do this to what the target names: nothing, or none of the jobs.
fn target_refusal(
    cluster: &Cluster,
    user: &Name,
    action: &Action,
    target: &Target,
) -> Option<Refusal>
    requires rising { HaveRisingIds cluster.now.jobs.records }
    requires together { AreTogether cluster.now.jobs.records }
    ensures { result ≡ Changing.target_refusal (state_of cluster.now) user.now action.now target.now }
{
    if is_possible(cluster, user, action, target) {
        return None;
    }
    match first_named(cluster, target) {
        Some(job) => job_refusal(cluster, user, action, job),
        None => Some(Refusal::InvalidJobId),
    }
}

// Whether the target names a job to which the user may do this.
fn is_possible(cluster: &Cluster, user: &Name, action: &Action, target: &Target) -> bool
    requires rising { HaveRisingIds cluster.now.jobs.records }
    requires together { AreTogether cluster.now.jobs.records }
    ensures { result ≡ list_any (Changing.may_do (state_of cluster.now) user.now action.now)
        (filter (is_named target.now) cluster.now.jobs.records) }
{
    let mut span = span_of(cluster, target).iter();
    span.any(|job| is_named(target, job) && may_do(cluster, user, action, job))
}

// The first job that the target names.
fn first_named<'a>(cluster: &'a Cluster, target: &Target) -> Option<&'a JobRecord>
    requires rising { HaveRisingIds cluster.now.jobs.records }
    requires together { AreTogether cluster.now.jobs.records }
    ensures { option_copied result ≡ find (is_named target.now) cluster.now.jobs.records }
{
    span_of(cluster, target)
        .iter()
        .find(|job| is_named(target, job))
}

/// The jobs among which all are that the target names.
pub(crate) fn span_of<'a>(cluster: &'a Cluster, target: &Target) -> &'a [JobRecord]
    requires rising { HaveRisingIds cluster.now.jobs.records }
    requires together { AreTogether cluster.now.jobs.records }
    ensures { filter (is_named target.now) result.now ≡ filter (is_named target.now) cluster.now.jobs.records }
{
    cluster.jobs.span_of(target)
}

/// Whether the user may do this to the job.
pub(crate) fn may_do(cluster: &Cluster, user: &Name, action: &Action, job: &JobRecord) -> bool
    ensures { result ≡ Changing.may_do (state_of cluster.now) user.now action.now job.now }
{
    job_refusal(cluster, user, action, job).is_none()
}

// Why the user may not do this to the job.
#[tactic(auto, unfolding(crate::specs::Actions::job_refusal))]
fn job_refusal(cluster: &Cluster, user: &Name, action: &Action, job: &JobRecord) -> Option<Refusal>
    ensures { result ≡ Actions.job_refusal (state_of cluster.now) user.now action.now job.now }
{
    if is_denied(cluster, user, action, job) {
        return Some(Refusal::AccessDenied);
    }
    if is_late(action, job.state) {
        return Some(Refusal::AlreadyDone);
    }
    if is_untimely(action, job.state) {
        return Some(Refusal::WrongState);
    }
    if is_barred(action, job) {
        return Some(Refusal::NotRequeueable);
    }
    None
}

// Whether the user may change what is of the owner.
fn may_change(cluster: &Cluster, user: &Name, owner: &Name) -> bool
    ensures { result ≡ Actions.may_change (state_of cluster.now) user.now owner.now }
{
    cluster.is_privileged(user) || owner.is(user)
}

fn is_denied(cluster: &Cluster, user: &Name, action: &Action, job: &JobRecord) -> bool
    ensures { result ≡ Actions.is_denied (state_of cluster.now) user.now action.now job.now }
{
    !may_change(cluster, user, &job.user)
        || (needs_privilege(action, job) && !cluster.is_privileged(user))
}

// Whether only privileged users may do this to the job.
fn needs_privilege(action: &Action, job: &JobRecord) -> bool
    ensures { result ≡ Actions.needs_privilege action.now job.now }
{
    match action {
        Action::Release => is_by_admin(job.held_by),
        Action::Update { limit, nice } => raises(limit, &job.limit) || is_negative(nice),
        Action::Cancel | Action::Hold { .. } | Action::Requeue => false,
    }
}

/// Whether a privileged user holds it.
pub(crate) fn is_by_admin(held_by: HeldBy) -> bool
    ensures { result ≡ Actions.is_by_admin held_by }
{
    matches!(held_by, HeldBy::Admin)
}

// Whether the new limit, if there is one, is above the old one.
fn raises(limit: &Option<Limit>, old: &Limit) -> bool
    ensures { result ≡ Actions.raises limit.now old.now }
{
    match limit {
        Some(limit) => exceeds(limit, old),
        None => false,
    }
}

fn is_negative(nice: &Option<Nice>) -> bool
    ensures { result ≡ Actions.is_negative nice.now }
{
    matches!(nice, Some(Nice::Raise(_)))
}

// Whether it is too late to do this to a job in this state.
fn is_late(action: &Action, state: JobState) -> bool
    ensures { result ≡ Actions.is_late action.now state }
{
    match action {
        Action::Cancel => is_done(state),
        _ => matches!(state, JobState::Completing(_) | JobState::Ended(_)),
    }
}

// Whether a job in this state has ended, or completes and doesn't start again.
fn is_done(state: JobState) -> bool
    ensures { result ≡ Actions.is_done state }
{
    match state {
        JobState::Pending | JobState::Running | JobState::Completing(Final::Requeue) => false,
        JobState::Completing(_) | JobState::Ended(_) => true,
    }
}

// Whether the state of a job doesn't allow this.
fn is_untimely(action: &Action, state: JobState) -> bool
    ensures { result ≡ Actions.is_untimely action.now state }
{
    match action {
        Action::Cancel => false,
        Action::Hold { .. } | Action::Release => matches!(state, JobState::Running),
        Action::Requeue => matches!(state, JobState::Pending),
        Action::Update { nice, .. } => nice.is_some() && matches!(state, JobState::Running),
    }
}

// Whether the job may not be started again, where it would be.
fn is_barred(action: &Action, job: &JobRecord) -> bool
    ensures { result ≡ Actions.is_barred action.now job.now }
{
    match action {
        Action::Requeue => !job.terms().requeue,
        _ => false,
    }
}
