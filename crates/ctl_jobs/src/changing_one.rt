//! What becomes of a job.

ghost use Rattle.std.specs.Prelude.{◌≡◌, ◌<◌, ℕ, length, None};
ghost use Rattle.job_table.specs.Changes.{changed};
ghost use Rattle.job_table.specs.Usage.{Charges};
ghost use Rattle.job_table.specs.Walks.{map_at};
ghost use Rattle.ctl_jobs.specs.Actions;

use crate::action::Action;
use crate::refusals::is_by_admin;
use job_table::change::Change;
use job_table::jobs::Jobs;
use job_table::laws::{a_change_is_of_its_place, who_leaves_is_charged};
use job_table::record::JobRecord;
use plain_data::limit::Limit;
use plain_data::nice::Nice;
use request_data::state::{Final, HeldBy, JobState};
use small_texts::name::Name;

/// Does this to the job at a place. It takes no memory.
pub(crate) fn change_at(jobs: &mut Jobs, place: usize, moment: u64, user: &Name, action: &Action)
    requires { place < length jobs.old.records }
    ensures jobs { jobs.new.records ≡ map_at place (Actions.done_to moment user.now action.now) jobs.old.records }
    ensures charges { Charges moment jobs.old jobs.new }
{
    match action {
        Action::Cancel => cancel_at(jobs, place, moment),
        Action::Hold { for_owner } => hold_at(jobs, place, user, *for_owner),
        Action::Release => jobs.change_at(place, Change::SetHold(HeldBy::Nobody)),
        Action::Requeue => requeue_at(jobs, place, moment),
        Action::Update { limit, nice } => update_at(jobs, place, limit, nice),
    }
}

// Cancels the job at a place: a pending one ends at once, a running one completes, and one that was to start again
// doesn't.
fn cancel_at(jobs: &mut Jobs, place: usize, moment: u64)
    requires { place < length jobs.old.records }
    ensures jobs { jobs.new.records ≡ map_at place (Actions.cancelled moment) jobs.old.records }
    ensures charges { Charges moment jobs.old jobs.new }
{
    a_change_is_of_its_place::<JobRecord>();
    who_leaves_is_charged();
    let change = match jobs.records()[place].state {
        JobState::Pending => Change::CancelPending { moment },
        JobState::Running => Change::Leave {
            to: Final::Cancelled,
            moment,
            exit: None,
        },
        JobState::Completing(_) => Change::CancelRequeue,
        JobState::Ended(_) => return,
    };
    jobs.change_at(place, change);
}

/// Who holds the job once the user holds it.
pub(crate) fn held_after(user: &Name, for_owner: bool, job: &JobRecord) -> HeldBy
    ensures { result ≡ Actions.held_after user.now for_owner job.now }
{
    if is_by_admin(job.held_by) {
        HeldBy::Admin
    } else if for_owner || job.user.is(user) {
        HeldBy::User
    } else {
        HeldBy::Admin
    }
}

// Has the user hold the job at a place.
fn hold_at(jobs: &mut Jobs, place: usize, user: &Name, for_owner: bool)
    requires { place < length jobs.old.records }
    ensures jobs { jobs.new.records
        ≡ map_at place (λ job. changed (Change.SetHold (Actions.held_after user.now for_owner job)) job)
        jobs.old.records }
    ensures charges { (now : ℕ) → Charges now jobs.old jobs.new }
{
    a_change_is_of_its_place::<JobRecord>();
    let by = held_after(user, for_owner, &jobs.records()[place]);
    jobs.change_at(place, Change::SetHold(by));
}

// Has the job at a place stop, and wait for another start.
fn requeue_at(jobs: &mut Jobs, place: usize, moment: u64)
    requires { place < length jobs.old.records }
    ensures jobs { jobs.new.records
        ≡ map_at place (changed (Change.Leave Final.Requeue moment None)) jobs.old.records }
    ensures charges { Charges moment jobs.old jobs.new }
{
    let change = Change::Leave {
        to: Final::Requeue,
        moment,
        exit: None,
    };
    jobs.change_at(place, change);
}

// Gives the job at a place another limit and another nice value, where there are such.
fn update_at(jobs: &mut Jobs, place: usize, limit: &Option<Limit>, nice: &Option<Nice>)
    requires { place < length jobs.old.records }
    ensures jobs { jobs.new.records
        ≡ map_at place (λ job. Actions.with_nice nice.now (Actions.with_limit limit.now job)) jobs.old.records }
    ensures charges { (now : ℕ) → Charges now jobs.old jobs.new }
{
    a_change_is_of_its_place::<JobRecord>();
    who_leaves_is_charged();
    limit_at(jobs, place, limit);
    nice_at(jobs, place, nice);
}

fn limit_at(jobs: &mut Jobs, place: usize, limit: &Option<Limit>)
    requires { place < length jobs.old.records }
    ensures jobs { jobs.new.records ≡ map_at place (Actions.with_limit limit.now) jobs.old.records }
    ensures length { length jobs.new.records ≡ length jobs.old.records }
    ensures charges { (now : ℕ) → Charges now jobs.old jobs.new }
{
    a_change_is_of_its_place::<JobRecord>();
    who_leaves_is_charged();
    if let Some(limit) = limit {
        jobs.change_at(place, Change::SetLimit(*limit));
    }
}

fn nice_at(jobs: &mut Jobs, place: usize, nice: &Option<Nice>)
    requires { place < length jobs.old.records }
    ensures jobs { jobs.new.records ≡ map_at place (Actions.with_nice nice.now) jobs.old.records }
    ensures charges { (now : ℕ) → Charges now jobs.old jobs.new }
{
    a_change_is_of_its_place::<JobRecord>();
    who_leaves_is_charged();
    if let Some(nice) = nice {
        jobs.change_at(place, Change::SetNice(*nice));
    }
}
