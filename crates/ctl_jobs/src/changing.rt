//! What becomes of all jobs that are named.

ghost use Rattle.std.specs.Prelude.{◌≡◌, ◌<◌, map, filter, length};
ghost use Rattle.std.specs.List.{list_any};
ghost use Rattle.ctl_state.specs.Index.{IsIndexed};
ghost use Rattle.ctl_state.specs.Soundness.{IsSound};
ghost use Rattle.ctl_state.specs.State.{state_of};
ghost use Rattle.job_table.specs.Table.{HaveRisingIds};
ghost use Rattle.job_table.specs.Targets.{AreTogether, is_named};
ghost use Rattle.job_table.specs.Usage.{Charges};
ghost use Rattle.job_table.specs.Walks.{map_at};
ghost use Rattle.ctl_jobs.specs.Actions;
ghost use Rattle.ctl_jobs.specs.Changing;
ghost use Rattle.ctl_jobs.specs.Changing.{done_where};

use crate::action::Action;
use crate::changing_one::change_at;
use crate::leaving::leaves;
use crate::refusals::{may_do, span_of};
use ctl_state::cluster::Cluster;
use ctl_state::jobs::drop_placements;
use ctl_state::laws::parts_stay;
use job_table::laws::{a_change_is_of_its_place, a_walk_changes_all, who_leaves_is_charged};
use job_table::record::JobRecord;
use job_table::targets::is_named;
use request_data::target::Target;
use small_texts::name::Name;

/// Whether this changes a job that the targets name. Costs as the test of its refusals.
pub fn changes_any(cluster: &Cluster, user: &Name, action: &Action, targets: &[Target]) -> bool
    requires { IsSound (state_of cluster.now) }
    ensures { result ≡ list_any
        (Changing.goes (state_of cluster.now) user.now action.now (Changing.are_naming targets.now))
        cluster.now.jobs.records }
{
    for target in targets {
        if changes_target(cluster, user, action, target) {
            return true;
        }
    }
    false
}

// Whether this changes a job that the target names.
fn changes_target(cluster: &Cluster, user: &Name, action: &Action, target: &Target) -> bool
    requires rising { HaveRisingIds cluster.now.jobs.records }
    requires together { AreTogether cluster.now.jobs.records }
    ensures { result ≡ list_any (Changing.changes (state_of cluster.now) user.now action.now)
        (filter (is_named target.now) cluster.now.jobs.records) }
{
    let mut span = span_of(cluster, target).iter();
    span.any(|job| is_named(target, job) && changes(cluster, user, action, job))
}

// Whether the user may do this to the job, and it becomes another by it.
fn changes(cluster: &Cluster, user: &Name, action: &Action, job: &JobRecord) -> bool
    ensures { result ≡ Changing.changes (state_of cluster.now) user.now action.now job.now }
{
    may_do(cluster, user, action, job) && !leaves(user, action, job)
}

/// Whether this changes a job of the owner. Linear in the jobs.
pub fn changes_owned(cluster: &Cluster, user: &Name, action: &Action, owner: &Name) -> bool
    ensures { result ≡ list_any
        (Changing.goes (state_of cluster.now) user.now action.now (Changing.is_owned owner.now))
        cluster.now.jobs.records }
{
    let mut jobs = cluster.jobs.records().iter();
    jobs.any(|job| job.user.is(owner) && changes(cluster, user, action, job))
}

/// Does this to what the targets name, where the user may. It takes no memory. Each target is logarithmic in the jobs
/// and linear in those that it names; then it is once linear in the plan.
pub fn change(cluster: &mut Cluster, moment: u64, user: &Name, action: &Action, targets: &[Target])
    requires { IsSound (state_of cluster.old) }
    ensures after { state_of cluster.new
        ≡ Changing.change_after (state_of cluster.old) moment user.now action.now (Changing.are_naming targets.now) }
    ensures indexed { IsIndexed cluster.old → IsIndexed cluster.new }
{
    parts_stay();
    change_targets(cluster, moment, user, action, targets);
    drop_placements(&cluster.jobs, &mut cluster.plan);
}

/// Does this to the owner's jobs, where the user may. It takes no memory. One walk over the jobs, and once linear in the
/// plan.
pub fn change_owned(cluster: &mut Cluster, moment: u64, user: &Name, action: &Action, owner: &Name)
    requires { IsSound (state_of cluster.old) }
    ensures after { state_of cluster.new
        ≡ Changing.change_after (state_of cluster.old) moment user.now action.now (Changing.is_owned owner.now) }
    ensures indexed { IsIndexed cluster.old → IsIndexed cluster.new }
{
    parts_stay();
    change_jobs_of(cluster, moment, user, action, owner);
    drop_placements(&cluster.jobs, &mut cluster.plan);
}

// Does this to what one of the targets names, where the user may.
fn change_targets(
    cluster: &mut Cluster,
    moment: u64,
    user: &Name,
    action: &Action,
    targets: &[Target],
)
    requires rising { HaveRisingIds cluster.old.jobs.records }
    requires together { AreTogether cluster.old.jobs.records }
    ensures after { state_of cluster.new ≡ record (state_of cluster.old) {
      jobs = map
          (Changing.done_if (state_of cluster.old) moment user.now action.now (Changing.are_naming targets.now))
          cluster.old.jobs.records;
      usage = cluster.new.jobs.usage;
    } }
    ensures charges { Charges moment cluster.old.jobs cluster.new.jobs }
    ensures held { cluster.new.nodes.held ≡ cluster.old.nodes.held }
{
    who_leaves_is_charged();
    for target in targets {
        change_target(cluster, moment, user, action, target);
    }
}

// Does this to what the target names, where the user may.
fn change_target(cluster: &mut Cluster, moment: u64, user: &Name, action: &Action, target: &Target)
    requires rising { HaveRisingIds cluster.old.jobs.records }
    requires together { AreTogether cluster.old.jobs.records }
    ensures after { state_of cluster.new ≡ record (state_of cluster.old) {
      jobs = map (λ job. done_where (state_of cluster.old) moment user.now action.now (is_named target.now job) job)
          cluster.old.jobs.records;
      usage = cluster.new.jobs.usage;
    } }
    ensures charges { Charges moment cluster.old.jobs cluster.new.jobs }
    ensures held { cluster.new.nodes.held ≡ cluster.old.nodes.held }
{
    a_walk_changes_all::<JobRecord>();
    a_change_is_of_its_place::<JobRecord>();
    who_leaves_is_charged();
    let places = cluster.jobs.places_of(target);
    for place in places.first..places.end {
        let named = is_named(target, &cluster.jobs.records()[place]);
        change_where(cluster, place, moment, user, action, named);
    }
}

// Does this to the owner's jobs, where the user may.
fn change_jobs_of(cluster: &mut Cluster, moment: u64, user: &Name, action: &Action, owner: &Name)
    ensures after { state_of cluster.new ≡ record (state_of cluster.old) {
      jobs = map (Changing.done_if (state_of cluster.old) moment user.now action.now (Changing.is_owned owner.now))
          cluster.old.jobs.records;
      usage = cluster.new.jobs.usage;
    } }
    ensures charges { Charges moment cluster.old.jobs cluster.new.jobs }
    ensures held { cluster.new.nodes.held ≡ cluster.old.nodes.held }
{
    a_walk_changes_all::<JobRecord>();
    a_change_is_of_its_place::<JobRecord>();
    who_leaves_is_charged();
    for place in 0..cluster.jobs.records().len() {
        let named = cluster.jobs.records()[place].user.is(owner);
        change_where(cluster, place, moment, user, action, named);
    }
}

// Does this to the job at a place, where it is named and the user may.
fn change_where(
    cluster: &mut Cluster,
    place: usize,
    moment: u64,
    user: &Name,
    action: &Action,
    named: bool,
)
    requires { place < length cluster.old.jobs.records }
    ensures after { state_of cluster.new ≡ record (state_of cluster.old) {
      jobs = map_at place (done_where (state_of cluster.old) moment user.now action.now named)
          cluster.old.jobs.records;
      usage = cluster.new.jobs.usage;
    } }
    ensures charges { Charges moment cluster.old.jobs cluster.new.jobs }
    ensures held { cluster.new.nodes.held ≡ cluster.old.nodes.held }
{
    a_change_is_of_its_place::<JobRecord>();
    who_leaves_is_charged();
    if named && may_do(cluster, user, action, &cluster.jobs.records()[place]) {
        change_at(&mut cluster.jobs, place, moment, user, action);
    }
}
