//! A pass: what it decides, and what it does.

ghost use Rattle.std.specs.Prelude.{◌≡◌, ◌≤◌, ◌<◌, ◌&&◌, not, nat_eq, nat_lt, All, IfOk, IfSome, filter, length, option_copied};
ghost use Rattle.std.specs.List.{list_all, list_any};
ghost use Rattle.resource_profile.specs.Counts.{IsTickedUpTo};
ghost use Rattle.ctl_state.specs.State.{state_of, last_moment};
ghost use Rattle.ctl_state.specs.Index.{IsIndexed};
ghost use Rattle.ctl_state.specs.Soundness.{IsSound};
ghost use Rattle.ctl_state.specs.Refusals.{first_refusal};
ghost use Rattle.ctl_state.specs.declared.record.ArrayRecord.{ArrayRecord};
ghost use Rattle.ctl_pass.specs.Live.{has_array};
ghost use Rattle.job_table.specs.Awaiting.{ShowsAwaited, has_gone};
ghost use Rattle.node_state.specs.declared.reservation_record.Reservation.{Reservation as OneReservation};
ghost use Rattle.run_limits.specs.Tallies.{Shows};
ghost use Rattle.ctl_state.specs.Counted.{holding};
ghost use Rattle.ctl_pass.specs.Readiness.{jobs_left, placements, ready};
ghost use Rattle.ctl_pass.specs.SamePlans.{same_plans};
ghost use Rattle.ctl_pass.specs.Inputs.{IsSteppedOver, input_of};
ghost use Rattle.ctl_pass.specs.Passing;
ghost use Rattle.ctl_pass.specs.Awaiting.{IsPrepared, placements_of};
ghost use Rattle.ctl_pass.specs.Preempting.{victims_in};

use crate::beginning::begin;
use crate::input::{find_input, plan_over};
use crate::laws::{few_end, what_is_due_can_start};
use crate::limits::{any_gone, count_over, preempt, time_out};
use crate::live_arrays::{LiveArrays, live_arrays};
use crate::same_plans::are_same;
use crate::split::split;
use crate::starts::DueStart;
use crate::victims::find_victims;
use backfill_planner::{Placed, Planned};
use ctl_state::cluster::Cluster;
use ctl_state::counting::count_holding;
use ctl_state::laws::parts_stay;
use ctl_state::record::ArrayRecord;
use job_table::awaited::Awaited;
use job_table::laws::who_is_awaited_stays;
use node_state::reservation_record::Reservation;
use reply_data::refusal::Refusal;
use resource_profile::Steps;
use run_limits::tally::Tally;
use small_texts::memory_error::Memory;
use small_texts::name::Name;
use std::alloc::Global;

/// What a pass decides before it changes anything: its memory is taken by then.
#[derive(Drop)]
pub struct Decided {
    /// How many jobs it takes out of Running.
    pub ended: u32,
    /// The placements that it starts, each with room for its parts.
    pub starts: Vec<DueStart>,
    /// The placements that begin later, or whose jobs reach a limit.
    pub stays: Vec<Placed>,
    /// The numbers of the running jobs that go for the highest of the others.
    pub gone: Vec<u32>,
    /// The arrays of which there are tasks afterwards.
    pub arrays: LiveArrays,
    /// The jobs for which pending ones wait: their records stay.
    pub awaited: Awaited,
    /// The whole plan, over which a later one can be made.
    pub planned: Planned,
}

/// Why a pass is refused, if it is.
pub fn refusal_of(cluster: &Cluster, user: &Name) -> Option<Refusal>
    ensures { result ≡ first_refusal (Passing.pass_refusals (state_of cluster.now) user.now) }
{
    if cluster.is_privileged(user) {
        None
    } else {
        Some(Refusal::AccessDenied)
    }
}

// Equal placements, in their order.
fn copy_all(alloc: Global, placements: &[Placed]) -> Result<Vec<Placed>, Memory>
    ensures { IfOk result (λ copies. copies.items ≡ placements.now) }
{
    let mut copies = Vec::with_capacity(alloc, placements.len())?;
    for placed in placements {
        copies.push(placed.copy(alloc)?)?;
    }
    Ok(copies)
}

/// What a pass at its raised moment does. Its plan is made over an older one, if any; whichever that is, the pass does
/// the same. Linear in jobs, parts and nodes, and for each candidate in the nodes that it may have, beside what its
/// plan costs; the nodes of each partition are sorted, and so are the users by what they have used and the candidates
/// by rank, each once. What priorities rest on is found once. The jobs that hold processors are counted once; each of
/// them, each pending job and each placement that begins now costs its association's way up to root besides. Where
/// preemption is on and a candidate doesn't start, it costs what `find_victims` says besides. It counts a step for each
/// job that it searches for: at most one for each that it plans, and over an older plan none for those which stand as
/// they stood in it.
pub fn decide<L>(
    alloc: Global,
    cluster: &Cluster,
    older: Option<&Planned>,
    now: u64,
    steps: &mut Steps<L>,
) -> Result<Decided, Memory>
    requires sound { IsSound (state_of cluster.now) }
    requires raised { cluster.now.moment ≤ now }
    requires in_time { now ≤ last_moment }
    ensures decided { IfOk result (Passing.IsDecided (state_of cluster.now) now) }
    ensures steps { IsTickedUpTo (Passing.jobs_planned (state_of cluster.now) now) steps.old steps.new }
    ensures over { IfSome (option_copied older.entry) (λ old.
        IsSteppedOver old (state_of cluster.now) now steps.old steps.new) }
{
    who_is_awaited_stays();
    let awaited = Awaited::of(alloc, &cluster.jobs)?;
    let tally = count_holding(alloc, &cluster.assocs, &cluster.jobs)?;
    let input = find_input(alloc, cluster, now, &awaited, &tally)?;
    let planned = plan_over(alloc, older, input, steps)?;
    let plan = copy_all(alloc, planned.placements())?;
    decide_with(alloc, cluster, now, awaited, tally, plan, planned)
}

// What comes of the plan, and who goes.
#[derive(Drop)]
struct Choice {
    starts: Vec<DueStart>,
    stays: Vec<Placed>,
    gone: Vec<u32>,
}

// What comes of this plan, and who goes.
fn choose(
    alloc: Global,
    cluster: &Cluster,
    now: u64,
    mut tally: Tally,
    plan: Vec<Placed>,
    planned: &Planned,
) -> Result<Choice, Memory>
    requires sound { IsSound (state_of cluster.now) }
    requires raised { cluster.now.moment ≤ now }
    requires in_time { now ≤ last_moment }
    requires counted { Shows cluster.now.assocs.records tally (holding cluster.now.jobs.records) }
    requires plan { plan.items ≡ placements (state_of cluster.now) now }
    requires planned { planned.now ≡ input_of (state_of cluster.now) now }
    ensures starts { IfOk result (λ choice. placements_of choice.starts.items
        ≡ Passing.placements_due (state_of cluster.now) now) }
    ensures prepared { IfOk result (λ choice. All (IsPrepared cluster.now.nodes.records) choice.starts.items) }
    ensures stays { IfOk result (λ choice. choice.stays.items ≡ (Passing.outcome (state_of cluster.now) now).stays) }
    ensures gone { IfOk result (λ choice. choice.gone.items ≡ victims_in (state_of cluster.now) now) }
{
    let (starts, stays) = split(alloc, cluster, now, &mut tally, plan)?;
    let gone = find_victims(alloc, cluster, now, &tally, planned, &starts)?;
    Ok(Choice {
        starts,
        stays,
        gone,
    })
}

// What a pass with this plan does.
fn decide_with(
    alloc: Global,
    cluster: &Cluster,
    now: u64,
    awaited: Awaited,
    tally: Tally,
    plan: Vec<Placed>,
    planned: Planned,
) -> Result<Decided, Memory>
    requires sound { IsSound (state_of cluster.now) }
    requires raised { cluster.now.moment ≤ now }
    requires in_time { now ≤ last_moment }
    requires awaited { ShowsAwaited awaited cluster.now.jobs.records }
    requires counted { Shows cluster.now.assocs.records tally (holding cluster.now.jobs.records) }
    requires plan { plan.items ≡ placements (state_of cluster.now) now }
    requires planned { planned ≡ input_of (state_of cluster.now) now }
    ensures { IfOk result (Passing.IsDecided (state_of cluster.now) now) }
{
    who_is_awaited_stays();
    few_end();
    let Choice {
        starts,
        stays,
        gone,
    } = choose(alloc, cluster, now, tally, plan, &planned)?;
    let age = cluster.settings.min_job_age.get();
    Ok(Decided {
        ended: (count_over(now, cluster.jobs.records()) + gone.len()) as u32,
        starts,
        stays,
        gone,
        arrays: live_arrays(alloc, age, now, &awaited, cluster.jobs.records())?,
        awaited,
        planned,
    })
}

// Whether there are tasks of all these arrays.
fn all_live(live: &LiveArrays, arrays: &[ArrayRecord]) -> bool
    ensures { result ≡ list_all (λ (array : ArrayRecord). has_array live.now array.id) arrays.now }
{
    arrays.iter().all(|array| live.has(array.id))
}

// Whether none of the reservations is over.
fn all_last(now: u64, reservations: &[Reservation]) -> bool
    ensures { result ≡ list_all (λ (one : OneReservation). nat_lt now one.end) reservations.now }
{
    reservations.iter().all(|one| now < one.end.get())
}

// Whether nothing ends, is dropped or starts, and the plan is the last one.
fn is_same(cluster: &Cluster, now: u64, decided: &Decided) -> bool
    ensures { result ≡ (nat_eq decided.now.ended 0
        && (not (list_any (has_gone cluster.now.settings.min_job_age now decided.now.awaited) cluster.now.jobs.records)
        && (list_all (λ (array : ArrayRecord). has_array decided.now.arrays array.id) cluster.now.arrays.items
        && (list_all (λ (one : OneReservation). nat_lt now one.end) cluster.now.reservations
        && (nat_eq (length decided.now.starts.items) 0
        && same_plans decided.now.stays.items cluster.now.plan.items))))) }
{
    let age = cluster.settings.min_job_age.get();
    decided.ended == 0
        && !any_gone(age, now, &decided.awaited, cluster.jobs.records())
        && all_live(&decided.arrays, &cluster.arrays)
        && all_last(now, cluster.reservations.records())
        && decided.starts.as_slice().is_empty()
        && are_same(&decided.stays, &cluster.plan)
}

/// Whether it would change nothing but the moment. Linear in the jobs and the plan.
pub fn is_idle(cluster: &Cluster, now: u64, decided: &Decided) -> bool
    requires { Passing.IsDecided (state_of cluster.now) now decided.now }
    ensures { result ≡ Passing.is_idle (state_of cluster.now) now }
{
    who_is_awaited_stays();
    is_same(cluster, now, decided)
}

// Drops the arrays of which there are no tasks.
fn drop_dead(live: &LiveArrays, arrays: &mut Vec<ArrayRecord>)
    ensures { arrays.new.items ≡ filter (λ (array : ArrayRecord). has_array live.now array.id) arrays.old.items }
{
    arrays.retain(|array| live.has(array.id));
}

// Sees to the limits, drops the old records, the arrays of which there are no tasks, and the reservations that are over.
fn make_ready(cluster: &mut Cluster, now: u64, live: &LiveArrays, awaited: &Awaited)
    requires arrays { Passing.HasArrays (jobs_left (state_of cluster.old) now) live.now }
    requires awaited { ShowsAwaited awaited.now cluster.old.jobs.records }
    ensures ready { state_of cluster.new ≡ ready (state_of cluster.old) now }
    ensures held { cluster.new.nodes.held ≡ cluster.old.nodes.held }
{
    who_is_awaited_stays();
    let age = cluster.settings.min_job_age.get();
    time_out(now, &mut cluster.jobs);
    cluster.jobs.purge(now, age, awaited);
    drop_dead(live, &mut cluster.arrays);
    cluster.reservations.drop_ended(now);
}

/// Does what was decided, and gives the plan back. Linear in the jobs, the arrays, the reservations and the starts' parts, of which each looks at its node's
/// processors; it takes no memory.
pub fn act(cluster: &mut Cluster, now: u64, decided: Decided) -> Planned
    requires sound { IsSound (state_of cluster.old) }
    requires raised { cluster.old.moment ≤ now }
    requires in_time { now ≤ last_moment }
    requires indexed { IsIndexed cluster.old }
    requires decided { Passing.IsDecided (state_of cluster.old) now decided }
    ensures after { state_of cluster.new ≡ Passing.pass_after (state_of cluster.old) now }
    ensures planned { result ≡ input_of (state_of cluster.old) now }
    ensures indexed { IsIndexed cluster.new }
{
    what_is_due_can_start();
    who_is_awaited_stays();
    parts_stay();
    make_ready(cluster, now, &decided.arrays, &decided.awaited);
    begin(now, cluster, decided.starts);
    preempt(now, &mut cluster.jobs, &decided.gone);
    cluster.plan = decided.stays;
    decided.planned
}
