//! What comes of a plan: some placements start, the others stay.

ghost use Rattle.std.specs.Prelude.{◌≡◌, ◌≤◌, All, IfOk, OnOk, List, nat_eq};
ghost use Rattle.std.specs.List.{list_any};
ghost use Rattle.backfill_planner.specs.declared.Placed.{Placed};
ghost use Rattle.job_table.specs.declared.record.JobRecord.{JobRecord};
ghost use Rattle.job_table.specs.Table.{job_with};
ghost use Rattle.run_limits.specs.Tallies.{Shows};
ghost use Rattle.ctl_state.specs.Counted.{holding};
ghost use Rattle.ctl_state.specs.State.{state_of, last_moment};
ghost use Rattle.ctl_state.specs.Soundness.{IsSound};
ghost use Rattle.ctl_pass.specs.Readiness;
ghost use Rattle.ctl_pass.specs.Starting;
ghost use Rattle.ctl_pass.specs.Passing;
ghost use Rattle.ctl_pass.specs.Awaiting.{CanBegin, CountsOneMore, IsPrepared, placements_of};

use crate::laws::what_a_pass_plans_is_sound;
use crate::starts::{DueStart, prepare};
use backfill_planner::Placed;
use backfill_planner::laws::placements_are_of_ranked_jobs;
use ctl_state::cluster::Cluster;
use ctl_state::counting::counted_of;
use ctl_state::laws::{a_stable_sort_makes_the_order, what_is_taken_is_counted};
use ctl_waiting::limit_reached;
use job_table::laws::who_is_awaited_stays;
use job_table::record::JobRecord;
use run_limits::laws::sums_decide_what_is_shown;
use run_limits::tally::Tally;
use small_texts::memory_error::Memory;
use std::alloc::Global;

// Whether a placement begins now.
fn any_begins(now: u64, placements: &[Placed]) -> bool
    ensures { result ≡ list_any (λ (placed : Placed). nat_eq placed.start now) placements.now }
{
    placements.iter().any(|placed| placed.start == now)
}

/// Whether the job with this number reaches no limit beside the jobs that are counted. Linear in its association's way up
/// to root.
#[tactic(auto, unfolding(crate::specs::Starting::may_start))]
pub(crate) fn may_start(cluster: &Cluster, tally: &Tally, id: u32) -> bool
    ensures { (jobs : List JobRecord) → Shows cluster.now.assocs.records tally.now (holding jobs)
        → job_with id jobs ≡ job_with id cluster.now.jobs.records
        → result ≡ Starting.may_start (state_of cluster.now) jobs id }
{
    cluster
        .jobs
        .get(id)
        .is_some_and(|job| limit_reached(cluster, tally, job).is_none())
}

// One job more holds processors: the one with this number.
fn count_start(cluster: &Cluster, tally: &mut Tally, id: u32) -> Result<(), Memory>
    ensures { OnOk result (CountsOneMore cluster.now.assocs.records (job_with id cluster.now.jobs.records)
        tally.old tally.new) }
{
    match cluster.jobs.get(id) {
        Some(job) => tally.add(&cluster.assocs, &counted_of(job)),
        None => Ok(()),
    }
}

// The placements that begin now and whose jobs may start, each beside the jobs that are counted and those that started
// before it; and the placements that stay.
fn settle(
    alloc: Global,
    cluster: &Cluster,
    now: u64,
    tally: &mut Tally,
    placements: Vec<Placed>,
) -> Result<(Vec<DueStart>, Vec<Placed>), Memory>
    ensures starts { IfOk result (λ both. (jobs : List JobRecord)
        → CanBegin cluster.now.assocs.records cluster.now.jobs.records jobs tally.old placements.items
        → placements_of both.0.items ≡ Starting.due (state_of cluster.now) now jobs placements.items) }
    ensures prepared { IfOk result (λ both. All (IsPrepared cluster.now.nodes.records) both.0.items) }
    ensures stays { IfOk result (λ both. (jobs : List JobRecord)
        → CanBegin cluster.now.assocs.records cluster.now.jobs.records jobs tally.old placements.items
        → both.1.items ≡ (Starting.started (state_of cluster.now) now jobs placements.items).stays) }
    ensures counted { OnOk result ((jobs : List JobRecord)
        → CanBegin cluster.now.assocs.records cluster.now.jobs.records jobs tally.old placements.items
        → Shows cluster.now.assocs.records tally.new
        (holding (Starting.started (state_of cluster.now) now jobs placements.items).jobs)) }
{
    what_is_taken_is_counted();
    sums_decide_what_is_shown();
    let mut starts = Vec::new(alloc);
    let mut stays = Vec::with_capacity(alloc, placements.len())?;
    for placed in placements {
        if placed.start == now && may_start(cluster, tally, placed.id) {
            count_start(cluster, tally, placed.id)?;
            starts.push(prepare(alloc, cluster.nodes.records(), placed)?)?;
        } else {
            stays.push(placed)?;
        }
    }
    Ok((starts, stays))
}

/// The starts that come of the plan, and the placements that stay, where the jobs that hold processors are counted; those
/// that start are counted then too. Linear in the plan, and for each placement that begins now in its association's way
/// up to root.
pub(crate) fn split(
    alloc: Global,
    cluster: &Cluster,
    now: u64,
    tally: &mut Tally,
    placements: Vec<Placed>,
) -> Result<(Vec<DueStart>, Vec<Placed>), Memory>
    requires sound { IsSound (state_of cluster.now) }
    requires raised { cluster.now.moment ≤ now }
    requires in_time { now ≤ last_moment }
    requires counted { Shows cluster.now.assocs.records tally.old (holding cluster.now.jobs.records) }
    requires plan { placements.items ≡ Readiness.placements (state_of cluster.now) now }
    ensures starts { IfOk result (λ both. placements_of both.0.items
        ≡ Passing.placements_due (state_of cluster.now) now) }
    ensures prepared { IfOk result (λ both. All (IsPrepared cluster.now.nodes.records) both.0.items) }
    ensures stays { IfOk result (λ both. both.1.items ≡ (Passing.outcome (state_of cluster.now) now).stays) }
    ensures after { OnOk result (Shows cluster.now.assocs.records tally.new
        (holding (Passing.outcome (state_of cluster.now) now).jobs)) }
{
    who_is_awaited_stays();
    if !any_begins(now, &placements) {
        return Ok((Vec::new(alloc), placements));
    }
    what_a_pass_plans_is_sound();
    a_stable_sort_makes_the_order::<JobRecord>();
    placements_are_of_ranked_jobs();
    settle(alloc, cluster, now, tally, placements)
}
