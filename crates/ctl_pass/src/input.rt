//! What the plan of a pass is made of, and the plan.

ghost use Rattle.std.specs.Prelude.{◌≡◌, ◌≤◌, ◌<◌, IfOk, IfSome, length, All, option_copied};
ghost use Rattle.resource_profile.specs.Counts.{IsTickedUpTo};
ghost use Rattle.backfill_planner.specs.declared.job.PlanJob.{PlanJob as AJob};
ghost use Rattle.job_table.specs.Awaiting.{ShowsAwaited};
ghost use Rattle.run_limits.specs.Tallies.{Shows};
ghost use Rattle.ctl_state.specs.Counted.{holding};
ghost use Rattle.ctl_state.specs.Soundness.{IsSound};
ghost use Rattle.ctl_state.specs.State.{state_of, last_moment};
ghost use Rattle.ctl_pass.specs.Inputs.{CountsOver, input_of};

use crate::base::base_of;
use crate::laws::what_is_ranked_stays;
use backfill_planner::{Base, PlanJob, Planned, plan};
use ctl_state::cluster::Cluster;
use ctl_state::counting::count_holding;
use ctl_waiting::{measure, rank};
use job_table::awaited::Awaited;
use plan_keeper::replan;
use resource_profile::Steps;
use run_limits::tally::Tally;
use small_texts::memory_error::Memory;
use std::alloc::Global;
use std::marker::Model;

/// What the plan of a pass is made of (own). The nodes of each job are places of the base's rooms. A contract sees the
/// parts of the plan, and the older one beside them, over which it may be made.
#[derive(Drop)]
pub struct PlanInput {
    pub base: Base,
    /// The jobs, the highest first.
    pub ranked: Vec<PlanJob>,
    /// An older plan. Whichever it is, the plan is the same.
    pub kept: Option<Planned>,
    /// In seconds since 1970.
    pub now: u64,
}

impl Model for PlanInput {
    ghost use Rattle.std.specs.Prelude.{All};
    ghost use Rattle.backfill_planner.specs.Placements.{IsOnRooms};
    ghost use Rattle.ctl_pass.specs.Views.{InputView};

    ghost Value = { InputView };

    ghost view = { λ input. record {
      parts = record { base = input.base; ranked = input.ranked.items; moment = input.now };
      kept = input.kept;
    } };

    ghost invariant = { λ input. All (IsOnRooms input.base.rooms) input.ranked.items };
}

impl PlanInput {
    /// The plan of it: made over the older one, if any, or from scratch, which comes to the same. It counts a step for
    /// each job that it searches for.
    pub fn plan<L>(self, alloc: Global, steps: &mut Steps<L>) -> Result<Planned, Memory>
        ensures plan { IfOk result (λ planned. planned ≡ self.parts) }
        ensures steps { IsTickedUpTo (length self.parts.ranked) steps.old steps.new }
    {
        let PlanInput {
            base,
            ranked,
            kept,
            now,
        } = self;
        make_plan(alloc, kept.as_ref(), base, ranked, now, steps)
    }
}

// The plan of the ranked jobs, over an older one.
fn make_plan<L>(
    alloc: Global,
    older: Option<&Planned>,
    base: Base,
    ranked: Vec<PlanJob>,
    now: u64,
    steps: &mut Steps<L>,
) -> Result<Planned, Memory>
    requires nodes { All (λ (job : AJob). All (λ node. node < length base.rooms) job.nodes) ranked.items }
    ensures parts { IfOk result (λ planned. planned ≡ record { base = base; ranked = ranked.items; moment = now }) }
    ensures steps { IsTickedUpTo (length ranked.items) steps.old steps.new }
    ensures over { IfSome (option_copied older.entry) (λ old.
        CountsOver old (record { base = base; ranked = ranked.items; moment = now }) steps.old steps.new) }
{
    match older {
        Some(older) => replan(alloc, older, base, ranked, now, steps),
        None => plan(alloc, base, ranked, now, steps),
    }
}

/// The plan of this input over an older one, if any; the one that the input has isn't used.
pub(crate) fn plan_over<L>(
    alloc: Global,
    older: Option<&Planned>,
    input: PlanInput,
    steps: &mut Steps<L>,
) -> Result<Planned, Memory>
    ensures plan { IfOk result (λ planned. planned ≡ input.parts) }
    ensures steps { IsTickedUpTo (length input.parts.ranked) steps.old steps.new }
    ensures over { IfSome (option_copied older.entry) (λ old. CountsOver old input.parts steps.old steps.new) }
{
    let PlanInput {
        base,
        ranked,
        now,
        ..
    } = input;
    make_plan(alloc, older, base, ranked, now, steps)
}

/// What a pass at its raised moment plans, beside what its jobs hold, with no older plan.
pub(crate) fn find_input(
    alloc: Global,
    cluster: &Cluster,
    now: u64,
    awaited: &Awaited,
    tally: &Tally,
) -> Result<PlanInput, Memory>
    requires sound { IsSound (state_of cluster.now) }
    requires raised { cluster.now.moment ≤ now }
    requires in_time { now ≤ last_moment }
    requires awaited { ShowsAwaited awaited.now cluster.now.jobs.records }
    requires counted { Shows cluster.now.assocs.records tally.now (holding cluster.now.jobs.records) }
    ensures { IfOk result (λ input. input.parts ≡ input_of (state_of cluster.now) now) }
{
    what_is_ranked_stays();
    let base = base_of(alloc, cluster, now, awaited)?;
    let factors = measure(alloc, cluster, now)?;
    let ranked = rank(alloc, cluster, tally, &factors)?;
    Ok(PlanInput {
        base,
        ranked,
        kept: None,
        now,
    })
}

// An equal plan, where there is one.
fn copy_of(alloc: Global, kept: Option<&Planned>) -> Result<Option<Planned>, Memory>
    ensures { IfOk result (λ copy. copy ≡ option_copied kept.entry) }
{
    match kept {
        Some(kept) => {
            let copy = kept.copy(alloc)?;
            Ok(Some(copy))
        }
        None => Ok(None),
    }
}

/// What a pass at its raised moment plans, with a copy of the plan that is kept. It costs what `decide` costs before its
/// plan, beside the copy.
pub fn plan_input(
    alloc: Global,
    cluster: &Cluster,
    kept: Option<&Planned>,
    now: u64,
) -> Result<PlanInput, Memory>
    requires sound { IsSound (state_of cluster.now) }
    requires raised { cluster.now.moment ≤ now }
    requires in_time { now ≤ last_moment }
    ensures input { IfOk result (λ input. input.parts ≡ input_of (state_of cluster.now) now) }
    ensures kept { IfOk result (λ input. input.kept ≡ option_copied kept.entry) }
{
    let awaited = Awaited::of(alloc, &cluster.jobs)?;
    let tally = count_holding(alloc, &cluster.assocs, &cluster.jobs)?;
    let input = find_input(alloc, cluster, now, &awaited, &tally)?;
    let copy = copy_of(alloc, kept)?;
    Ok(with_kept(input, copy))
}

// The input with this older plan.
fn with_kept(input: PlanInput, kept: Option<Planned>) -> PlanInput
    ensures parts { result.parts ≡ input.parts }
    ensures kept { result.kept ≡ kept }
{
    let PlanInput {
        base,
        ranked,
        now,
        ..
    } = input;
    PlanInput {
        base,
        ranked,
        kept,
        now,
    }
}
