//! Both lists passed at once: a job that stands in both is planned in both, one that is in the old list alone is left out, and
//! one that is in the new list alone is planned anew.

ghost use Rattle.std.specs.Prelude.{◌≡◌, ◌≤◌, ◌<◌, ◌+◌, ℕ, true, false, nat_eq, length, slice_index_or, option_copied, IfOk, OnErr};
ghost use Rattle.backfill_planner.specs.declared.job.PlanJob.{PlanJob as AJob};
ghost use Rattle.backfill_planner.specs.Plans.{PlannedView};
ghost use Rattle.plan_keeper.specs.Steady.{IsSameFrom};
ghost use Rattle.plan_keeper.specs.Marks.{FindsId, IsPast};
ghost use Rattle.plan_keeper.specs.Kept.{AreCountedAnew, HasBegun};
ghost use Rattle.plan_keeper.specs.Passing.{held_by, made_to, parts_of, ArePassing, IsNew, IsPassed};
ghost use Rattle.plan_keeper.specs.Turns.{IsStepped, HasStepped};
ghost use Rattle.std.specs.HashMap.{get};

use crate::beginning::Beginning;
use crate::finding::find_anew;
use crate::kept::Kept;
use crate::laws::planner_laws;
use crate::made_again::{made_again, settle_again};
use crate::places::Places;
use crate::same_job::is_same_from;
use crate::same_nodes::count_anew;
use crate::staying::settle_there;
use crate::unchanged::Unchanged;
use backfill_planner::{Placed, Planned, Planning};
use resource_profile::Steps;
use small_texts::memory_error::Memory;
use std::alloc::Global;

/// The new plan as far as both lists are passed.
#[derive(Drop)]
pub struct Passed {
    pub planning: Planning,
    /// How many jobs are planned.
    pub index: usize,
    /// The place that is reached in the old list.
    pub before: usize,
    /// What is kept in mind of the nodes.
    pub kept: Kept,
    /// The nodes that none of the jobs may have that were left out or planned anew.
    pub level: Unchanged,
}

/// The old plan too, made again up to its place.
#[derive(Drop)]
pub struct BothPlans {
    pub then: Planning,
    pub passed: Passed,
}

/// What is passed by the beginning.
pub fn begun_passed(alloc: Global, begun: Beginning) -> Result<Passed, Memory>
    requires { begun.first ≡ begun.planning.done }
    ensures planning { IfOk result (λ passed. passed.planning ≡ begun.planning) }
    ensures index { IfOk result (λ passed. passed.index ≡ begun.first) }
    ensures before { IfOk result (λ passed. passed.before ≡ begun.first) }
    ensures passed { IfOk result (λ passed. (old : PlannedView) → HasBegun old begun.planning
        begun.kept.same.seconds.items begun.kept.no_freer.seconds.items → IsPassed old passed) }
{
    planner_laws();
    let Beginning {
        planning,
        first,
        kept,
    } = begun;
    let level = Unchanged::all(alloc, planning.base().rooms.as_slice().len())?;
    Ok(Passed {
        planning,
        index: first,
        before: first,
        kept,
        level,
    })
}

// The next job of both lists is planned in both.
fn pass_same<L>(
    alloc: Global,
    old: &Planned,
    plans: BothPlans,
    now: u64,
    steps: &mut Steps<L>,
) -> Result<BothPlans, Memory>
    requires passing { ArePassing old.now plans }
    requires there { plans.passed.before < length old.now.ranked }
    requires more { plans.passed.planning.done < length plans.passed.planning.ranked }
    requires is { (d : AJob) → IsSameFrom plans.passed.planning.moment
        (slice_index_or old.now.ranked plans.passed.before d)
        (slice_index_or plans.passed.planning.ranked plans.passed.planning.done d) }
    requires now { now ≡ plans.passed.planning.moment }
    requires later { old.now.moment ≤ now }
    ensures passing { IfOk result (ArePassing old.now) }
    ensures index { IfOk result (λ next. next.passed.index ≡ plans.passed.index + 1) }
    ensures next { IfOk result (λ next. next.passed.planning
        ≡ record plans.passed.planning { done = plans.passed.planning.done + 1 }) }
    ensures steps { IsStepped old.now plans.passed.planning steps.old steps.new }
{
    let BothPlans { then, passed } = plans;
    let Passed {
        planning,
        index,
        before,
        mut kept,
        level,
    } = passed;
    let planning = settle_there(alloc, old, before, &mut kept, planning, index, now, steps)?;
    let then = settle_again(alloc, old, then, before)?;
    Ok(BothPlans {
        then,
        passed: Passed {
            planning,
            index: index + 1,
            before: before + 1,
            kept,
            level,
        },
    })
}

// Counts both seconds of the nodes of a placement anew, from what both plans hold so far.
fn count_again(
    kept: &mut Kept,
    placed: Option<&Placed>,
    then: &Planning,
    planning: &Planning,
    now: u64,
)
    requires long { length kept.old.same.seconds.items ≡ length planning.now.base.rooms }
    requires long_no_freer { length kept.old.no_freer.seconds.items ≡ length planning.now.base.rooms }
    ensures { AreCountedAnew (held_by then.now) (held_by planning.now) now (parts_of (option_copied placed.entry))
        kept.old.same.seconds.items kept.old.no_freer.seconds.items
        kept.new.same.seconds.items kept.new.no_freer.seconds.items }
{
    let Some(placed) = placed else {
        return;
    };
    count_anew(
        kept,
        placed.parts.as_slice(),
        then.profile(),
        then.base().rooms.as_slice(),
        planning.profile(),
        planning.base().rooms.as_slice(),
        now,
    );
}

// The next job of the old list is left out: the old plan gets what it held, and the new one doesn't.
fn leave_out(alloc: Global, old: &Planned, plans: BothPlans, now: u64) -> Result<BothPlans, Memory>
    requires passing { ArePassing old.now plans }
    requires there { plans.passed.before < length old.now.ranked }
    requires gone { IsPast plans.passed.planning.moment old.now.ranked plans.passed.planning.ranked
        plans.passed.planning.done plans.passed.before }
    requires now { now ≡ plans.passed.planning.moment }
    ensures passing { IfOk result (ArePassing old.now) }
    ensures index { IfOk result (λ next. next.passed.index ≡ plans.passed.index) }
    ensures next { IfOk result (λ next. next.passed.planning ≡ plans.passed.planning) }
{
    planner_laws();
    let BothPlans { then, passed } = plans;
    let Passed {
        planning,
        index,
        before,
        mut kept,
        mut level,
    } = passed;
    let then = settle_again(alloc, old, then, before)?;
    count_again(&mut kept, old.placement_of(before), &then, &planning, now);
    level.pass(&old.ranked()[before]);
    Ok(BothPlans {
        then,
        passed: Passed {
            planning,
            index,
            before: before + 1,
            kept,
            level,
        },
    })
}

// The next job of the new list is planned by a search, and the old plan stays as it is so far.
fn plan_new<L>(
    alloc: Global,
    old: &Planned,
    plans: BothPlans,
    now: u64,
    steps: &mut Steps<L>,
) -> Result<BothPlans, Memory>
    requires passing { ArePassing old.now plans }
    requires more { plans.passed.planning.done < length plans.passed.planning.ranked }
    requires new { (d : AJob) → IsNew old.now.ranked plans.passed.before
        (slice_index_or plans.passed.planning.ranked plans.passed.planning.done d).id }
    requires now { now ≡ plans.passed.planning.moment }
    ensures passing { IfOk result (ArePassing old.now) }
    ensures index { IfOk result (λ next. next.passed.index ≡ plans.passed.index + 1) }
    ensures next { IfOk result (λ next. next.passed.planning
        ≡ record plans.passed.planning { done = plans.passed.planning.done + 1 }) }
    ensures steps { IsStepped old.now plans.passed.planning steps.old steps.new }
{
    planner_laws();
    let BothPlans { then, passed } = plans;
    let Passed {
        planning,
        index,
        before,
        mut kept,
        mut level,
    } = passed;
    let found = find_anew(alloc, &planning, now, steps)?;
    level.pass(&planning.ranked()[index]);
    kept.place_new(&found.placed);
    let planning = planning.settle_searched(found.placed)?;
    Ok(BothPlans {
        then,
        passed: Passed {
            planning,
            index: index + 1,
            before,
            kept,
            level,
        },
    })
}

// Whether the next job of the new list is the one at the old one's place.
fn is_there(old: &Planned, passed: &Passed, now: u64) -> bool
    requires { passed.now.index < length passed.now.planning.ranked }
    ensures is { result ≡ true → (passed.now.before < length old.now.ranked) × ((d : AJob) → IsSameFrom now
        (slice_index_or old.now.ranked passed.now.before d)
        (slice_index_or passed.now.planning.ranked passed.now.index d)) }
    ensures not { result ≡ false → passed.now.before < length old.now.ranked → (d : AJob) → ¬ IsSameFrom now
        (slice_index_or old.now.ranked passed.now.before d)
        (slice_index_or passed.now.planning.ranked passed.now.index d) }
{
    passed.before < old.ranked().len()
        && is_same_from(
            &old.ranked()[passed.before],
            &passed.planning.ranked()[passed.index],
            now,
        )
}

// The next job of one list is passed, or of both; nothing where each of them stands behind in the other list, or where the
// new list ends.
fn turn<L>(
    alloc: Global,
    old: &Planned,
    plans: BothPlans,
    places: &Places,
    now: u64,
    steps: &mut Steps<L>,
) -> Result<BothPlans, Memory>
    requires passing { ArePassing old.now plans }
    requires old { (id : ℕ) → FindsId old.now.ranked (length old.now.ranked) id (get nat_eq places.now.old id) }
    requires new { (id : ℕ) → FindsId plans.passed.planning.ranked (length plans.passed.planning.ranked) id
        (get nat_eq places.now.new id) }
    requires now { now ≡ plans.passed.planning.moment }
    requires later { old.now.moment ≤ now }
    ensures passing { IfOk result (ArePassing old.now) }
    ensures next { IfOk result (λ next. next.passed.planning
        ≡ record plans.passed.planning { done = next.passed.index }) }
    ensures steps { (start : ℕ) → HasStepped old.now plans.passed.planning.base plans.passed.planning.ranked
        plans.passed.planning.moment plans.passed.index start steps.old
        → IfOk result (λ next. HasStepped old.now plans.passed.planning.base plans.passed.planning.ranked
        plans.passed.planning.moment next.passed.index start steps.new) }
    ensures steps_err { (start : ℕ) → HasStepped old.now plans.passed.planning.base plans.passed.planning.ranked
        plans.passed.planning.moment plans.passed.index start steps.old
        → OnErr result (HasStepped old.now plans.passed.planning.base plans.passed.planning.ranked
        plans.passed.planning.moment (length plans.passed.planning.ranked) start steps.new) }
{
    let passed = &plans.passed;
    let ranked = passed.planning.ranked();
    if passed.index >= ranked.len() {
        return Ok(plans);
    }
    if is_there(old, passed, now) {
        return pass_same(alloc, old, plans, now, steps);
    }
    let before = passed.before;
    if before < old.ranked().len()
        && places.is_gone(old.ranked(), before, ranked, passed.index, now)
    {
        return leave_out(alloc, old, plans, now);
    }
    if places.is_new(old.ranked(), before, &ranked[passed.index]) {
        return plan_new(alloc, old, plans, now, steps);
    }
    Ok(plans)
}

/// Passes both lists up to where the next job of each stands behind in the other one, or the new list ends. Linear in the
/// jobs of both, in their nodes and times, and in the old plan; a job that is left out costs a look at all nodes besides.
pub fn pass_both<L>(
    alloc: Global,
    old: &Planned,
    passed: Passed,
    now: u64,
    steps: &mut Steps<L>,
) -> Result<Passed, Memory>
    requires passed { IsPassed old.now passed }
    requires now { now ≡ passed.planning.moment }
    requires later { old.now.moment ≤ now }
    ensures passed { IfOk result (IsPassed old.now) }
    ensures next { IfOk result (λ next. next.planning ≡ record passed.planning { done = next.index }) }
    ensures steps { (start : ℕ) → HasStepped old.now passed.planning.base passed.planning.ranked
        passed.planning.moment passed.index start steps.old
        → IfOk result (λ next. HasStepped old.now passed.planning.base passed.planning.ranked
        passed.planning.moment next.index start steps.new) }
    ensures steps_err { (start : ℕ) → HasStepped old.now passed.planning.base passed.planning.ranked
        passed.planning.moment passed.index start steps.old
        → OnErr result (HasStepped old.now passed.planning.base passed.planning.ranked
        passed.planning.moment (length passed.planning.ranked) start steps.new) }
{
    let places = Places::of(alloc, old.ranked(), passed.planning.ranked())?;
    let Some(most) = old
        .ranked()
        .len()
        .checked_add(passed.planning.ranked().len())
    else {
        return Err(Memory);
    };
    let then = made_again(alloc, old, passed.before)?;
    let mut plans = BothPlans { then, passed };
    for _ in 0..most {
        let before = plans.passed.before;
        let index = plans.passed.index;
        plans = turn(alloc, old, plans, &places, now, steps)?;
        if plans.passed.before == before && plans.passed.index == index {
            return Ok(plans.passed);
        }
    }
    Ok(plans.passed)
}
