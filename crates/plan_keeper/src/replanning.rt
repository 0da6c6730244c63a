//! Planning over an older plan.

ghost use Rattle.std.specs.Prelude.{◌≡◌, ◌↔◌, ◌≤◌, ◌<◌, ◌+◌, ◌++◌, ℕ, Bool, nat_eq, length, drop, replicate, slice_index_or, true, false, IfOk, OnOk, IfSome, IfNone, Some, None, All};
ghost use Rattle.std.specs.HashMap.{get};
ghost use Rattle.resource_profile.specs.Counts.{IsTickedUpTo};
ghost use Rattle.resource_profile.specs.Profiles.{AreWithin};
ghost use Rattle.backfill_planner.specs.declared.Placed.{Placed};
ghost use Rattle.backfill_planner.specs.declared.job.PlanJob.{PlanJob as AJob};
ghost use Rattle.backfill_planner.specs.Placements.{IsPlannable, AreParts, StartsFit};
ghost use Rattle.backfill_planner.specs.Plans.{plan_of, plan_holds_of};
ghost use Rattle.plan_keeper.specs.Steady.{AreSteady, others};
ghost use Rattle.plan_keeper.specs.Marks.{met_from, AreCounts, AreMarks, IsListed};
ghost use Rattle.plan_keeper.specs.Kept.{HasBegun};
ghost use Rattle.plan_keeper.specs.Passing.{IsPassed};
ghost use Rattle.plan_keeper.specs.Turns.{IsNext, IsFound, IsStepped, HasStepped};
ghost use Rattle.plain_data.specs.declared.seconds.TheConstants.{FOREVER};

use crate::beginning::{Beginning, begin};
use crate::both_plans::{Passed, begun_passed, pass_both};
use crate::finding::{Found, find_again, find_anew};
use crate::kept::Kept;
use crate::laws::planner_laws;
use crate::marks::Marks;
use crate::old_list::OldList;
use crate::same_job::tell_ends_in_time;
use crate::same_plan::{is_made_of, plan_again, plan_standing};
use crate::staying::{There, settle};
use crate::unchanged::Unchanged;
use crate::unmoved::counts_where_all_stand;
use backfill_planner::{Base, PlanJob, Planned, Planning, plan};
use resource_profile::Steps;
use small_texts::memory_error::Memory;
use std::alloc::Global;

// The placement of the next job.
fn find<L>(
    alloc: Global,
    old: &Planned,
    list: &OldList,
    marks: &Marks,
    planning: &Planning,
    index: usize,
    now: u64,
    steps: &mut Steps<L>,
) -> Result<Found, Memory>
    requires listed { IsListed (drop list.now.first old.now.ranked) (get nat_eq list.now.places) list.now.depths.items }
    requires index { index ≡ planning.now.done }
    requires more { planning.now.done < length planning.now.ranked }
    requires now { now ≡ planning.now.moment }
    requires later { old.now.moment ≤ now }
    requires marks { AreMarks old.now planning.now.base planning.now.ranked planning.now.moment planning.now.done
        marks.now.unchanged.nodes.items (met_from list.now.first marks.now.met.items) }
    requires counts { AreCounts old.now.ranked planning.now.ranked list.now.first planning.now.done
        (length planning.now.base.rooms) marks.now.unchanged.nodes.items marks.now.counts.items marks.now.met.items }
    ensures placed { IfOk result (λ found. IsNext planning.now found.placed) }
    ensures before { IfOk result (λ found. IsFound old.now planning.now
        marks.now.unchanged.nodes.items (met_from list.now.first marks.now.met.items) found.before) }
    ensures steps { IsStepped old.now planning.now steps.old steps.new }
{
    planner_laws();
    let job = &planning.ranked()[index];
    tell_ends_in_time(job);
    let rest = old.ranked().split_at(list.first).1;
    match marks.place_of(rest, list, job, now)? {
        Some(place) => find_again(alloc, old, list.first + place, planning, now, steps),
        None => {
            let found = find_anew(alloc, planning, now, steps)?;
            Ok(found)
        }
    }
}

// A place behind the first jobs, counted from there.
fn behind(before: Option<usize>, first: usize) -> Option<usize>
    requires { IfSome before (λ before. first ≤ before) }
    ensures some { IfSome result (λ place. before ≡ Some (first + place)) }
    ensures none { IfNone result (before ≡ None) }
{
    match before {
        Some(before) => Some(before - first),
        None => None,
    }
}

// The next job gets its placement, and the marks go on.
fn turn<L>(
    alloc: Global,
    old: &Planned,
    list: &OldList,
    marks: &mut Marks,
    planning: Planning,
    index: usize,
    now: u64,
    steps: &mut Steps<L>,
) -> Result<Planning, Memory>
    requires listed { IsListed (drop list.now.first old.now.ranked) (get nat_eq list.now.places) list.now.depths.items }
    requires index { index ≡ planning.done }
    requires more { planning.done < length planning.ranked }
    requires now { now ≡ planning.moment }
    requires later { old.now.moment ≤ now }
    requires marks { AreMarks old.now planning.base planning.ranked planning.moment planning.done
        marks.old.unchanged.nodes.items (met_from list.now.first marks.old.met.items) }
    requires counts { AreCounts old.now.ranked planning.ranked list.now.first planning.done
        (length planning.base.rooms) marks.old.unchanged.nodes.items marks.old.counts.items marks.old.met.items }
    ensures next { IfOk result (λ next. next ≡ record planning { done = planning.done + 1 }) }
    ensures marks { OnOk result (AreMarks old.now planning.base planning.ranked planning.moment (planning.done + 1)
        marks.new.unchanged.nodes.items (met_from list.now.first marks.new.met.items)) }
    ensures counts { OnOk result (AreCounts old.now.ranked planning.ranked list.now.first (planning.done + 1)
        (length planning.base.rooms) marks.new.unchanged.nodes.items marks.new.counts.items marks.new.met.items) }
    ensures steps { IsStepped old.now planning steps.old steps.new }
{
    planner_laws();
    let found = find(alloc, old, list, marks, &planning, index, now, steps)?;
    let place = behind(found.before, list.first);
    marks.go_on(&planning.ranked()[index], place)?;
    let there = There {
        placed: found.placed,
        searched: place.is_none(),
    };
    settle(planning, there)
}

// What is marked where the lists part for good.
fn rest_marks(
    alloc: Global,
    kept: &Kept,
    level: &Unchanged,
    nodes: usize,
    rest: usize,
) -> Result<Marks, Memory>
    requires { length level.now.nodes.items ≡ length kept.now.same.seconds.items }
    ensures long { IfOk result (λ marks. length marks.unchanged.nodes.items ≡ length kept.now.same.seconds.items) }
    ensures unchanged { IfOk result (λ marks. (node : ℕ) (d : Bool) → node < length kept.now.same.seconds.items
        → (slice_index_or marks.unchanged.nodes.items node d ≡ true)
        ↔ ((FOREVER ≤ slice_index_or kept.now.same.seconds.items node 0)
        × (slice_index_or level.now.nodes.items node false ≡ true))) }
    ensures counts { IfOk result (λ marks. marks.counts.items ≡ replicate nodes 0) }
    ensures met { IfOk result (λ marks. marks.met.items ≡ replicate rest false) }
{
    let unchanged = Unchanged::of_seconds(alloc, kept.same.seconds.as_slice(), level)?;
    let counts = vec![in alloc; 0; nodes]?;
    let met = vec![in alloc; false; rest]?;
    Ok(Marks {
        unchanged,
        counts,
        met,
    })
}

// The plan whose jobs are planned up to where the lists part for good.
fn plan_behind<L>(
    alloc: Global,
    old: &Planned,
    passed: Passed,
    now: u64,
    steps: &mut Steps<L>,
) -> Result<Planned, Memory>
    requires passed { IsPassed old.now passed }
    requires now { now ≡ passed.planning.moment }
    requires later { old.now.moment ≤ now }
    ensures parts { IfOk result (λ planned. planned
        ≡ record { base = passed.planning.base; ranked = passed.planning.ranked; moment = passed.planning.moment }) }
    ensures jobs { OnOk result (All IsPlannable passed.planning.ranked) }
    ensures within { OnOk result (AreWithin passed.planning.base.rooms (passed.planning.base.holds
        ++ plan_holds_of passed.planning.base passed.planning.ranked passed.planning.moment)) }
    ensures starts_fit { OnOk result (StartsFit passed.planning.base
        (plan_of passed.planning.base passed.planning.ranked passed.planning.moment) passed.planning.moment) }
    ensures apart { OnOk result (All (λ (placed : Placed). AreParts passed.planning.base.rooms placed.parts)
        (plan_of passed.planning.base passed.planning.ranked passed.planning.moment)) }
    ensures steps { (start : ℕ) → HasStepped old.now passed.planning.base passed.planning.ranked passed.planning.moment
        passed.index start steps.old → HasStepped old.now passed.planning.base passed.planning.ranked
        passed.planning.moment (length passed.planning.ranked) start steps.new }
{
    planner_laws();
    let Passed {
        mut planning,
        index: first,
        before,
        kept,
        level,
    } = passed;
    let jobs = planning.ranked().len();
    if first == jobs {
        return Ok(planning.finish());
    }
    let list = OldList::of(alloc, old, before)?;
    let nodes = planning.base().rooms.as_slice().len();
    let mut marks = rest_marks(alloc, &kept, &level, nodes, old.ranked().len() - before)?;
    for index in first..jobs {
        planning = turn(alloc, old, &list, &mut marks, planning, index, now, steps)?;
    }
    Ok(planning.finish())
}

// The plan whose first jobs are planned, up to where the lists part.
fn plan_rest<L>(
    alloc: Global,
    old: &Planned,
    begun: Beginning,
    now: u64,
    steps: &mut Steps<L>,
) -> Result<Planned, Memory>
    requires first { begun.first ≡ begun.planning.done }
    requires now { now ≡ begun.planning.moment }
    requires later { old.now.moment ≤ now }
    requires begun { HasBegun old.now begun.planning
        begun.kept.same.seconds.items begun.kept.no_freer.seconds.items }
    ensures parts { IfOk result (λ planned. planned
        ≡ record { base = begun.planning.base; ranked = begun.planning.ranked; moment = begun.planning.moment }) }
    ensures jobs { OnOk result (All IsPlannable begun.planning.ranked) }
    ensures within { OnOk result (AreWithin begun.planning.base.rooms (begun.planning.base.holds
        ++ plan_holds_of begun.planning.base begun.planning.ranked begun.planning.moment)) }
    ensures starts_fit { OnOk result (StartsFit begun.planning.base
        (plan_of begun.planning.base begun.planning.ranked begun.planning.moment) begun.planning.moment) }
    ensures apart { OnOk result (All (λ (placed : Placed). AreParts begun.planning.base.rooms placed.parts)
        (plan_of begun.planning.base begun.planning.ranked begun.planning.moment)) }
    ensures steps { (start : ℕ) → HasStepped old.now begun.planning.base begun.planning.ranked begun.planning.moment
        begun.first start steps.old → HasStepped old.now begun.planning.base begun.planning.ranked
        begun.planning.moment (length begun.planning.ranked) start steps.new }
{
    let first = begun.first;
    let ends = first == begun.planning.ranked().len() || first == old.ranked().len();
    let passed = begun_passed(alloc, begun)?;
    if ends {
        return plan_behind(alloc, old, passed, now, steps);
    }
    let passed = pass_both(alloc, old, passed, now, steps)?;
    plan_behind(alloc, old, passed, now, steps)
}

// The plan of the ranked jobs at this moment over an older plan of no later one.
fn plan_over<L>(
    alloc: Global,
    old: &Planned,
    base: Base,
    ranked: Vec<PlanJob>,
    now: u64,
    steps: &mut Steps<L>,
) -> Result<Planned, Memory>
    requires nodes { All (λ (job : AJob). All (λ node. node < length base.rooms) job.nodes) ranked.items }
    requires later { old.now.moment ≤ now }
    ensures parts { IfOk result (λ planned. planned ≡ record { base = base; ranked = ranked.items; moment = now }) }
    ensures jobs { OnOk result (All IsPlannable ranked.items) }
    ensures within { OnOk result (AreWithin base.rooms (base.holds ++ plan_holds_of base ranked.items now)) }
    ensures starts_fit { OnOk result (StartsFit base (plan_of base ranked.items now) now) }
    ensures apart { OnOk result
        (All (λ (placed : Placed). AreParts base.rooms placed.parts) (plan_of base ranked.items now)) }
    ensures steps { HasStepped old.now base ranked.items now (length ranked.items) steps.old steps.new }
{
    let planning = Planning::new(alloc, base, ranked, now)?;
    let begun = begin(alloc, old, planning, now, steps)?;
    plan_rest(alloc, old, begun, now, steps)
}

/// The plan of the ranked jobs at this moment, exactly as `backfill_planner::plan` makes it from nothing, over an older
/// plan of whatever moment, nodes and jobs. It counts a step for each job that it searches for, at most one for each of
/// the new list, and none for a steady one: a job which stands in the old list too, on nodes of which nothing has changed,
/// below the same jobs that may have them; nor any where the older plan was made of the same, or where each job keeps what it had. Linear in the nodes and times
/// of all jobs of both lists besides, where times differ in the nodes for each time, and in the holds of both bases; each
/// job that is in the new list no more costs a look at all nodes.
pub fn replan<L>(
    alloc: Global,
    old: &Planned,
    base: Base,
    ranked: Vec<PlanJob>,
    now: u64,
    steps: &mut Steps<L>,
) -> Result<Planned, Memory>
    requires nodes { All (λ (job : AJob). All (λ node. node < length base.rooms) job.nodes) ranked.items }
    ensures parts { IfOk result (λ planned. planned ≡ record { base = base; ranked = ranked.items; moment = now }) }
    ensures jobs { OnOk result (All IsPlannable ranked.items) }
    ensures within { OnOk result (AreWithin base.rooms (base.holds ++ plan_holds_of base ranked.items now)) }
    ensures starts_fit { OnOk result (StartsFit base (plan_of base ranked.items now) now) }
    ensures apart { OnOk result
        (All (λ (placed : Placed). AreParts base.rooms placed.parts) (plan_of base ranked.items now)) }
    ensures most_steps { IsTickedUpTo (length ranked.items) steps.old steps.new }
    ensures steps { (steady : ℕ → Bool) → AreSteady old.now base ranked.items now steady
        → IsTickedUpTo (others steady (length ranked.items)) steps.old steps.new }
    ensures again { old.now ≡ record { base = base; ranked = ranked.items; moment = now } → steps.new ≡ steps.old }
{
    if now < old.now() {
        return plan(alloc, base, ranked, now, steps);
    }
    if is_made_of(old, &base, ranked.as_slice(), now) {
        return plan_again(alloc, old);
    }
    match counts_where_all_stand(alloc, old, &base, ranked.as_slice(), now)? {
        Some(counts) => plan_standing(alloc, old, base, ranked, now, counts),
        None => plan_over(alloc, old, base, ranked, now, steps),
    }
}
