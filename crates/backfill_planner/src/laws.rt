// What holds of every plan. Each law is the contract of a function that does nothing.
ghost use Rattle.std.specs.Prelude.{◌≡◌, ◌≢◌, ℕ, ◌+◌, ◌≤◌, ◌<◌, List, [], ◌∷◌, ◌++◌, false, true, length, take, map, slice_index_or, option_to_list, is_some, Some, None, All, AllPairs, Contains};
ghost use Rattle.resource_profile.specs.declared.NodeRoom.{NodeRoom};
ghost use Rattle.resource_profile.specs.declared.Hold.{Hold};
ghost use Rattle.resource_profile.specs.Free.{room_at};
ghost use Rattle.resource_profile.specs.Profiles.{AreWithin};
ghost use Rattle.backfill_planner.specs.declared.Share.{Share};
ghost use Rattle.backfill_planner.specs.declared.Placed.{Placed};
ghost use Rattle.backfill_planner.specs.Giving.{window_end, is_barred};
ghost use Rattle.backfill_planner.specs.Placements.{FitsAt, IsPlacement, IsPlannable, IsOnRooms, AreParts, StartsFit};
ghost use Rattle.backfill_planner.specs.declared.job.Barred.{Barred};
ghost use Rattle.backfill_planner.specs.declared.job.PlanJob.{PlanJob};
ghost use Rattle.backfill_planner.specs.Bases.{BaseView};
ghost use Rattle.backfill_planner.specs.Plans.{AreCounted, holds_before, holds_of, placed_of, placement_of, plan_of, plan_holds_of};
ghost use Rattle.backfill_planner.specs.Lesser.{NoneBefore};
ghost use Rattle.backfill_planner.specs.Staying.{EndsInTime, IsNoFreer, IsOutside, StaysBefore, StaysFrom};
ghost use Rattle.backfill_planner.specs.LowerLaws.{LowerLaws};
ghost use Rattle.backfill_planner.specs.OneNode.{AsksSomeMem, HasRoomForAll, MayBeOneNode};

use plain_data::seconds::{FOREVER, LAST_START};
use resource_profile::laws::free_amounts_fit;
use resource_profile::pick_laws::{chosen_is_first, lesser_needs_fit};

// What the crates below promise.
pub(crate) fn lower_laws()
    ensures { LowerLaws }
{
    chosen_is_first();
    lesser_needs_fit();
    free_amounts_fit();
}

/// A job is placed at the least second at which some set of its nodes fits, on the chosen set there; it isn't placed
/// exactly where no set fits at any second.
pub fn placements_are_first()
    ensures some { (rooms : List NodeRoom) (holds : List Hold) (job : PlanJob) (lo hi : ℕ) (placed : Placed)
        → placed_of rooms holds job lo hi ≡ Some placed → IsPlacement rooms holds job lo hi placed }
    ensures none { (rooms : List NodeRoom) (holds : List Hold) (job : PlanJob) (lo hi second : ℕ) (set : List ℕ)
        → placed_of rooms holds job lo hi ≡ None → lo ≤ second → second ≤ hi → ¬ FitsAt rooms holds job second set }
{
    lower_laws();
}

/// Jobs that are ranked lower, or aren't there, change no placement: what the plan of the first jobs alone is, the plan
/// of the whole list begins with. So lists that agree on their first jobs have plans that agree on these.
pub fn lower_jobs_change_nothing()
    ensures { (base : BaseView) (ranked : List PlanJob) (now first : ℕ)
        → plan_of base (take first ranked) now
        ≡ take (length (plan_of base (take first ranked) now)) (plan_of base ranked now) }
{}

/// Each placement is of a ranked job, and begins from now to the horizon; where the ranked ids differ, so do those of
/// the placements.
pub fn placements_are_of_ranked_jobs()
    ensures ids { (base : BaseView) (ranked : List PlanJob) (now : ℕ)
        → All (λ (placed : Placed). Contains (map (λ (job : PlanJob). job.id) ranked) placed.id)
        (plan_of base ranked now) }
    ensures apart { (base : BaseView) (ranked : List PlanJob) (now : ℕ)
        → AllPairs (λ (one other : PlanJob). one.id ≢ other.id) ranked
        → AllPairs (λ (one other : Placed). one.id ≢ other.id) (plan_of base ranked now) }
    ensures starts { (base : BaseView) (ranked : List PlanJob) (now : ℕ)
        → All (λ (placed : Placed). (now ≤ placed.start) × (placed.start ≤ base.horizon)) (plan_of base ranked now) }
{
    lower_laws();
}

/// Each placement has its parts on nodes that there are and that differ, with a task and a processor at least on each.
/// Where each job has a task, each placement has a part.
pub fn parts_are_apart()
    ensures some { (base : BaseView) (ranked : List PlanJob) (now : ℕ)
        → All (λ (job : PlanJob). 1 ≤ job.need.tasks) ranked
        → All (λ (placed : Placed). 1 ≤ length placed.parts) (plan_of base ranked now) }
    ensures parts { (base : BaseView) (ranked : List PlanJob) (now : ℕ)
        → base.horizon ≤ LAST_START → All (IsOnRooms base.rooms) ranked → All IsPlannable ranked
        → All (λ (placed : Placed). AreParts base.rooms placed.parts) (plan_of base ranked now) }
{
    lower_laws();
}

/// At no second do what the base holds and what the placed jobs hold pass the room of a node.
pub fn plans_stay_within()
    ensures { (base : BaseView) (ranked : List PlanJob) (now : ℕ)
        → AreWithin base.rooms base.holds → base.horizon ≤ LAST_START
        → All (IsOnRooms base.rooms) ranked → All IsPlannable ranked
        → AreWithin base.rooms (base.holds ++ plan_holds_of base ranked now) }
{
    lower_laws();
}

/// So on each node, what the base holds at the plan's moment and what those placements take that begin at it fit into
/// the room.
pub fn starts_fit()
    ensures { (base : BaseView) (ranked : List PlanJob) (now : ℕ)
        → AreWithin base.rooms base.holds → base.horizon ≤ LAST_START
        → All (IsOnRooms base.rooms) ranked → All IsPlannable ranked
        → StartsFit base (plan_of base ranked now) now }
{
    lower_laws();
}

/// A placed job has no node at a time at which it may not have it.
pub fn placements_keep_out_of_barred_times()
    ensures { (rooms : List NodeRoom) (holds : List Hold) (job : PlanJob) (lo hi : ℕ) (placed : Placed)
        → placed_of rooms holds job lo hi ≡ Some placed
        → All (λ (share : Share).
        is_barred job.barred share.node placed.start (window_end job placed.start) ≡ false) placed.parts }
{
    lower_laws();
}

/// The parts of a placement are on nodes that the job may have.
pub fn parts_are_on_own_nodes()
    ensures { (rooms : List NodeRoom) (holds : List Hold) (job : PlanJob) (lo hi : ℕ) (placed : Placed)
        → placed_of rooms holds job lo hi ≡ Some placed
        → All (λ (share : Share). Contains job.nodes share.node) placed.parts }
{
    lower_laws();
}

/// Where nothing has changed from a moment on of the nodes that a job may have, its placement stands that begins no
/// earlier; and where it had none, no set fits before the seconds that weren't tried.
pub fn placements_stay()
    ensures some { (rooms : List NodeRoom) (holds : List Hold) (new_rooms : List NodeRoom) (new_holds : List Hold)
        (job : PlanJob) (before now last hi : ℕ) (placed : Placed)
        → EndsInTime job → before ≤ now → hi ≤ LAST_START
        → All (StaysFrom rooms holds new_rooms new_holds now) job.nodes
        → placed_of rooms holds job before last ≡ Some placed → now ≤ placed.start → placed.start ≤ hi
        → placed_of new_rooms new_holds job now hi ≡ Some placed }
    ensures none { (rooms : List NodeRoom) (holds : List Hold) (new_rooms : List NodeRoom) (new_holds : List Hold)
        (job : PlanJob) (before now last : ℕ)
        → EndsInTime job → before ≤ now → All (StaysFrom rooms holds new_rooms new_holds now) job.nodes
        → placed_of rooms holds job before last ≡ None → NoneBefore new_rooms new_holds job now (last + 1) }
    ensures nowhere { (rooms : List NodeRoom) (holds : List Hold) (job : PlanJob) (now last hi : ℕ)
        → hi ≤ last → hi ≤ LAST_START → NoneBefore rooms holds job now (last + 1)
        → placed_of rooms holds job now hi ≡ None }
{
    lower_laws();
}

/// Where as much is free of the nodes that a job may have at each second from a moment on and before one by which its
/// window ends, its placement stands that begins no earlier than the moment. Where no more is free of them up to there,
/// no set fits before it; and where no more is free of them ever, and it had none, none fits before the seconds that
/// weren't tried.
pub fn placements_stay_before()
    ensures some { (rooms : List NodeRoom) (holds : List Hold) (new_rooms : List NodeRoom) (new_holds : List Hold)
        (job : PlanJob) (before now last hi until : ℕ) (placed : Placed)
        → before ≤ now → hi ≤ LAST_START → All (StaysBefore rooms holds new_rooms new_holds now until) job.nodes
        → placed_of rooms holds job before last ≡ Some placed → now ≤ placed.start → placed.start ≤ hi
        → placed.start < until → window_end job placed.start ≤ until
        → placed_of new_rooms new_holds job now hi ≡ Some placed }
    ensures no_earlier { (rooms : List NodeRoom) (holds : List Hold) (new_rooms : List NodeRoom) (new_holds : List Hold)
        (job : PlanJob) (before now last until : ℕ) (placed : Placed)
        → before ≤ now → All (IsNoFreer rooms holds new_rooms new_holds now until) job.nodes
        → placed_of rooms holds job before last ≡ Some placed
        → placed.start ≤ until → window_end job placed.start ≤ until
        → NoneBefore new_rooms new_holds job now placed.start }
    ensures none { (rooms : List NodeRoom) (holds : List Hold) (new_rooms : List NodeRoom) (new_holds : List Hold)
        (job : PlanJob) (before now last : ℕ)
        → EndsInTime job → before ≤ now → All (IsNoFreer rooms holds new_rooms new_holds now FOREVER) job.nodes
        → placed_of rooms holds job before last ≡ None → NoneBefore new_rooms new_holds job now (last + 1) }
{
    lower_laws();
}

/// Where no set fits at the seconds that were tried, and nothing that is held and no barred time ends at one of the seconds
/// behind them, the job has no placement up to there either.
pub fn none_comes_to_fit()
    ensures { (rooms : List NodeRoom) (holds : List Hold) (job : PlanJob) (now last hi : ℕ)
        → now ≤ last → hi ≤ LAST_START → last < window_end job last → NoneBefore rooms holds job now (last + 1)
        → All (λ (hold : Hold). IsOutside last hi hold.until) holds
        → All (λ (time : Barred). IsOutside last hi time.until) job.barred
        → placed_of rooms holds job now hi ≡ None }
{
    lower_laws();
}

/// The plan of one job more is the plan of those before it and its own placement, beside what these hold.
pub fn plans_go_on()
    ensures holds { (base : BaseView) (ranked : List PlanJob) (now place : ℕ) (job : PlanJob)
        → place < length ranked → slice_index_or ranked place job ≡ job
        → holds_before base ranked now (place + 1)
        ≡ holds_before base ranked now place ++ holds_of job (placement_of base ranked now place job) }
    ensures plan { (base : BaseView) (ranked : List PlanJob) (now place : ℕ) (job : PlanJob)
        → place < length ranked → slice_index_or ranked place job ≡ job
        → plan_of base (take (place + 1) ranked) now
        ≡ plan_of base (take place ranked) now ++ option_to_list (placement_of base ranked now place job) }
{}

/// How many placements the jobs have up to each place, with one job more.
pub fn counts_go_on()
    ensures { (base : BaseView) (ranked : List PlanJob) (now done : ℕ) (counts : List ℕ) (more : ℕ)
        → AreCounted base ranked now done counts → more ≡ length (plan_of base (take (done + 1) ranked) now)
        → AreCounted base ranked now (done + 1) (counts ++ more ∷ []) }
{}

/// Where nothing is held and nothing is barred, a job begins at once that one node may be enough for, if one of its nodes
/// has room for all its tasks together.
pub fn one_node_is_enough()
    ensures { (rooms : List NodeRoom) (job : PlanJob) (node : ℕ)
        → job.barred ≡ [] → 1 ≤ job.cpus_per_task → AsksSomeMem job.mem_ask → MayBeOneNode job.need
        → Contains job.nodes node → HasRoomForAll (room_at rooms node) job
        → is_some (placed_of rooms [] job 0 0) ≡ true }
{
    lower_laws();
}
