//! What holds of plans that are kept up. A law is the contract of a function that does nothing.

ghost use Rattle.std.specs.Prelude.{◌≡◌, ℕ, List};
ghost use Rattle.resource_profile.specs.declared.Hold.{Hold};
ghost use Rattle.resource_profile.specs.declared.NodeRoom.{NodeRoom};
ghost use Rattle.resource_profile.specs.Free.{room_at};
ghost use Rattle.backfill_planner.specs.Staying.{StaysFrom};
ghost use Rattle.plan_keeper.specs.Holding.{holds_from};
ghost use Rattle.plan_keeper.specs.Planner.{PlannerLaws};

use backfill_planner::laws::{
    counts_go_on, none_comes_to_fit, parts_are_on_own_nodes, placements_stay,
    placements_stay_before, plans_go_on,
};

// What the planner promises.
pub(crate) fn planner_laws()
    ensures { PlannerLaws }
{
    parts_are_on_own_nodes();
    placements_stay();
    placements_stay_before();
    plans_go_on();
    counts_go_on();
    none_comes_to_fit();
}

/// Where the room of a node is the same, and its holds that end later than now are the same list, each taken from the later
/// of its beginning and now, nothing of the node has changed from now on.
pub fn same_holds_stay()
    ensures { (rooms : List NodeRoom) (holds : List Hold) (new_rooms : List NodeRoom) (new_holds : List Hold)
        (now node : ℕ) → room_at new_rooms node ≡ room_at rooms node
        → holds_from now node new_holds ≡ holds_from now node holds
        → StaysFrom rooms holds new_rooms new_holds now node }
{}
