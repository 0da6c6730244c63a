// What holds of everyone that goes. Each law is the contract of a function that does nothing.
ghost use Rattle.std.specs.Prelude.{◌≡◌, ℕ, ◌<◌, List, [], true, false, is_some, if◌then◌else◌, length, Some, None, All, AllPairs};
ghost use Rattle.resource_profile.specs.declared.NodeRoom.{NodeRoom};
ghost use Rattle.resource_profile.specs.declared.Hold.{Hold};
ghost use Rattle.backfill_planner.specs.declared.job.PlanJob.{PlanJob};
ghost use Rattle.backfill_planner.specs.Plans.{placement_at};
ghost use Rattle.backfill_planner.specs.Placements.{FitsAt};
ghost use Rattle.backfill_planner.specs.Going.{first_places, without, held_without, suffices, victims_of};
ghost use Rattle.backfill_planner.specs.Sufficing.{PickLaws};

use resource_profile::pick_laws::chosen_is_first;

// What the choice of nodes promises.
pub(crate) fn pick_laws()
    ensures { PickLaws }
{
    chosen_is_first();
}

/// Some of them suffice exactly where a set of the job's nodes fits it at the moment, beside what is held once they go.
pub fn what_suffices_is_that_a_set_fits()
    ensures some { (rooms : List NodeRoom) (stay : List Hold) (going : List (List Hold)) (job : PlanJob) (now : ℕ)
        (gone : List ℕ) → suffices rooms stay going job now gone ≡ true
        → (set : List ℕ) × FitsAt rooms (held_without stay going gone) job now set }
    ensures none { (rooms : List NodeRoom) (stay : List Hold) (going : List (List Hold)) (job : PlanJob) (now : ℕ)
        (gone set : List ℕ) → suffices rooms stay going job now gone ≡ false
        → ¬ FitsAt rooms (held_without stay going gone) job now set }
{
    pick_laws();
}

/// Once those go that go, the job fits; were any one of them given back, it wouldn't. So nobody goes without need.
pub fn nobody_goes_without_need()
    ensures enough { (rooms : List NodeRoom) (stay : List Hold) (going : List (List Hold)) (job : PlanJob) (now : ℕ)
        (gone : List ℕ) → victims_of rooms stay going job now ≡ Some gone
        → suffices rooms stay going job now gone ≡ true }
    ensures needed { (rooms : List NodeRoom) (stay : List Hold) (going : List (List Hold)) (job : PlanJob) (now : ℕ)
        (gone : List ℕ) → victims_of rooms stay going job now ≡ Some gone
        → All (λ place. suffices rooms stay going job now (without place gone) ≡ false) gone }
{
    pick_laws();
}

/// Those that go are some of those that might, in their order.
pub fn victims_are_in_order()
    ensures rising { (rooms : List NodeRoom) (stay : List Hold) (going : List (List Hold)) (job : PlanJob) (now : ℕ)
        (gone : List ℕ) → victims_of rooms stay going job now ≡ Some gone
        → AllPairs (λ one other. one < other) gone }
    ensures within { (rooms : List NodeRoom) (stay : List Hold) (going : List (List Hold)) (job : PlanJob) (now : ℕ)
        (gone : List ℕ) → victims_of rooms stay going job now ≡ Some gone
        → All (λ place. place < length going) gone }
{
    pick_laws();
}

/// None exactly where even all of them don't suffice.
pub fn none_go_where_all_do_not_suffice()
    ensures none { (rooms : List NodeRoom) (stay : List Hold) (going : List (List Hold)) (job : PlanJob) (now : ℕ)
        → suffices rooms stay going job now (first_places (length going)) ≡ false
        → victims_of rooms stay going job now ≡ None }
    ensures lacks { (rooms : List NodeRoom) (stay : List Hold) (going : List (List Hold)) (job : PlanJob) (now : ℕ)
        → victims_of rooms stay going job now ≡ None
        → suffices rooms stay going job now (first_places (length going)) ≡ false }
{
    pick_laws();
}

/// Where nobody might go, nobody needs to exactly where the job fits as it is.
pub fn nobody_goes_where_nobody_might()
    ensures { (rooms : List NodeRoom) (stay : List Hold) (job : PlanJob) (now : ℕ)
        → victims_of rooms stay [] job now ≡ (if is_some (placement_at rooms stay job now) then Some [] else None) }
{
    pick_laws();
}
