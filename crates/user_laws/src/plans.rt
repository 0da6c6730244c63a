//! What holds of every plan, as users see it.

ghost use Rattle.std.specs.Prelude.{◌≡◌, ◌≤◌, ◌<◌, ℕ, List, ◌∷◌, ◌++◌, length, take, slice_index_or, Any, Some};
ghost use Rattle.plain_data.specs.declared.job.JobDesc.{JobDesc};
ghost use Rattle.backfill_planner.specs.declared.Placed.{Placed};
ghost use Rattle.backfill_planner.specs.declared.job.PlanJob.{PlanJob};
ghost use Rattle.backfill_planner.specs.Bases.{BaseView};
ghost use Rattle.backfill_planner.specs.Plans.{holds_before, placement_of, plan_of};
ghost use Rattle.request_data.specs.declared.request.Request.TheVariants.{Submit};
ghost use Rattle.ctl_state.specs.Soundness.{IsSound};
ghost use Rattle.ctl_state.specs.State.{State, last_moment};
ghost use Rattle.ctl_core.specs.Step.{state_after};
ghost use Rattle.user_laws.specs.Planning.{AreOver, BeginsBy, FitsAlone, HoldNoMore, RoomsStay, plan_at, ranked_at};

use backfill_planner::laws::{lower_jobs_change_nothing, placements_are_first};
use ctl_node_side::laws::silence_keeps_all_sound;

/// A submission whose jobs rank below takes nobody's place: where the candidates of a later pass are those that there
/// would have been without it, in their order, with others behind them, the plan of that pass begins with the plan that
/// there would have been.
pub fn who_ranks_below_takes_no_place()
    ensures { (s : State) (now : ℕ) (user : List ℕ) (desc : JobDesc) (moment : ℕ) (lower : List PlanJob) → IsSound s
        → s.moment ≤ moment → moment ≤ last_moment
        → ranked_at (state_after s now user (Submit desc)) moment ≡ ranked_at s moment ++ lower
        → plan_at s moment
        ≡ take (length (plan_at s moment)) (plan_at (state_after s now user (Submit desc)) moment) }
{
    lower_jobs_change_nothing();
    silence_keeps_all_sound();
}

/// The first in rank never slips: while no node that plans may use is lost, and no more is held of any node from a later
/// plan's moment on, that plan begins the same first job no later, as long as its start hasn't passed. Nodes are told by
/// their places here: a slurm.conf that takes nodes away or puts them in another order in between is outside of it.
pub fn the_first_in_rank_never_slips()
    ensures { (base next : BaseView) (job : PlanJob) (ranked others : List PlanJob) (now moment : ℕ) (placed : Placed)
        → RoomsStay base.rooms next.rooms → HoldNoMore base.holds next.holds moment
        → placement_of base (job ∷ ranked) now 0 job ≡ Some placed → moment ≤ placed.start
        → placed.start ≤ next.horizon → BeginsBy placed.start (placement_of next (job ∷ others) moment 0 job) }
{
    placements_are_first();
}

/// A job that fits its nodes once all that is held before it, and all reservations against it, have ended within the
/// window is planned, by then at the latest.
pub fn who_fits_at_last_is_planned()
    ensures { (base : BaseView) (ranked : List PlanJob) (now place : ℕ) (job : PlanJob) (second : ℕ) (set : List ℕ)
        → place < length ranked → slice_index_or ranked place job ≡ job → now ≤ second → second ≤ base.horizon
        → AreOver (holds_before base ranked now place) job.barred second → FitsAlone base.rooms job second set
        → Any (λ (placed : Placed). (placed.id ≡ job.id) × (placed.start ≤ second)) (plan_of base ranked now) }
{
    placements_are_first();
}
