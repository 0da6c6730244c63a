//! What follows from what a worker did, for histories that may be longer than what its desk has seen. Each law is the
//! contract of a function that does nothing.

ghost use Rattle.std.specs.Prelude.{◌≡◌, ◌≢◌, ℕ, ◌-◌, ◌^◌, ◌<◌, ◌≤◌, ◌++◌, List, [], length, slice_get, All, Any, Some, IfSome};
ghost use Rattle.slurm_net.specs.Course.{FollowsCourse, first_moments};
ghost use Rattle.turn_lock.specs.Views.{StartsWith};
ghost use Rattle.ctl_desk.specs.declared.entry.Entry.{Entry};
ghost use Rattle.ctl_desk.specs.Desk.{Sight, GoesOn, seen};
ghost use Rattle.ctl_desk.specs.History.{of_session};
ghost use Rattle.ctl_session.specs.Clock.{Timing, Gives};
ghost use Rattle.ctl_server.specs.declared.working.WorkerEnd.{WorkerEnd};
ghost use Rattle.ctl_server.specs.Serving.{Serving, cut_of, moments_of, readings_of, sessions_in};
ghost use Rattle.ctl_server.specs.Standing.{Standing};
ghost use Rattle.ctl_server.specs.Run.{Follow};
ghost use Rattle.ctl_server.specs.Cause.{EndWell};
ghost use Rattle.ctl_server.specs.Worked.{IsWorked};
ghost use Rattle.ctl_server.specs.Served.{Served, KeepsServed, entries_within, IsWithin};

/// Connections that followed one another stand in each history that begins with what their desk has seen in the end.
/// None of their cuts begins before the end of what it had seen first.
pub fn connections_stand_in_histories()
    ensures served { (desk desk' : Sight) (clock clock' : Timing) (servings : List Serving) (history : List Entry)
        → Follow desk clock servings desk' clock' → StartsWith history (seen desk')
        → Served desk.number desk.opening history (moments_of servings) servings }
    ensures begin { (desk desk' : Sight) (clock clock' : Timing) (servings : List Serving)
        → Follow desk clock servings desk' clock'
        → All (λ serving. length (seen desk) ≤ (cut_of serving).before) servings }
    ensures goes_on { (desk desk' : Sight) (clock clock' : Timing) (servings : List Serving)
        → Follow desk clock servings desk' clock' → GoesOn desk desk' }
{}

/// Their desk made the entries within their cuts that bear its number, and no other. Where the desk has seen all
/// entries of the history that bear its number, each of them was seen before the first connection, or stands within a
/// cut.
pub fn entries_stand_within_cuts()
    ensures own { (desk desk' : Sight) (clock clock' : Timing) (servings : List Serving) (history : List Entry)
        → Follow desk clock servings desk' clock' → StartsWith history (seen desk')
        → desk'.mine ≡ desk.mine ++ entries_within desk.number history (sessions_in servings) }
    ensures within { (desk desk' : Sight) (clock clock' : Timing) (servings : List Serving) (history : List Entry)
        → Follow desk clock servings desk' clock' → StartsWith history (seen desk')
        → of_session desk.number history ≡ of_session desk.number (seen desk')
        → (place : ℕ) (entry : Entry) → length (seen desk) ≤ place → slice_get history place ≡ Some entry
        → entry.session ≡ desk.number → Any (IsWithin place) (sessions_in servings) }
    ensures all_within { (desk desk' : Sight) (clock clock' : Timing) (servings : List Serving) (history : List Entry)
        → Follow desk clock servings desk' clock' → StartsWith history (seen desk')
        → of_session desk.number history ≡ of_session desk.number (seen desk')
        → of_session desk.number (seen desk) ≡ []
        → (place : ℕ) (entry : Entry) → slice_get history place ≡ Some entry
        → entry.session ≡ desk.number → Any (IsWithin place) (sessions_in servings) }
{}

/// Where no read and no write of a link failed, its session ended by its bytes or by a shutdown. The last session of a
/// worker that ended for want of memory ended by that.
pub fn sessions_end_well()
    ensures { (old new : Standing) (end : WorkerEnd) (servings : List Serving)
        → IsWorked old new (Some end) servings → EndWell end servings }
{}

/// What a worker's door keeps of its connections, where the worker did not end for want of memory.
pub fn doors_keep_what_was_served()
    ensures { (old new : Standing) (end : WorkerEnd) (servings : List Serving) (history : List Entry)
        → IsWorked old new (Some end) servings → end ≢ WorkerEnd.Memory → StartsWith history (seen new.desk)
        → KeepsServed old.desk.number old.desk.opening history (moments_of servings) (sessions_in servings) }
{}

/// The clock gave as many moments as the cuts say. Those of a new clock that tells its course are the first ones of it.
pub fn moments_are_the_first_of_a_course()
    ensures count { (desk desk' : Sight) (clock clock' : Timing) (servings : List Serving)
        → Follow desk clock servings desk' clock'
        → length (moments_of servings) ≡ readings_of (sessions_in servings) }
    ensures course { (clock clock' : Timing) (given : List ℕ)
        → Gives clock clock' given → clock.moments ≡ Some [] → FollowsCourse clock'.course clock'.moments
        → length given < 2 ^ 64 - 1
        → IfSome clock.course (λ course. given ≡ first_moments course (length given)) }
{}
