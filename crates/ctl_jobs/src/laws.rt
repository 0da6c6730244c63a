//! What holds of all that users do to jobs. A law is the contract of a function that does nothing but call the laws it
//! rests on.

ghost use Rattle.std.specs.Prelude.{◌≡◌, ℕ, ◌≤◌, Bool, List, false};
ghost use Rattle.std.specs.List.{list_any};
ghost use Rattle.job_table.specs.declared.record.JobRecord.{JobRecord};
ghost use Rattle.ctl_state.specs.State.{State, last_moment};
ghost use Rattle.ctl_state.specs.Soundness.{IsSound};
ghost use Rattle.ctl_state.specs.Verdicts.{stamped};
ghost use Rattle.ctl_jobs.specs.declared.action.Action.{Action};
ghost use Rattle.ctl_jobs.specs.Changing.{IsAction, change_after, goes};

use ctl_state::laws::{
    changing_keeps_all_sound, charging_keeps_all_sound, every_change_but_a_start_lets_go,
    jobs_are_kept,
};
use job_table::laws::who_leaves_is_charged;

/// What users do to jobs keeps all sound.
pub fn what_users_do_keeps_all_sound()
    ensures { (s : State) (now : ℕ) (user : List ℕ) (action : Action) (named : JobRecord → Bool)
        → IsSound s → IsAction action → s.moment ≤ now → now ≤ last_moment
        → IsSound (stamped now (change_after s now user action named)) }
{
    changing_keeps_all_sound();
    charging_keeps_all_sound();
    every_change_but_a_start_lets_go();
    jobs_are_kept();
}

/// It changes nothing exactly where no job changes.
pub fn where_no_job_changes_nothing_does()
    ensures idle { (s : State) (now : ℕ) (user : List ℕ) (action : Action) (named : JobRecord → Bool) → IsSound s
        → list_any (goes s user action named) s.jobs ≡ false → change_after s now user action named ≡ s }
    ensures only { (s : State) (now : ℕ) (user : List ℕ) (action : Action) (named : JobRecord → Bool)
        → change_after s now user action named ≡ s → list_any (goes s user action named) s.jobs ≡ false }
{
    who_leaves_is_charged();
}
