//! What holds of all that operators say of nodes. A law is the contract of a function that does nothing but call the
//! laws it rests on.

ghost use Rattle.std.specs.Prelude.{◌≡◌, ℕ, ◌≤◌, Bool, List, map, All, false};
ghost use Rattle.request_data.specs.declared.request.NodeOrder.{NodeOrder};
ghost use Rattle.job_table.specs.declared.record.JobRecord.{JobRecord};
ghost use Rattle.job_table.specs.declared.record.Part.{Part};
ghost use Rattle.ctl_state.specs.Holding.{parts_of};
ghost use Rattle.ctl_state.specs.Soundness.{IsSound};
ghost use Rattle.ctl_state.specs.State.{State, last_moment};
ghost use Rattle.ctl_state.specs.Verdicts.{stamped};
ghost use Rattle.ctl_nodes.specs.Failing.{after_loss, loses, lost_after};
ghost use Rattle.ctl_nodes.specs.Updating.{changes_any, update_after};

use ctl_state::laws::{
    changing_keeps_all_sound, charging_keeps_all_sound, every_change_but_a_start_lets_go,
    jobs_are_kept, nodes_that_stay_keep_all_sound,
};
use job_table::laws::who_leaves_is_charged;
use node_state::laws::a_change_leaves_the_confs;

/// The loss of nodes keeps all sound, and nothing is held of them any more.
pub fn lost_nodes_keep_all_sound()
    ensures sound { (s : State) (now : ℕ) (lost : ℕ → Bool) → IsSound s → s.moment ≤ now → now ≤ last_moment
        → IsSound (stamped now (lost_after s now lost)) }
    ensures free { (s : State) (now : ℕ) (lost : ℕ → Bool) → IsSound s
        → All (λ (part : Part). lost part.node ≡ false) (parts_of (map (after_loss now lost) s.jobs)) }
{
    changing_keeps_all_sound();
    charging_keeps_all_sound();
    every_change_but_a_start_lets_go();
    jobs_are_kept();
}

/// Which nodes are lost is all that counts.
pub fn the_same_nodes_are_lost_alike()
    ensures { (s : State) (now : ℕ) (lost other : ℕ → Bool) → ((place : ℕ) → lost place ≡ other place)
        → lost_after s now lost ≡ lost_after s now other }
{}

/// A job that holds nothing of the lost nodes stays as it is, and each keeps its number.
pub fn others_stay_where_nodes_are_lost()
    ensures stays { (now : ℕ) (lost : ℕ → Bool) (job : JobRecord) → loses lost job ≡ false
        → after_loss now lost job ≡ job }
    ensures number { (now : ℕ) (lost : ℕ → Bool) (job : JobRecord) → (after_loss now lost job).id ≡ job.id }
{}

/// What operators say of nodes keeps all sound.
pub fn updating_nodes_keeps_all_sound()
    ensures { (s : State) (now : ℕ) (names : List (List ℕ)) (state : NodeOrder) → IsSound s → s.moment ≤ now
        → now ≤ last_moment → IsSound (stamped now (update_after s now names state)) }
{
    lost_nodes_keep_all_sound();
    nodes_that_stay_keep_all_sound();
    a_change_leaves_the_confs();
}

/// An order to nodes changes nothing exactly where it makes another one of no node that it names.
pub fn an_idle_order_changes_nothing()
    ensures idle { (s : State) (now : ℕ) (names : List (List ℕ)) (state : NodeOrder) → IsSound s
        → changes_any s names state ≡ false → update_after s now names state ≡ s }
    ensures only { (s : State) (now : ℕ) (names : List (List ℕ)) (state : NodeOrder)
        → update_after s now names state ≡ s → changes_any s names state ≡ false }
{
    who_leaves_is_charged();
}
