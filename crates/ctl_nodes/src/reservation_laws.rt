//! What holds of all that operators say of reservations. A law is the contract of a function that does nothing but call
//! the laws it rests on.

ghost use Rattle.std.specs.Prelude.{◌≡◌, ◌≢◌, ℕ, false, is_none, List, None};
ghost use Rattle.request_data.specs.declared.reservation.ReservationDesc.{ReservationDesc};
ghost use Rattle.node_state.specs.Reservations.{reservation_named};
ghost use Rattle.ctl_state.specs.Refusals.{first_refusal};
ghost use Rattle.ctl_state.specs.Soundness.{IsSound};
ghost use Rattle.ctl_state.specs.State.{State};
ghost use Rattle.ctl_nodes.specs.Reserving.{create_refusals, created, deleted};

use ctl_state::laws::reservations_keep_all_sound;
use node_state::reservation_laws::reservations_stay_apart;

/// A reservation that is made where nothing refuses it, or that is taken back, keeps all sound.
pub fn making_and_taking_reservations_keeps_all_sound()
    ensures creations { (s : State) (now : ℕ) (user : List ℕ) (desc : ReservationDesc) → IsSound s
        → first_refusal (create_refusals s now user desc) ≡ None → IsSound (created s desc) }
    ensures deletions { (s : State) (name : List ℕ) → IsSound s → IsSound (deleted s name) }
{
    reservations_keep_all_sound();
    reservations_stay_apart();
}

/// A reservation that is made, or that is taken back where there is one of its name, makes another state.
pub fn making_and_taking_reservations_changes_the_state()
    ensures creations { (s : State) (desc : ReservationDesc) → created s desc ≢ s }
    ensures deletions { (s : State) (name : List ℕ) → is_none (reservation_named name s.reservations) ≡ false
        → deleted s name ≢ s }
{}
