//! What holds of all reservations. A law is the contract of a function that does nothing.

ghost use Rattle.node_state.specs.ReservationLaws;

/// Fewer reservations, and one that fits beside the others, are reservations again; those that last at a moment are
/// those that last at it of those that last.
pub fn reservations_stay_apart()
    ensures fewer { ReservationLaws.Fewer }
    ensures one_more { ReservationLaws.OneMore }
    ensures lasting { ReservationLaws.LastingTwice }
{}
