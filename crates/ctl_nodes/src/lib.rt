//! What operators say of nodes, and what becomes of the jobs of nodes that are lost; what they say of reservations.
//! "update" and "RESERVATIONS" in scontrol(1).
#![tactic(auto)]

mod failing;
mod holding;
pub mod laws;
mod names;
mod places;
pub mod reservation_laws;
mod reserving;
mod updating;

pub use failing::{lose, loses};
pub use names::{change_places, places_of};
pub use reserving::{create, delete, refusal_of_creation, refusal_of_deletion};
pub use updating::{changes_any, refusal_of, update};
