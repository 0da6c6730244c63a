//! The side of a command that speaks to a server over a connection: it sends one frame and reads one reply frame.
#![tactic(auto)]

mod address;
mod called;
mod client;
mod reading;
mod sending;
mod showing;

pub use address::read_address;
pub use called::Called;
pub use client::client_run;
pub use reading::{Unread, read_frame};
pub use sending::{fits_request, request_frame};
