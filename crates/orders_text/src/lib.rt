//! What orders say: the text of orders is read, and its first bad line is told.
#![tactic(auto)]

mod cpus;
mod draft;
mod fields;
mod lines;
mod order;
mod reading;

pub use reading::{OrdersRefusal, read_orders};
