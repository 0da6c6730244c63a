//! The nodes of the cluster and how each stands, the partitions that they form, and the reservations that keep them for
//! some users from one second to before another.
#![tactic(auto)]

pub mod bounds;
mod change;
pub mod laws;
pub mod names;
pub mod nodes;
pub mod partition_laws;
pub mod partition_record;
pub mod partitions;
pub mod record;
mod renewing;
pub mod reservation_laws;
pub mod reservation_record;
pub mod reservations;
pub mod standing;
