//! The cluster of some files, opened: of the two that describe it, and of a saved state where it goes on from one; the
//! cluster of a simulation; and what reconfiguring makes of a book.
#![tactic(auto)]

mod cluster;
mod cluster_files;
mod files;
mod judging;
mod laws;
mod opening;
mod refusal;
mod renewing;
mod simulated;
mod simulated_files;
mod simulated_laws;

pub use cluster::open_desk;
pub use cluster_files::{ClusterFiles, controller, desk};
pub use laws::files_open_one_cluster;
pub use opening::{OpenRefusal, open_files, open_named};
pub use refusal::{BadFile, ClusterRefusal};
pub use renewing::renewed;
pub use simulated::simulated_desk;
pub use simulated_laws::simulated_files_are_good;
