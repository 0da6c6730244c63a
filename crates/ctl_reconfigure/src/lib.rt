//! Another slurm.conf while the controller runs: why it is refused, and what it makes of the cluster. "reconfigure" in
//! scontrol(1).
#![tactic(auto)]

mod blocking;
pub mod laws;
mod leaving;
mod moves;
mod names;
mod reconfiguring;
mod record;
mod refusing;
mod same;

pub use blocking::blocked;
pub use reconfiguring::reconfigure;
pub use refusing::refusal_of;
pub use same::changes_any;
