//! What the controller keeps, as plain data.

ghost use Rattle.std.specs.Prelude.{◌≡◌};
ghost use Rattle.ctl_state.specs.Refusals;
ghost use Rattle.ctl_state.specs.State.{state_of};

use crate::record::ArrayRecord;
use backfill_planner::Placed;
use job_table::jobs::Jobs;
use node_state::nodes::Nodes;
use node_state::partitions::Partitions;
use node_state::record::DroppedNode;
use node_state::reservations::Reservations;
use plain_data::conf::Settings;
use run_limits::assocs::Assocs;
use small_texts::name::Name;

/// The cluster as the controller knows it (own). The controller's type keeps what is true of it; here it is plain data.
#[derive(Drop)]
pub struct Cluster {
    pub settings: Settings,
    /// In the order of slurm.conf.
    pub partitions: Partitions,
    /// In the order of slurm.conf.
    pub nodes: Nodes,
    /// The nodes that are no longer there and were heard, in byte order of their names.
    pub dropped: Vec<DroppedNode>,
    /// The accounts and their users, and the qualities of service, in the order of the association file.
    pub assocs: Assocs,
    /// In the order in which they were made.
    pub reservations: Reservations,
    /// In the order of their numbers.
    pub jobs: Jobs,
    /// The arrays of which there are tasks, in the order of their numbers.
    pub arrays: Vec<ArrayRecord>,
    /// The placements of the last pass that didn't start. A share's place is that of its node in the list of nodes or,
    /// behind these, in the list of those that are gone.
    pub plan: Vec<Placed>,
    /// The names of nodes that are no longer there and that the plan may name.
    pub gone: Vec<Name>,
    /// The number that the next job gets.
    pub next_id: u32,
    /// The sizes of the requests accepted so far, in sum (own).
    pub size: u64,
    /// Whether a shutdown was accepted.
    pub is_shut: bool,
    /// The moment of the last accepted request.
    pub moment: u64,
}

impl Cluster {
    /// Whether the user may do everything.
    pub fn is_privileged(&self, user: &Name) -> bool
        ensures { result ≡ Refusals.is_privileged (state_of self.now) user.now }
    {
        user.as_bytes() == b"root".as_slice() || user.is(&self.settings.slurm_user)
    }
}
