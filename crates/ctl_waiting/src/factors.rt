//! What is found once for the priorities of all jobs at a moment.

ghost use Rattle.std.specs.Prelude.{◌≡◌, IfOk};
ghost use Rattle.ctl_state.specs.State.{state_of};
ghost use Rattle.ctl_waiting.specs.Measured.{IsMeasured};

use crate::greatest::{all_cpus, greatest_factor, greatest_qos};
use crate::ranks::{count_users, ranks_at};
use ctl_state::cluster::Cluster;
use small_texts::memory_error::Memory;
use std::alloc::Global;

/// What the priorities of all jobs at a moment rest on (own).
#[derive(Drop)]
pub struct Factors {
    /// The moment.
    pub moment: u64,
    /// The rank of the user of each association, in the order of these; 0 of an account.
    pub(crate) ranks: Vec<u32>,
    /// How many associations are of users.
    pub(crate) users: u64,
    /// The processors of all nodes.
    pub(crate) cpus: u64,
    /// The greatest `PriorityJobFactor`.
    pub(crate) greatest_factor: u64,
    /// The greatest priority of a quality of service.
    pub(crate) greatest_qos: u32,
}

/// What the priorities at a moment rest on. Linear in nodes, partitions, qualities of service, associations, the jobs
/// that hold something and their parts, with one look for each 64 others; and it ranks the users by Fair Tree, in the
/// time of a sort.
pub fn measure(alloc: Global, cluster: &Cluster, now: u64) -> Result<Factors, Memory>
    ensures measured { IfOk result (IsMeasured (state_of cluster.now)) }
    ensures moment { IfOk result (λ factors. factors.moment ≡ now) }
{
    Ok(Factors {
        moment: now,
        ranks: ranks_at(alloc, cluster, now)?,
        users: count_users(cluster),
        cpus: all_cpus(cluster),
        greatest_factor: greatest_factor(cluster),
        greatest_qos: greatest_qos(cluster),
    })
}
