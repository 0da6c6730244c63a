//! Nodes that fall silent: which they are, and that they are lost. SlurmdTimeout in slurm.conf(5).

ghost use Rattle.std.specs.Prelude.{◌≡◌, ◌≤◌, ℕ, true, false, not, count_by, ◌&&◌};
ghost use Rattle.plain_data.specs.Rows.{has_id};
ghost use Rattle.job_table.specs.declared.record.JobRecord.{JobRecord as OneJob};
ghost use Rattle.job_table.specs.JobStates.{is_running};
ghost use Rattle.ctl_state.specs.Index.{IsIndexed};
ghost use Rattle.ctl_state.specs.Soundness.{IsSound};
ghost use Rattle.ctl_state.specs.State.{state_of, last_moment};
ghost use Rattle.ctl_nodes.specs.Failing;
ghost use Rattle.ctl_node_side.specs.Silence;

use ctl_nodes::laws::the_same_nodes_are_lost_alike;
use ctl_nodes::{change_places, lose, loses};
use ctl_state::cluster::Cluster;
use job_table::record::JobRecord;
use node_state::record::{DownBy, NodeChange, NodeRecord};
use plain_data::NodePlaces;
use request_data::report::Heard;
use request_data::state::JobState;

// Whether so many seconds have passed since the last accepted report.
fn is_late(timeout: u64, now: u64, heard: Option<Heard>) -> bool
    ensures { result ≡ Silence.is_late timeout now heard }
{
    match heard {
        Some(heard) => now
            .checked_sub(heard.moment)
            .is_some_and(|seconds| seconds >= timeout),
        None => false,
    }
}

// Whether the node isn't down, and falls silent.
fn falls_silent(timeout: u64, now: u64, node: &NodeRecord) -> bool
    ensures { result ≡ Silence.falls_silent timeout now node.now }
{
    node.down == DownBy::No && timeout != 0 && is_late(timeout, now, node.heard)
}

/// The places of the nodes that fall silent. Linear in the nodes; it takes no memory.
pub(crate) fn silent_places(cluster: &Cluster, now: u64) -> NodePlaces
    requires sound { IsSound (state_of cluster.now) }
    ensures { (place : ℕ) → has_id result place ≡ Silence.silent_at (state_of cluster.now) now place }
{
    let timeout = cluster.settings.slurmd_timeout.get();
    let mut places = NodePlaces::none();
    for (place, node) in cluster.nodes.records().iter().enumerate() {
        if falls_silent(timeout, now, node) {
            places.insert(place as u32);
        }
    }
    places
}

/// How many jobs run that hold something of these nodes. Linear in the jobs and their parts.
pub(crate) fn count_failing(silent: &NodePlaces, jobs: &[JobRecord]) -> usize
    ensures { result ≡ count_by (λ (job : OneJob). is_running job.state && Failing.loses (has_id silent.now) job)
        jobs.now }
{
    jobs.iter()
        .filter(|job| job.state == JobState::Running && loses(silent, job))
        .count()
}

/// These nodes, which fall silent, are down, and what they held is lost. The index goes on showing what is held. One walk
/// over the jobs and one over the nodes; it takes no memory.
pub(crate) fn fall_silent(cluster: &mut Cluster, now: u64, silent: &NodePlaces)
    requires sound { IsSound (state_of cluster.old) }
    requires indexed { IsIndexed cluster.old }
    requires places { (place : ℕ) → has_id silent.now place ≡ Silence.silent_at (state_of cluster.old) now place }
    ensures after { state_of cluster.new ≡ Silence.without_silent (state_of cluster.old) now }
    ensures indexed { IsIndexed cluster.new }
{
    the_same_nodes_are_lost_alike();
    lose(cluster, now, silent);
    change_places(&mut cluster.nodes, silent, NodeChange::Silent);
    cluster.moment = now;
}
