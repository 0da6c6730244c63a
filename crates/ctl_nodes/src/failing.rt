//! Nodes that are lost: the jobs that hold something of them fail, and what they hold there is given back.

ghost use Rattle.std.specs.Prelude.{◌≡◌, ◌<◌, ◌≤◌, true, false, All, length, map};
ghost use Rattle.std.specs.List.{HoldsAt};
ghost use Rattle.plain_data.specs.Rows.{has_id};
ghost use Rattle.node_state.specs.Held.{held_mem, holds_cpu};
ghost use Rattle.job_table.specs.JobStates.{is_running};
ghost use Rattle.job_table.specs.Usage.{Charges};
ghost use Rattle.job_table.specs.Walks.{map_at};
ghost use Rattle.ctl_state.specs.Holding.{OnNodesApart};
ghost use Rattle.ctl_state.specs.Index.{GivesParts, IsIndexed};
ghost use Rattle.ctl_state.specs.Soundness.{IsSound};
ghost use Rattle.ctl_state.specs.State.{state_of};
ghost use Rattle.ctl_nodes.specs.Failing;
ghost use Rattle.ctl_nodes.specs.Failing.{HoldsParts, ShowsJobs};

use ctl_state::cluster::Cluster;
use ctl_state::laws::the_index_shows_what_is_held;
use job_table::change::Change;
use job_table::jobs::Jobs;
use job_table::laws::{a_change_is_of_its_place, a_walk_changes_all, who_leaves_is_charged};
use job_table::record::{JobRecord, Part};
use node_state::nodes::Nodes;
use plain_data::NodePlaces;
use request_data::state::{Final, JobState};

// How a job ends that fails with its node: it starts again where it may be requeued.
fn failing(job: &JobRecord) -> Final
    ensures { result ≡ Failing.failing job.now }
{
    if job.terms().requeue {
        Final::Requeue
    } else {
        Final::NodeFail
    }
}

/// Whether the job holds something of a lost node. Linear in its parts.
pub fn loses(lost: &NodePlaces, job: &JobRecord) -> bool
    ensures { result ≡ Failing.loses (has_id lost.now) job.now }
{
    job.parts
        .as_slice()
        .iter()
        .any(|part| lost.contains(part.node))
}

// The first lost node of the parts.
fn first_lost(lost: &NodePlaces, parts: &[Part]) -> Option<u32>
    ensures { result ≡ Failing.first_lost (has_id lost.now) parts.now }
{
    let part = parts.iter().find(|part| lost.contains(part.node))?;
    Some(part.node)
}

// The lost node that a completing job leaves first.
fn node_to_leave(lost: &NodePlaces, job: &JobRecord) -> Option<u32>
    ensures { result ≡ Failing.node_to_leave (has_id lost.now) job.now }
{
    match job.state {
        JobState::Completing(_) => first_lost(lost, job.parts.as_slice()),
        _ => None,
    }
}

// Gives back what the parts hold of lost nodes. Linear in the parts.
fn give_back(nodes: &mut Nodes, lost: &NodePlaces, parts: &[Part])
    requires there { All (λ part. part.node < length nodes.old.records) parts.now }
    requires apart { OnNodesApart parts.now }
    requires held { All (λ part. All (λ cpu. holds_cpu nodes.old.held part.node cpu ≡ true) part.cpus
        × part.mem ≤ held_mem nodes.old.held part.node) parts.now }
    ensures records { nodes.new.records ≡ nodes.old.records }
    ensures given { GivesParts nodes.old.held (Failing.parts_lost (has_id lost.now) parts.now) nodes.new.held }
{
    for part in parts {
        if lost.contains(part.node) {
            nodes.give_back(part.node, &part.cpus, part.mem);
        }
    }
}

// The job at a place fails, if it runs.
fn fail(jobs: &mut Jobs, place: usize, now: u64)
    requires { place < length jobs.old.records }
    ensures jobs { jobs.new.records ≡ map_at place (Failing.failed now) jobs.old.records }
    ensures charges { Charges now jobs.old jobs.new }
{
    a_change_is_of_its_place::<JobRecord>();
    let to = failing(&jobs.records()[place]);
    let change = Change::Leave {
        to,
        moment: now,
        exit: None,
    };
    jobs.change_at(place, change);
}

// The job at a place, which doesn't run, leaves the lost nodes one after the other. Quadratic in the job's parts.
fn leave_nodes(jobs: &mut Jobs, place: usize, now: u64, lost: &NodePlaces)
    requires there { place < length jobs.old.records }
    requires stopped { HoldsAt (λ job. is_running job.state ≡ false) jobs.old.records place }
    ensures jobs { jobs.new.records ≡ map_at place (Failing.after_loss now (has_id lost.now)) jobs.old.records }
    ensures charges { Charges now jobs.old jobs.new }
{
    a_change_is_of_its_place::<JobRecord>();
    who_leaves_is_charged();
    while let Some(node) = node_to_leave(lost, &jobs.records()[place]) {
        jobs.change_at(place, Change::DropPart { node, moment: now });
    }
}

// The job at a place, which holds something of the lost nodes, fails and leaves these.
fn leave_lost(jobs: &mut Jobs, place: usize, now: u64, lost: &NodePlaces)
    requires there { place < length jobs.old.records }
    requires loses { HoldsAt (λ job. Failing.loses (has_id lost.now) job ≡ true) jobs.old.records place }
    ensures jobs { jobs.new.records ≡ map_at place (Failing.after_loss now (has_id lost.now)) jobs.old.records }
    ensures charges { Charges now jobs.old jobs.new }
{
    a_change_is_of_its_place::<JobRecord>();
    who_leaves_is_charged();
    fail(jobs, place, now);
    leave_nodes(jobs, place, now, lost);
}

// The job at a place, once these nodes are lost.
fn fail_job(nodes: &mut Nodes, jobs: &mut Jobs, place: usize, now: u64, lost: &NodePlaces)
    requires there { place < length jobs.old.records }
    requires holds { HoldsAt (HoldsParts (length nodes.old.records)) jobs.old.records place }
    requires shown { ShowsJobs nodes.old.held jobs.old.records }
    ensures jobs { jobs.new.records ≡ map_at place (Failing.after_loss now (has_id lost.now)) jobs.old.records }
    ensures charges { Charges now jobs.old jobs.new }
    ensures nodes { nodes.new.records ≡ nodes.old.records }
    ensures shown { ShowsJobs nodes.new.held jobs.new.records }
{
    a_change_is_of_its_place::<JobRecord>();
    who_leaves_is_charged();
    the_index_shows_what_is_held();
    let job = &jobs.records()[place];
    if loses(lost, job) {
        give_back(nodes, lost, job.parts.as_slice());
        leave_lost(jobs, place, now, lost);
    }
}

// Each job, once these nodes are lost.
fn fail_jobs(nodes: &mut Nodes, jobs: &mut Jobs, now: u64, lost: &NodePlaces)
    requires holds { All (HoldsParts (length nodes.old.records)) jobs.old.records }
    requires shown { ShowsJobs nodes.old.held jobs.old.records }
    ensures jobs { jobs.new.records ≡ map (Failing.after_loss now (has_id lost.now)) jobs.old.records }
    ensures charges { Charges now jobs.old jobs.new }
    ensures nodes { nodes.new.records ≡ nodes.old.records }
    ensures shown { ShowsJobs nodes.new.held jobs.new.records }
{
    a_walk_changes_all::<JobRecord>();
    who_leaves_is_charged();
    for place in 0..jobs.records().len() {
        fail_job(nodes, jobs, place, now, lost);
    }
}

/// Has the jobs fail that hold something of these nodes, which are told by their places. What they hold there is given
/// back, and the index goes on showing what is held. One walk over the jobs and their parts, and quadratic in the parts
/// of a job that holds something there; it takes no memory. JobRequeue in slurm.conf(5), NODE_FAIL in squeue(1).
pub fn lose(cluster: &mut Cluster, moment: u64, lost: &NodePlaces)
    requires sound { IsSound (state_of cluster.old) }
    requires indexed { IsIndexed cluster.old }
    ensures after { state_of cluster.new ≡ Failing.lost_after (state_of cluster.old) moment (has_id lost.now) }
    ensures indexed { IsIndexed cluster.new }
{
    fail_jobs(&mut cluster.nodes, &mut cluster.jobs, moment, lost);
}
