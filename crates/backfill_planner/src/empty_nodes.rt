// Whether a job could run on nodes on which nothing is held.
ghost use Rattle.std.specs.Prelude.{◌≡◌, ◌≤◌, ◌<◌, ◌↔◌, [], length, sum, is_some, IsTrue, IfOk, All};
ghost use Rattle.backfill_planner.specs.Giving;
ghost use Rattle.backfill_planner.specs.Plans;

use crate::barred_times::barred_until;
use crate::job::PlanJob;
use crate::laws::lower_laws;
use crate::placing::{tasks_given, window_end};
use resource_profile::pick_laws::fitting_sets_are_within;
use resource_profile::{NodeRoom, pick};
use small_texts::memory_error::Memory;
use std::alloc::Global;

// How many tasks the empty node can give over the job's window from second 0 on.
fn tasks_of_empty_node(rooms: &[NodeRoom], job: &PlanJob, node: u32) -> u32
    requires { node < length rooms.now }
    ensures { result ≡ Giving.give rooms.now [] job.now 0 node }
{
    if barred_until(&job.barred, node, 0, window_end(job, 0)).is_some() {
        return 0;
    }
    let room = &rooms[node as usize];
    tasks_given(job, room, room.cpus, room.mem)
}

// What each of the job's nodes can give so.
#[tactic(auto, unfolding(crate::specs::Giving::capacities))]
fn capacities_of_empty_nodes(
    alloc: Global,
    rooms: &[NodeRoom],
    job: &PlanJob,
) -> Result<Vec<u32>, Memory>
    requires { All (λ node. node < length rooms.now) job.now.nodes }
    ensures { IfOk result (λ caps. caps.items ≡ Giving.capacities rooms.now [] job.now 0) }
{
    let nodes = job.nodes.as_slice();
    let mut caps = Vec::with_capacity(alloc, nodes.len())?;
    for node in nodes {
        caps.push(tasks_of_empty_node(rooms, job, *node)).unwrap();
    }
    Ok(caps)
}

// Whether so many tasks are given together.
fn gives_all(caps: &[u32], tasks: u32) -> bool
    ensures { IsTrue result ↔ (tasks ≤ sum caps.now) }
{
    let mut wanting = tasks;
    for given in caps {
        wanting = wanting.saturating_sub(*given);
    }
    wanting == 0
}

/// Whether the job could begin at second 0 if nothing were held. For a job without barred times all seconds are alike
/// then, so this is whether it could ever run. It makes no profile: O(n log n) for n nodes of the job, and O(n) where
/// they give too few tasks together.
pub fn fits_empty_nodes(alloc: Global, rooms: &[NodeRoom], job: &PlanJob) -> Result<bool, Memory>
    requires { All (λ node. node < length rooms.now) job.now.nodes }
    ensures { IfOk result (λ fits. fits ≡ is_some (Plans.placed_of rooms.now [] job.now 0 0)) }
{
    let caps = capacities_of_empty_nodes(alloc, rooms, job)?;
    fitting_sets_are_within();
    lower_laws();
    if !gives_all(&caps, job.need.tasks) {
        return Ok(false);
    }
    let mut dealt = Vec::new(alloc);
    let fits = pick(alloc, &caps, &job.need, &mut dealt)?;
    Ok(fits)
}
