ghost use Rattle.std.specs.Prelude.{◌≡◌, ◌≢◌, ◌⊎◌, ℕ, false, AllPairs, ◌+◌, ◌*◌, ◌^◌, ◌≤◌, ◌<◌, length, sum, slice_index, slice_set, IfOk, All};
ghost use Rattle.backfill_planner.specs.Giving;
ghost use Rattle.backfill_planner.specs.Sweeps.{GivesUntil, IsHalfway, IsSwept};

use crate::barred_times::{barred_until, next_begin};
use crate::job::PlanJob;
use crate::placing::{tasks_given, window_end};
use plain_data::mem_ask::MemAsk;
use plain_data::seconds::LAST_START;
use resource_profile::{Amount, NodeRoom, Profile};
use small_texts::memory_error::Memory;
use std::alloc::Global;

// How many nodes are looked at together, where what one of them gives may have changed.
const ROW: usize = 8;

// What a node can give, and the second before which that holds.
#[derive(Clone, Copy)]
struct Given {
    tasks: u32,
    until: u64,
}

// What each of the job's nodes can give at a second.
#[derive(Drop)]
pub(crate) struct Sweep {
    pub(crate) second: u64,
    pub(crate) caps: Vec<u32>,
    // The seconds before which these hold.
    untils: Vec<u64>,
    // Of each row of nodes a second before which all of these hold.
    leasts: Vec<u64>,
    // What the nodes give together.
    pub(crate) total: u64,
    // A later second, before which all of these hold.
    pub(crate) least: u64,
}

// What the node can give at the second and from it on, where the job may have it over the window that begins there.
fn given_from_free(
    profile: &Profile,
    rooms: &[NodeRoom],
    job: &PlanJob,
    node: u32,
    second: u64,
) -> Given
    requires rooms { profile.now.rooms ≡ rooms.now }
    requires node { node < length rooms.now }
    requires second { second ≤ LAST_START }
    requires clear { Giving.is_barred job.now.barred node second (Giving.window_end job.now second) ≡ false }
    ensures gives { GivesUntil rooms.now profile.now.holds job.now second node result.tasks result.until }
    ensures small { result.tasks * job.now.cpus_per_task < 2 ^ 32 }
    ensures word { result.tasks < 2 ^ 32 }
{
    let end = window_end(job, second);
    let window = profile.free_over(node, second, end);
    let tasks = tasks_given(
        job,
        &rooms[node as usize],
        window.free.cpus,
        window.free.mem,
    );
    let last = next_begin(&job.barred, node, end, window.ends_up_to);
    let until = match job.seconds {
        Some(seconds) => window.begins_before.min(last - (seconds.get() - 1)),
        None => window.begins_before,
    };
    Given { tasks, until }
}

// What a task of the job takes of a node with this room at the least: where less is free the node gives none.
fn least_for_one(job: &PlanJob, room: &NodeRoom) -> Amount
    ensures { (cpus mem : ℕ) → (cpus < result.cpus) ⊎ (mem < result.mem)
        → Giving.tasks_given job.now room.now cpus mem ≡ 0 }
{
    if job.exclusive {
        return Amount {
            cpus: room.cpus,
            mem: room.mem,
        };
    }
    let cpus = job.cpus_per_task.get();
    let mem = match job.mem_ask {
        MemAsk::All => room.mem,
        MemAsk::PerNode(asked) => asked.get(),
        MemAsk::PerCpu(asked) => asked.get() * cpus,
    };
    Amount {
        cpus: cpus as u32,
        mem,
    }
}

// What the node can give at the second and from it on: nothing until a barred time of it is over, or what is too little
// for one task.
fn given_from_held(
    profile: &Profile,
    rooms: &[NodeRoom],
    job: &PlanJob,
    node: u32,
    second: u64,
) -> Given
    requires rooms { profile.now.rooms ≡ rooms.now }
    requires node { node < length rooms.now }
    requires second { second ≤ LAST_START }
    ensures gives { GivesUntil rooms.now profile.now.holds job.now second node result.tasks result.until }
    ensures small { result.tasks * job.now.cpus_per_task < 2 ^ 32 }
    ensures word { result.tasks < 2 ^ 32 }
{
    let end = window_end(job, second);
    if let Some(until) = barred_until(&job.barred, node, second, end) {
        return Given { tasks: 0, until };
    }
    let least = least_for_one(job, &rooms[node as usize]);
    if let Some(until) = profile.short_until(node, second, end, least) {
        return Given { tasks: 0, until };
    }
    given_from_free(profile, rooms, job, node, second)
}

// What the node can give at the second and from it on: nothing where it is known up to when no processor of it is free.
fn given_from(profile: &Profile, rooms: &[NodeRoom], job: &PlanJob, node: u32, second: u64) -> Given
    requires rooms { profile.now.rooms ≡ rooms.now }
    requires node { node < length rooms.now }
    requires second { second ≤ LAST_START }
    ensures gives { GivesUntil rooms.now profile.now.holds job.now second node result.tasks result.until }
    ensures small { result.tasks * job.now.cpus_per_task < 2 ^ 32 }
    ensures word { result.tasks < 2 ^ 32 }
{
    let _ = job.cpus_per_task.get();
    match profile.full_until(node, second, window_end(job, second)) {
        Some(until) => Given { tasks: 0, until },
        None => given_from_held(profile, rooms, job, node, second),
    }
}

impl Sweep {
    // What the nodes can give at the second. More than 4,294,967,295 nodes are too many to keep.
    pub(crate) fn new(
        alloc: Global,
        profile: &Profile,
        rooms: &[NodeRoom],
        job: &PlanJob,
        second: u64,
    ) -> Result<Self, Memory>
        requires rooms { profile.now.rooms ≡ rooms.now }
        requires nodes { All (λ node. node < length rooms.now) job.now.nodes }
        requires second { second ≤ LAST_START }
        ensures swept { IfOk result (λ sweep. IsSwept rooms.now profile.now.holds job.now sweep) }
        ensures second { IfOk result (λ sweep. sweep.second ≡ second) }
    {
        let nodes = job.nodes.as_slice();
        if nodes.len() > u32::MAX as usize {
            return Err(Memory);
        }
        let mut caps = Vec::with_capacity(alloc, nodes.len())?;
        let mut untils = Vec::with_capacity(alloc, nodes.len())?;
        let mut total = 0;
        let mut least = u64::MAX;
        for node in nodes {
            let given = given_from(profile, rooms, job, *node, second);
            caps.push(given.tasks).unwrap();
            untils.push(given.until).unwrap();
            total += u64::from(given.tasks);
            least = least.min(given.until);
        }
        let leasts = vec![in alloc; least; nodes.len() / ROW + 1]?;
        Ok(Sweep {
            second,
            caps,
            untils,
            leasts,
            total,
            least,
        })
    }

    // Takes what the node at a place of the job's list gives now.
    fn renew(&mut self, i: usize, given: Given)
        requires inside { (i < length self.old.caps.items) × (i < length self.old.untils.items) }
        requires bound { self.old.total + 2 ^ 32 ≤ 2 ^ 64 }
        requires total { self.old.total ≡ sum self.old.caps.items }
        ensures caps { self.new.caps.items ≡ slice_set self.old.caps.items i given.tasks }
        ensures untils { self.new.untils.items ≡ slice_set self.old.untils.items i given.until }
        ensures leasts { self.new.leasts.items ≡ self.old.leasts.items }
        ensures total { self.new.total ≡ sum self.new.caps.items }
        ensures second { self.new.second ≡ self.old.second }
    {
        self.total = self.total - u64::from(self.caps[i]) + u64::from(given.tasks);
        self.caps[i] = given.tasks;
        self.untils[i] = given.until;
    }

    // Counts anew, for the second, for those nodes of a row for which what they give may have changed.
    fn count_row(
        &mut self,
        profile: &Profile,
        rooms: &[NodeRoom],
        job: &PlanJob,
        row: usize,
        second: u64,
    )
        requires rooms { profile.now.rooms ≡ rooms.now }
        requires nodes { All (λ node. node < length rooms.now) job.now.nodes }
        requires second { second ≤ LAST_START }
        requires there { row < length self.old.leasts.items }
        requires few { row < 2 ^ 32 }
        requires halfway { IsHalfway rooms.now profile.now.holds job.now self.old second (row * 8) }
        ensures halfway { IsHalfway rooms.now profile.now.holds job.now self.new second (row * 8 + 8) }
        ensures later { second < slice_index self.new.leasts.items row }
        ensures before { (i : ℕ) → i < row * 8
            → slice_index self.new.untils.items i ≡ slice_index self.old.untils.items i }
        ensures count { length self.new.leasts.items ≡ length self.old.leasts.items }
        ensures second { self.new.second ≡ self.old.second }
    {
        let _ = job.cpus_per_task.get();
        let nodes = job.nodes.as_slice();
        let first = row * ROW;
        let mut least = u64::MAX;
        for i in first..nodes.len().min(first + ROW) {
            if self.untils[i] <= second {
                let given = given_from(profile, rooms, job, nodes[i], second);
                self.renew(i, given);
            }
            least = least.min(self.untils[i]);
        }
        self.leasts[row] = least;
    }

    // Goes on to the second, and counts anew for the nodes for which what they give may have changed.
    fn count_anew(&mut self, profile: &Profile, rooms: &[NodeRoom], job: &PlanJob, second: u64)
        requires rooms { profile.now.rooms ≡ rooms.now }
        requires nodes { All (λ node. node < length rooms.now) job.now.nodes }
        requires second { second ≤ LAST_START }
        requires swept { IsSwept rooms.now profile.now.holds job.now self.old }
        requires order { self.old.second ≤ second }
        ensures swept { IsSwept rooms.now profile.now.holds job.now self.new }
        ensures second { self.new.second ≡ second }
    {
        let mut least = u64::MAX;
        for row in 0..self.leasts.len() {
            if self.leasts[row] <= second {
                self.count_row(profile, rooms, job, row, second);
            }
            least = least.min(self.leasts[row]);
        }
        self.least = least;
        self.second = second;
    }

    // Goes on to the second. It looks at the nodes only where what one of them gives may have changed.
    pub(crate) fn go_to(
        &mut self,
        profile: &Profile,
        rooms: &[NodeRoom],
        job: &PlanJob,
        second: u64,
    )
        requires rooms { profile.now.rooms ≡ rooms.now }
        requires nodes { All (λ node. node < length rooms.now) job.now.nodes }
        requires second { second ≤ LAST_START }
        requires swept { IsSwept rooms.now profile.now.holds job.now self.old }
        requires order { self.old.second ≤ second }
        ensures swept { IsSwept rooms.now profile.now.holds job.now self.new }
        ensures second { self.new.second ≡ second }
        ensures window { second < Giving.window_end job.now second }
        ensures once { AllPairs (λ one other. one ≢ other) job.now.nodes }
        ensures capacities { self.new.caps.items ≡ Giving.capacities rooms.now profile.now.holds job.now second }
    {
        let _ = window_end(job, second);
        let _ = job.nodes.as_slice();
        if self.least <= second {
            self.count_anew(profile, rooms, job, second);
        } else {
            self.second = second;
        }
    }
}
