ghost use Rattle.std.specs.Prelude.{◌≡◌, ◌≢◌, AllPairs, ◌+◌, ◌*◌, ◌/◌, ◌^◌, ◌≤◌, ◌<◌, length, map, IfOk, OnOk, IfSome, All};
ghost use Rattle.resource_profile.specs.Counts.{ticked};
ghost use Rattle.resource_profile.specs.Profiles.{HasFree};
ghost use Rattle.resource_profile.specs.declared.Hold.{Hold};
ghost use Rattle.resource_profile.specs.declared.picking.Dealt.{Dealt};
ghost use Rattle.backfill_planner.specs.Giving;
ghost use Rattle.backfill_planner.specs.Plans;
ghost use Rattle.backfill_planner.specs.Sweeps.{IsSwept, NoneEnds};

use crate::barred_times::next_end;
use crate::base::Base;
use crate::job::PlanJob;
use crate::laws::lower_laws;
use crate::sweep::Sweep;
use crate::{Placed, Share};
use plain_data::items::Items;
use plain_data::mem_ask::MemAsk;
use plain_data::seconds::{FOREVER, LAST_START};
use resource_profile::pick_laws::fitting_sets_are_within;
use resource_profile::{Dealt, NodeRoom, Profile, Steps, pick};
use small_texts::memory_error::Memory;
use std::alloc::Global;

// Where the job's window ends that begins at `start`.
pub(crate) fn window_end(job: &PlanJob, start: u64) -> u64
    requires { start ≤ LAST_START }
    ensures end { result ≡ Giving.window_end job.now start }
    ensures later { start < result }
{
    match job.seconds {
        Some(seconds) => start + seconds.get(),
        None => FOREVER,
    }
}

// How often the part is in the whole. Where it is larger nothing is divided.
#[tactic(auto, using(crate::proofs::Takes::no_quotient))]
fn quotient(whole: u64, part: u64) -> u64
    requires { 0 < part }
    ensures { result ≡ whole / part }
{
    if whole < part { 0 } else { whole / part }
}

// How many tasks of the job a node with this room can give where so much of it is free.
#[tactic(auto, using(crate::proofs::Takes::tasks_fit))]
pub(crate) fn tasks_given(job: &PlanJob, room: &NodeRoom, cpus: u32, mem: u64) -> u32
    ensures tasks { result ≡ Giving.tasks_given job.now room.now cpus mem }
    ensures small { result * job.now.cpus_per_task < 2 ^ 32 }
{
    if !room.usable || job.exclusive && (cpus != room.cpus || mem != room.mem) {
        return 0;
    }
    let per_task = job.cpus_per_task.get();
    let most = u64::from(job.per_node).min(quotient(u64::from(cpus), per_task));
    let tasks = match job.mem_ask {
        MemAsk::All => { if mem == room.mem { most } else { 0 } }
        MemAsk::PerNode(asked) => { if asked.get() <= mem { most } else { 0 } }
        MemAsk::PerCpu(asked) => {
            if most == 0 {
                0
            } else {
                most.min(mem / (asked.get() * per_task))
            }
        }
    };
    tasks as u32
}

// The job's part on the node at a place of its list.
fn share(rooms: &[NodeRoom], job: &PlanJob, part: &Dealt) -> Share
    requires place { part.now.place < length job.now.nodes }
    requires nodes { All (λ node. node < length rooms.now) job.now.nodes }
    requires cpus { part.now.tasks * job.now.cpus_per_task < 2 ^ 32 }
    ensures { result ≡ Plans.share_of rooms.now job.now part.now }
{
    let node = job.nodes.as_slice()[part.place as usize];
    let room = &rooms[node as usize];
    let cpus = u64::from(part.tasks) * job.cpus_per_task.get();
    let mem = match job.mem_ask {
        MemAsk::All => room.mem,
        MemAsk::PerNode(asked) => asked.get(),
        MemAsk::PerCpu(asked) => asked.get() * cpus,
    };
    if job.exclusive {
        Share {
            node,
            tasks: part.tasks,
            cpus: room.cpus,
            mem: room.mem,
        }
    } else {
        Share {
            node,
            tasks: part.tasks,
            cpus: cpus as u32,
            mem,
        }
    }
}

// The job's parts where its tasks are dealt so.
fn shares(
    alloc: Global,
    rooms: &[NodeRoom],
    job: &PlanJob,
    dealt: &[Dealt],
) -> Result<Vec<Share>, Memory>
    requires nodes { All (λ node. node < length rooms.now) job.now.nodes }
    requires places { All (λ (part : Dealt). part.place < length job.now.nodes) dealt.now }
    requires cpus { All (λ (part : Dealt). part.tasks * job.now.cpus_per_task < 2 ^ 32) dealt.now }
    ensures { IfOk result (λ shares. shares.items ≡ map (λ part. Plans.share_of rooms.now job.now part) dealt.now) }
{
    let mut shares = Vec::with_capacity(alloc, dealt.len())?;
    for part in dealt {
        shares.push(share(rooms, job, part)).unwrap();
    }
    Ok(shares)
}

// The placement of the job at this second, or none where no set fits. The sweep goes on to the second. What `dealt` had
// before goes.
fn placement_at(
    alloc: Global,
    profile: &Profile,
    rooms: &[NodeRoom],
    job: &PlanJob,
    start: u64,
    sweep: &mut Sweep,
    dealt: &mut Vec<Dealt>,
) -> Result<Option<Placed>, Memory>
    requires rooms { profile.now.rooms ≡ rooms.now }
    requires nodes { All (λ node. node < length rooms.now) job.now.nodes }
    requires start { start ≤ LAST_START }
    requires swept { IsSwept rooms.now profile.now.holds job.now sweep.old }
    requires order { sweep.old.second ≤ start }
    ensures swept { IsSwept rooms.now profile.now.holds job.now sweep.new }
    ensures second { sweep.new.second ≡ start }
    ensures window { start < Giving.window_end job.now start }
    ensures start { IfOk result (λ placed. IfSome placed (λ placed. placed.start ≡ start)) }
    ensures free { IfOk result (λ placed. All (HasFree rooms.now profile.now.holds) (Plans.holds_of job.now placed)) }
    ensures apart { IfOk result (λ placed.
        AllPairs (λ (one other : Hold). one.node ≢ other.node) (Plans.holds_of job.now placed)) }
    ensures placement { IfOk result (λ placed. placed ≡ Plans.placement_at rooms.now profile.now.holds job.now start) }
{
    sweep.go_to(profile, rooms, job, start);
    fitting_sets_are_within();
    lower_laws();
    if sweep.total < u64::from(job.need.tasks) {
        return Ok(None);
    }
    if !pick(alloc, &sweep.caps, &job.need, dealt)? {
        return Ok(None);
    }
    let parts = shares(alloc, rooms, job, dealt)?;
    Ok(Some(Placed {
        id: job.id,
        start,
        parts: Items::from_vec(parts),
    }))
}

// The least second after `start` at which a hold ends, or one of the job's barred times; `last` where none does.
pub(crate) fn next_second(profile: &Profile, job: &PlanJob, start: u64, last: u64) -> u64
    requires { start < last }
    ensures later { start < result }
    ensures quiet { NoneEnds profile.now.holds job.now.barred start result }
{
    let rise = match profile.next_rise(start) {
        Some(rise) => rise,
        None => last,
    };
    next_end(job.barred.as_slice(), start, rise)
}

/// Where and when the job begins at the earliest, from the second `lo` to `hi`, beside the profile's holds. It counts
/// one step. None exactly where no set fits at any of these seconds. It tries `lo` and, after it, the seconds from which
/// on one of the job's nodes may give otherwise, since between these no set comes to fit; and at each it counts anew only
/// what those nodes give.
pub fn place<L>(
    alloc: Global,
    profile: &Profile,
    base: &Base,
    job: &PlanJob,
    lo: u64,
    hi: u64,
    steps: &mut Steps<L>,
) -> Result<Option<Placed>, Memory>
    requires rooms { profile.now.rooms ≡ base.now.rooms }
    requires nodes { All (λ node. node < length base.now.rooms) job.now.nodes }
    requires last { hi ≤ LAST_START }
    ensures start { IfOk result (λ placed. IfSome placed (λ placed. (lo ≤ placed.start) × (placed.start ≤ hi))) }
    ensures free { IfOk result (λ placed.
        All (HasFree base.now.rooms profile.now.holds) (Plans.holds_of job.now placed)) }
    ensures apart { IfOk result (λ placed.
        AllPairs (λ (one other : Hold). one.node ≢ other.node) (Plans.holds_of job.now placed)) }
    ensures placed { IfOk result (λ placed. placed ≡ Plans.placed_of base.now.rooms profile.now.holds job.now lo hi) }
    ensures steps { steps.new ≡ ticked steps.old 1 }
{
    steps.tick();
    lower_laws();
    let rooms = base.rooms.as_slice();
    if hi < lo {
        return Ok(None);
    }
    let mut sweep = Sweep::new(alloc, profile, rooms, job, lo)?;
    let mut dealt = Vec::new(alloc);
    let mut start = lo;
    while start <= hi {
        let placed = placement_at(alloc, profile, rooms, job, start, &mut sweep, &mut dealt)?;
        if placed.is_some() {
            return Ok(placed);
        }
        start = sweep.least;
    }
    Ok(None)
}
