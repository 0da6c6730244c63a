// Scenes by chance, and their plans.
ghost use Rattle.std.specs.Prelude.{◌≡◌, ◌≤◌, ◌<◌, length, IfOk, All};
ghost use Rattle.backfill_planner.specs.declared.job.PlanJob.{PlanJob};

use crate::barring::barred_list;
use crate::chance::Chance;
use crate::numbers::narrow_row;
use crate::plans::{base, planned};
use crate::profiles::try_hold;
use crate::sums::sum_of;
use backfill_planner::{BarredList, Base, MemAsk, NodeList, Placed, PlanJob, Planned};
use plain_data::ranged::Ranged;
use plain_data::seconds::LAST_START;
use resource_profile::{Hold, Need, NodeRoom, Profile};
use std::alloc::Global;
use table_lines::answer::{Unanswered, taken};
use table_lines::fields::number;

// How large a scene is to be.
#[derive(Clone, Copy)]
struct Size {
    nodes: u32,
    // Of each node.
    processors: u32,
    running: u32,
    pending: u32,
    // In minutes.
    window: u32,
    // The most of a job.
    tasks: u32,
    minutes: u32,
    // Every so many pending jobs one has no limit; 0 where all have one.
    unlimited: u32,
}

const MEM: u64 = 64000;

fn size_of(alloc: Global, words: &[&[u8]]) -> Result<Size, Unanswered> {
    let [
        nodes,
        processors,
        running,
        pending,
        window,
        tasks,
        minutes,
        unlimited,
    ] = *narrow_row(alloc, words)?.as_slice()
    else {
        return Err(Unanswered::Arguments);
    };
    Ok(Size {
        nodes,
        processors,
        running,
        pending,
        window,
        tasks,
        minutes,
        unlimited,
    })
}

// A running job's hold: some processors of a node, as far as they are free, for up to the most minutes.
fn running_hold(profile: &Profile, size: &Size, chance: &mut Chance) -> Hold
    requires { (1 ≤ size.now.nodes) × (1 ≤ size.now.processors) × (1 ≤ size.now.minutes) }
{
    let node = chance.up_to(size.nodes) - 1;
    let wanted = chance.up_to(size.processors);
    let until = 60 * u64::from(chance.up_to(size.minutes));
    let (cpus, mem) = profile.free_min(node, 0, until);
    Hold {
        node,
        from: 0,
        until,
        cpus: cpus.min(wanted),
        mem: mem.min(1000),
    }
}

// The rooms with what the running jobs hold.
fn running(
    alloc: Global,
    rooms: &[NodeRoom],
    size: &Size,
    chance: &mut Chance,
) -> Result<Profile, Unanswered>
    ensures { IfOk result (λ profile. profile.rooms ≡ rooms.now) }
{
    let mut profile = Profile::new(alloc, rooms)?;
    if size.nodes == 0 || size.processors == 0 || size.minutes == 0 {
        return Ok(profile);
    }
    for _ in 0..size.running {
        let hold = running_hold(&profile, size, chance);
        try_hold(&mut profile, rooms, &hold)?;
    }
    Ok(profile)
}

// What the plan of a scene begins with.
fn scene_base(alloc: Global, size: &Size, chance: &mut Chance) -> Result<Base, Unanswered>
    ensures { IfOk result (λ base. length base.rooms ≡ size.now.nodes) }
{
    let room = NodeRoom {
        cpus: size.processors,
        mem: MEM,
        usable: true,
    };
    let rooms = vec![in alloc; room; size.nodes as usize]?;
    let profile = running(alloc, rooms.as_slice(), size, chance)?;
    base(
        alloc,
        rooms,
        &profile,
        (60 * u64::from(size.window)).min(LAST_START),
    )
}

// All nodes in order, a list that the jobs share.
fn all_nodes(alloc: Global, count: u32) -> Result<NodeList, Unanswered>
    ensures { IfOk result (λ nodes. All (λ node. node < count) nodes) }
{
    let mut nodes = Vec::new(alloc);
    for node in 0..count {
        nodes.push(node)?;
    }
    Ok(NodeList::from_vec(nodes)?)
}

// The limit of a pending job, of up to the most minutes.
fn limit(
    size: &Size,
    id: u32,
    chance: &mut Chance,
) -> Result<Option<Ranged<1, 3153600000>>, Unanswered>
    requires { 1 ≤ size.now.minutes }
{
    let Some(seconds) = Ranged::try_new(60 * u64::from(chance.up_to(size.minutes))) else {
        return Err(Unanswered::Arguments);
    };
    if size.unlimited == 0 || id % size.unlimited != 0 {
        Ok(Some(seconds))
    } else {
        Ok(None)
    }
}

// A pending job, of up to the most tasks, with a processor and a megabyte each.
fn pending_job(
    size: &Size,
    nodes: &NodeList,
    barred: &BarredList,
    id: u32,
    chance: &mut Chance,
) -> Result<PlanJob, Unanswered>
    requires { (1 ≤ size.now.tasks) × (1 ≤ size.now.minutes) × (id < size.now.pending) }
    ensures { IfOk result (λ job. job.nodes ≡ nodes.now) }
{
    let need = Need {
        tasks: chance.up_to(size.tasks),
        least: 1,
        most: size.nodes,
        required: 0,
    };
    let seconds = limit(size, id, chance)?;
    Ok(PlanJob {
        id: id + 1,
        need,
        cpus_per_task: Ranged::new(1),
        per_node: size.processors,
        mem_ask: MemAsk::PerCpu(Ranged::new(1)),
        exclusive: false,
        nodes: nodes.share()?,
        barred: barred.share()?,
        seconds,
    })
}

fn pending_jobs(alloc: Global, size: &Size, chance: &mut Chance) -> Result<Vec<PlanJob>, Unanswered>
    ensures { IfOk result (λ jobs. All (λ (job : PlanJob). All (λ node. node < size.now.nodes) job.nodes) jobs.items) }
{
    let mut jobs = Vec::new(alloc);
    if size.tasks == 0 || size.minutes == 0 {
        return Ok(jobs);
    }
    let nodes = all_nodes(alloc, size.nodes)?;
    let barred = barred_list(alloc, b"")?;
    for id in 0..size.pending {
        jobs.push(pending_job(size, &nodes, &barred, id, chance)?)?;
    }
    Ok(jobs)
}

// What is told of a plan.
fn told(
    alloc: Global,
    placements: &[Placed],
    pending: u32,
    steps: u64,
) -> Result<Vec<u8>, Unanswered> {
    let (placed, sum) = (placements.len(), sum_of(placements));
    taken(
        alloc,
        &format_args!("placed {placed} of {pending}, steps {steps}, sum {sum}"),
    )
}

fn planned_scene(
    alloc: Global,
    size: &Size,
    chance: &mut Chance,
) -> Result<(Planned, u64), Unanswered> {
    let base = scene_base(alloc, size, chance)?;
    let ranked = pending_jobs(alloc, size, chance)?;
    planned(alloc, base, ranked, 0)
}

/// Makes a scene of a cluster by chance and plans it. It tells how many jobs were placed, the steps counted, and a sum
/// over the plan, by which two planners can be compared. The words are the numbers of the size, in its order, and the
/// seed.
pub fn scene(alloc: Global, words: &[&[u8]]) -> Result<Vec<u8>, Unanswered> {
    let Some((seed, sizes)) = words.split_last() else {
        return Err(Unanswered::Arguments);
    };
    let seed = number(seed)?;
    let size = size_of(alloc, sizes)?;
    let (planned, steps) = planned_scene(alloc, &size, &mut Chance::new(seed))?;
    told(alloc, planned.placements(), size.pending, steps)
}
