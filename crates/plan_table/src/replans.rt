// Plans made over older ones.
ghost use Rattle.std.specs.Prelude.{◌≡◌, ◌<◌, length, All, IfOk};
ghost use Rattle.backfill_planner.specs.declared.job.PlanJob.{PlanJob};

use crate::barring::barred_list;
use crate::jobs::{jobs, nodes};
use crate::plans::{line_base, plan_text, planned};
use backfill_planner::{BarredList, Base, MemAsk, NodeList, Placed, PlanJob, Planned};
use plain_data::items::Items;
use plain_data::ranged::Ranged;
use plan_keeper::replan as replan_jobs;
use resource_profile::{Need, NodeRoom, start};
use std::alloc::Global;
use table_lines::answer::{Unanswered, taken};
use table_lines::fields::{narrow_number, number};

// The plan of the words of one.
fn old_plan(alloc: Global, words: &[&[u8]]) -> Result<Planned, Unanswered> {
    let [rooms, horizon, now, ranked, holds] = *words else {
        return Err(Unanswered::Arguments);
    };
    let now = number(now)?;
    let base = line_base(alloc, rooms, holds, horizon)?;
    let ranked = jobs(alloc, ranked, base.rooms.as_slice().len())?;
    let (planned, _) = planned(alloc, base, ranked, now)?;
    Ok(planned)
}

// The plan of the words of one, over an older one.
fn plan_over(alloc: Global, old: &Planned, words: &[&[u8]]) -> Result<Vec<u8>, Unanswered> {
    let [rooms, horizon, now, ranked, holds] = *words else {
        return Err(Unanswered::Arguments);
    };
    let now = number(now)?;
    let base = line_base(alloc, rooms, holds, horizon)?;
    let ranked = jobs(alloc, ranked, base.rooms.as_slice().len())?;
    let mut steps = start();
    let planned = replan_jobs(alloc, old, base, ranked, now, &mut steps)?;
    plan_text(alloc, planned.placements(), steps.count())
}

/// The plan of the second half of the words over that of the first, and how many steps it took beside the first. Each
/// half has the rooms, the horizon, `now`, the jobs by rank, and what is held, as a plan's line has them.
pub fn replan(alloc: Global, words: &[&[u8]]) -> Result<Vec<u8>, Unanswered> {
    if words.len() != 10 {
        return Err(Unanswered::Arguments);
    }
    let (before, after) = words.split_at(5);
    let old = old_plan(alloc, before)?;
    plan_over(alloc, &old, after)
}

// Five nodes of four processors, of which nothing is held.
fn five_nodes(alloc: Global) -> Result<Base, Unanswered>
    ensures { IfOk result (λ base. length base.rooms ≡ 5) }
{
    let room = NodeRoom {
        cpus: 4,
        mem: 4000,
        usable: true,
    };
    let rooms = vec![in alloc; room; 5]?;
    Ok(Base {
        rooms: Items::from_vec(rooms),
        holds: Items::from_vec(Vec::new(alloc)),
        horizon: 2_592_000,
    })
}

// A job of so many tasks, with a processor and 1,000 megabytes each, and its limit.
fn job(
    id: u32,
    tasks: u32,
    nodes: &NodeList,
    barred: &BarredList,
    seconds: Ranged<1, 3153600000>,
) -> Result<PlanJob, Unanswered>
    ensures { IfOk result (λ job. job.nodes ≡ nodes.now) }
{
    Ok(PlanJob {
        id,
        need: Need {
            tasks,
            least: 1,
            most: 4,
            required: 0,
        },
        cpus_per_task: Ranged::new(1),
        per_node: 4,
        mem_ask: MemAsk::PerCpu(Ranged::new(1000)),
        exclusive: false,
        nodes: nodes.share()?,
        barred: barred.share()?,
        seconds: Some(seconds),
    })
}

// So many jobs that each take four of the nodes whole, and one behind them on the fifth node.
fn queue(alloc: Global, count: u32, limit: u64) -> Result<Vec<PlanJob>, Unanswered>
    ensures { IfOk result (λ jobs. All (λ (job : PlanJob). All (λ node. node < 5) job.nodes) jobs.items) }
{
    let Some(limit) = Ranged::try_new(limit) else {
        return Err(Unanswered::Arguments);
    };
    let four = nodes(alloc, b"0+1+2+3", 5)?;
    let fifth = nodes(alloc, b"4", 5)?;
    let barred = barred_list(alloc, b"")?;
    let mut jobs = Vec::new(alloc);
    for id in 0..count {
        jobs.push(job(id, 16, &four, &barred, Ranged::new(600))?)?;
    }
    jobs.push(job(count, 1, &fifth, &barred, limit)?)?;
    Ok(jobs)
}

// When the placement at a place begins; 2^64 - 1 where there is none.
fn start_of(placements: &[Placed], place: usize) -> u64 {
    match placements.get(place) {
        Some(placed) => placed.start,
        None => u64::MAX,
    }
}

/// Plans a queue of so many jobs that each take four nodes whole, and one behind them on a fifth node, and so many times
/// over the plan before it with another limit of that last one. It tells how many steps these took, and when the first of
/// the queue, its last and the one behind them begin.
pub fn replans(alloc: Global, words: &[&[u8]]) -> Result<Vec<u8>, Unanswered> {
    let [count, times] = *words else {
        return Err(Unanswered::Arguments);
    };
    let count = narrow_number(count)?;
    let (mut plan, _) = planned(alloc, five_nodes(alloc)?, queue(alloc, count, 600)?, 0)?;
    let mut steps = start();
    for time in 0..narrow_number(times)? {
        let limit = 600 + 600 * u64::from(1 - time % 2);
        let ranked = queue(alloc, count, limit)?;
        plan = replan_jobs(alloc, &plan, five_nodes(alloc)?, ranked, 0, &mut steps)?;
    }
    let placements = plan.placements();
    let (first, last) = (
        start_of(placements, 0),
        start_of(placements, count.saturating_sub(1) as usize),
    );
    let (behind, steps) = (start_of(placements, count as usize), steps.count());
    taken(
        alloc,
        &format_args!("in {steps}, first at {first}, last at {last}, behind at {behind}"),
    )
}
