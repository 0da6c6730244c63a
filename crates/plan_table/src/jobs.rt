// Jobs that are to be planned.
ghost use Rattle.std.specs.Prelude.{◌<◌, All, IfOk};
ghost use Rattle.backfill_planner.specs.declared.job.PlanJob.{PlanJob};

use crate::barring::barred_list;
use crate::numbers::narrow_row;
use backfill_planner::{BarredList, MemAsk, NodeList, PlanJob};
use plain_data::ranged::Ranged;
use resource_profile::Need;
use std::alloc::Global;
use table_lines::answer::Unanswered;
use table_lines::fields::{narrow_numbers, number, parts};

/// Some of so many nodes, each once, as `0+1`.
pub fn nodes(alloc: Global, text: &[u8], count: usize) -> Result<NodeList, Unanswered>
    ensures { IfOk result (All (λ node. node < count)) }
{
    let mut nodes = Vec::new(alloc);
    for node in &narrow_numbers(alloc, text, b'+')? {
        if *node as usize >= count || nodes.contains(node) {
            return Err(Unanswered::Arguments);
        }
        nodes.push(*node)?;
    }
    Ok(NodeList::from_vec(nodes)?)
}

// `all`, `5n` for each node or `1000c` for each processor.
fn mem_ask(text: &[u8]) -> Result<MemAsk, Unanswered> {
    if text == b"all".as_slice() {
        return Ok(MemAsk::All);
    }
    let Some((unit, digits)) = text.split_last() else {
        return Err(Unanswered::Arguments);
    };
    let Some(megabytes) = Ranged::try_new(number(digits)?) else {
        return Err(Unanswered::Arguments);
    };
    match unit {
        b'n' => Ok(MemAsk::PerNode(megabytes)),
        b'c' => Ok(MemAsk::PerCpu(megabytes)),
        _ => Err(Unanswered::Arguments),
    }
}

// A limit in seconds, or `-`.
fn seconds(text: &[u8]) -> Result<Option<Ranged<1, 3153600000>>, Unanswered> {
    if text == b"-".as_slice() {
        return Ok(None);
    }
    match Ranged::try_new(number(text)?) {
        Some(seconds) => Ok(Some(seconds)),
        None => Err(Unanswered::Arguments),
    }
}

// The job of these words, and of the times at which it may not have nodes.
fn job_of(
    alloc: Global,
    words: &[&[u8]],
    barred: BarredList,
    count: usize,
) -> Result<PlanJob, Unanswered>
    ensures { IfOk result (λ job. All (λ node. node < count) job.nodes) }
{
    if words.len() != 11 {
        return Err(Unanswered::Arguments);
    }
    let (numbers, others) = words.split_at(7);
    let [id, tasks, least, most, required, per_task, per_node] = *narrow_row(
        alloc, numbers,
    )?.as_slice() else {
        return Err(Unanswered::Arguments);
    };
    let [mem, room, places, limit] = *others else {
        return Err(Unanswered::Arguments);
    };
    let Some(cpus_per_task) = Ranged::try_new(u64::from(per_task)) else {
        return Err(Unanswered::Arguments);
    };
    let mem_ask = mem_ask(mem)?;
    let seconds = seconds(limit)?;
    let nodes = nodes(alloc, places, count)?;
    Ok(PlanJob {
        id,
        need: Need {
            tasks,
            least,
            most,
            required,
        },
        cpus_per_task,
        per_node,
        mem_ask,
        exclusive: room == b"whole".as_slice(),
        nodes,
        barred,
        seconds,
    })
}

// `ID/TASKS/LEAST/MOST/REQUIRED/CPUS/PER_NODE/MEM/whole or shared/NODES/SECONDS`, and with `/TIMES` behind it the times
// at which it may not have nodes.
fn job(alloc: Global, text: &[u8], count: usize) -> Result<PlanJob, Unanswered>
    ensures { IfOk result (λ job. All (λ node. node < count) job.nodes) }
{
    let words = parts(alloc, text, b'/')?;
    let words = words.as_slice();
    if words.len() == 12 {
        let barred = barred_list(alloc, words[11])?;
        return job_of(alloc, &words[..11], barred, count);
    }
    job_of(alloc, words, barred_list(alloc, b"")?, count)
}

/// Jobs of so many nodes.
pub fn jobs(alloc: Global, text: &[u8], count: usize) -> Result<Vec<PlanJob>, Unanswered>
    ensures { IfOk result (λ jobs. All (λ (job : PlanJob). All (λ node. node < count) job.nodes) jobs.items) }
{
    let mut jobs = Vec::new(alloc);
    for text in &parts(alloc, text, b',')? {
        jobs.push(job(alloc, text, count)?)?;
    }
    Ok(jobs)
}
