//! The numbers of a submission.

ghost use Rattle.std.specs.Prelude.{◌≡◌, ◌≤◌};
ghost use Rattle.trace_text.specs.Handing.{asked_memory, is_cancelled, memory_of, moment_of, nodes_of, run_of, sizes_of, tasks_of};

use crate::submission::{LeftOut, Sizes};
use crate::{Outcome, TraceJob, TraceMemory, TraceNeeds, TraceTimes};
use plain_data::mem_ask::MemAsk;
use plain_data::ranged::{LongRanged, Ranged};
use plain_data::seconds::Moment;

/// The last moment that a request can have.
const LAST_MOMENT: u64 = 250_000_000_000;

/// The longest run.
const LONGEST_RUN: u64 = 2_000_000_000;

const MOST_TASKS: u64 = 1_048_576;

const MOST_NODES: u64 = 1024;

/// The most megabytes of a node.
const MOST_MEMORY: u64 = 16_777_216;

#[tactic(auto, unfolding(crate::specs::Handing::moment_of))]
fn moment_of(times: TraceTimes) -> Result<Moment, LeftOut>
    ensures { result ≡ moment_of times }
{
    match times.submit {
        None => Err(LeftOut::NoSubmit),
        Some(moment) if moment <= LAST_MOMENT => Ok(LongRanged::new(moment)),
        Some(_) => Err(LeftOut::OutOfRange),
    }
}

fn is_cancelled(outcome: Option<Outcome>) -> bool
    ensures { result ≡ is_cancelled outcome }
{
    matches!(outcome, Some(Outcome::Cancelled))
}

// How long it runs: a second at least, where it ran.
#[tactic(auto, unfolding(crate::specs::Handing::run_of))]
fn run_of(times: TraceTimes, outcome: Option<Outcome>) -> Result<Ranged<1, 2000000000>, LeftOut>
    ensures { result ≡ run_of times outcome }
{
    let run = times.run.ok_or(LeftOut::NoRun)?;
    if is_cancelled(outcome) && run == 0 {
        Err(LeftOut::NoRun)
    } else if run <= LONGEST_RUN {
        Ok(Ranged::new(run.max(1)))
    } else {
        Err(LeftOut::OutOfRange)
    }
}

// A task for each processor.
#[tactic(auto, unfolding(crate::specs::Handing::tasks_of))]
fn tasks_of(needs: TraceNeeds) -> Result<Ranged<1, 1048576>, LeftOut>
    ensures { result ≡ tasks_of needs }
{
    let tasks = needs.processors.or(needs.nodes).unwrap_or(1).max(1);
    if tasks <= MOST_TASKS {
        Ok(Ranged::new(tasks))
    } else {
        Err(LeftOut::OutOfRange)
    }
}

// No more nodes than tasks.
#[tactic(auto, unfolding(crate::specs::Handing::nodes_of))]
fn nodes_of(needs: TraceNeeds, tasks: u64) -> Result<Ranged<1, 1024>, LeftOut>
    requires { 1 ≤ tasks }
    ensures { result ≡ nodes_of needs tasks }
{
    let nodes = needs.nodes.unwrap_or(1).max(1).min(tasks);
    if nodes <= MOST_NODES {
        Ok(Ranged::new(nodes))
    } else {
        Err(LeftOut::OutOfRange)
    }
}

// So many megabytes; 0 asks for none.
fn asked_memory(megabytes: u64) -> Result<Option<Ranged<1, 16777216>>, LeftOut>
    ensures { result ≡ asked_memory megabytes }
{
    if megabytes == 0 {
        Ok(None)
    } else if megabytes <= MOST_MEMORY {
        Ok(Some(Ranged::new(megabytes)))
    } else {
        Err(LeftOut::OutOfRange)
    }
}

#[tactic(auto, unfolding(crate::specs::Handing::memory_of))]
fn memory_of(memory: Option<TraceMemory>, tasks: u64) -> Result<Option<MemAsk>, LeftOut>
    requires { 1 ≤ tasks }
    ensures { result ≡ memory_of memory tasks }
{
    match memory {
        None => Ok(None),
        Some(TraceMemory::PerProcessor(amount)) => {
            let asked = asked_memory(amount)?;
            Ok(asked.map(MemAsk::PerCpu))
        }
        Some(TraceMemory::PerNode(amount)) => {
            let asked = asked_memory(amount)?;
            Ok(asked.map(MemAsk::PerNode))
        }
        Some(TraceMemory::InAll(amount)) => {
            let asked = asked_memory(amount.div_ceil(tasks))?;
            Ok(asked.map(MemAsk::PerCpu))
        }
    }
}

/// The numbers of what is handed in for a job, or why it is left out.
#[tactic(auto, unfolding(crate::specs::Handing::sizes_of))]
pub(crate) fn sizes_of(job: &TraceJob) -> Result<Sizes, LeftOut>
    ensures { result ≡ sizes_of job.now }
{
    let moment = moment_of(job.times)?;
    let run = run_of(job.times, job.outcome)?;
    let tasks = tasks_of(job.needs)?;
    let nodes = nodes_of(job.needs, tasks.get())?;
    let mem_ask = memory_of(job.needs.memory, tasks.get())?;
    Ok(Sizes {
        moment,
        run,
        tasks,
        nodes,
        mem_ask,
    })
}
