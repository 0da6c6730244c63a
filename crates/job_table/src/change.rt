//! What may happen to a job.

ghost use Rattle.std.specs.Prelude.{◌≡◌};
ghost use Rattle.job_table.specs.Changes.{changed, not_again, off_node, parts_off, with_left};

use crate::record::{JobRecord, Part};
use plain_data::items::Items;
use plain_data::limit::Limit;
use plain_data::nice::Nice;
use request_data::state::{Final, HeldBy, JobState};
use small_texts::name::Name;
use std::alloc::Global;
use std::mem;

/// What happens to a job at a moment (own).
#[derive(Drop)]
pub enum Change {
    /// It starts with these parts, which are on these nodes.
    Start {
        moment: u64,
        parts: Items<Part>,
        nodes: Items<Name>,
    },
    /// It leaves Running, and completes.
    Leave {
        to: Final,
        moment: u64,
        exit: Option<u32>,
    },
    /// It is cancelled, where it is pending.
    CancelPending {
        moment: u64,
    },
    /// It is cancelled, where it is completing and was to start again.
    CancelRequeue,
    /// It leaves a node, where it is completing.
    DropPart {
        node: u32,
        moment: u64,
    },
    /// It is held back, or let go.
    SetHold(HeldBy),
    /// It may run so long.
    SetLimit(Limit),
    /// It is nicer, or less nice.
    SetNice(Nice),
}

/// Changes the job. It takes no memory; the cost is the job's parts.
pub(crate) fn apply(alloc: Global, job: &mut JobRecord, change: Change)
    ensures { job.new ≡ changed change job.old }
{
    match change {
        Change::Start {
            moment,
            parts,
            nodes,
        } => start(job, moment, parts, nodes),
        Change::Leave { to, moment, exit } => leave(job, to, moment, exit),
        Change::CancelPending { moment } => cancel_pending(job, moment),
        Change::CancelRequeue => cancel_requeue(job),
        Change::DropPart { node, moment } => leave_node(alloc, job, node, moment),
        Change::SetHold(by) => job.held_by = by,
        Change::SetLimit(limit) => job.limit = limit,
        Change::SetNice(nice) => job.nice = nice,
    }
}

fn start(job: &mut JobRecord, moment: u64, parts: Items<Part>, nodes: Items<Name>)
    ensures { job.new ≡ changed (Change.Start moment parts nodes) job.old }
{
    job.state = JobState::Running;
    job.starts = job.starts.saturating_add(1);
    job.parts = parts;
    job.started = Some(moment);
    job.ended = None;
    job.exit = None;
    job.last_nodes = nodes;
}

fn leave(job: &mut JobRecord, to: Final, moment: u64, exit: Option<u32>)
    ensures { job.new ≡ changed (Change.Leave to moment exit) job.old }
{
    if job.state == JobState::Running {
        job.state = JobState::Completing(to);
        job.ended = Some(moment);
        job.exit = exit;
    }
}

fn cancel_pending(job: &mut JobRecord, moment: u64)
    ensures { job.new ≡ changed (Change.CancelPending moment) job.old }
{
    if job.state == JobState::Pending {
        job.state = JobState::Ended(Final::Cancelled);
        job.ended = Some(moment);
    }
}

fn cancel_requeue(job: &mut JobRecord)
    ensures { job.new ≡ not_again job.old job.old.state }
{
    if job.state == JobState::Completing(Final::Requeue) {
        job.state = JobState::Completing(Final::Cancelled);
    }
}

fn leave_node(alloc: Global, job: &mut JobRecord, node: u32, moment: u64)
    ensures { job.new ≡ off_node moment node job.old job.old.state }
{
    if let JobState::Completing(to) = job.state {
        drop_parts(alloc, &mut job.parts, node);
        settle(job, to, moment);
    }
}

// Ends a completing job that holds nothing any more, or has it wait again.
fn settle(job: &mut JobRecord, to: Final, moment: u64)
    ensures { job.new ≡ with_left moment to job.old.parts job.old }
{
    if !job.parts.as_slice().is_empty() {
        return;
    }
    match to {
        Final::Requeue => job.state = JobState::Pending,
        _ => {
            job.state = JobState::Ended(to);
            job.ended = Some(moment);
        }
    }
}

// Drops the parts on the node, with no memory.
fn drop_parts(alloc: Global, parts: &mut Items<Part>, node: u32)
    ensures { parts.new ≡ parts_off node parts.old }
{
    let mut rest = mem::replace(parts, Items::from_vec(Vec::new(alloc))).into_vec();
    rest.retain(|part| part.node != node);
    *parts = Items::from_vec(rest);
}
