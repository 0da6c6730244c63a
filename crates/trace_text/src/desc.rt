//! What a submission asks for.

ghost use Rattle.std.specs.Prelude.{◌≡◌, IfOk, codes};
ghost use Rattle.trace_text.specs.Handing.{desc_with, exit_of, kept, submission_of};

use crate::sizes::sizes_of;
use crate::submission::{LeftOut, Sizes, Submission, TakenNames};
use crate::{Outcome, TraceJob};
use plain_data::items::Items;
use plain_data::job::JobDesc;
use plain_data::nice::Nice;
use plain_data::ranged::Ranged;
use small_texts::memory_error::Memory;
use small_texts::name::{JobName, Name};
use std::alloc::Global;

// A name, where names of its kind count.
fn kept(counts: bool, name: &Option<Name>) -> Result<Option<Name>, Memory>
    ensures { IfOk result (λ copy. copy ≡ kept counts name.now) }
{
    match name {
        Some(name) if counts => Ok(Some(name.copy()?)),
        _ => Ok(None),
    }
}

// The name of all jobs of a replay.
fn job_name(alloc: Global) -> Result<JobName, Memory>
    ensures { IfOk result (λ name. name ≡ codes "trace") }
{
    JobName::read(alloc, b"trace").map_err(|_| Memory)
}

fn exit_of(outcome: Option<Outcome>) -> Ranged<0, 255>
    ensures { result ≡ exit_of outcome }
{
    match outcome {
        Some(Outcome::Failed) => Ranged::new(1),
        _ => Ranged::new(0),
    }
}

fn desc_with(
    alloc: Global,
    taken: TakenNames,
    job: &TraceJob,
    sizes: &Sizes,
) -> Result<JobDesc, Memory>
    ensures { IfOk result (λ desc. desc ≡ desc_with taken job.now sizes.now) }
{
    let name = job_name(alloc)?;
    let account = kept(taken.account, &job.names.account)?;
    let partition = kept(taken.partition, &job.names.partition)?;
    let qos = kept(taken.qos, &job.names.qos)?;
    Ok(JobDesc {
        name,
        account,
        partition,
        qos,
        reservation: None,
        tasks: sizes.tasks,
        cpus_per_task: Ranged::new(1),
        tasks_per_node: None,
        min_nodes: sizes.nodes,
        max_nodes: None,
        mem_ask: sizes.mem_ask,
        exclusive: false,
        limit: job.needs.limit,
        begin: None,
        nice: Nice::Lower(Ranged::new(0)),
        held: false,
        requeue: None,
        features: None,
        required: Items::from_vec(Vec::new(alloc)),
        excluded: Items::from_vec(Vec::new(alloc)),
        array: None,
        dependency: None,
        run: sizes.run,
        exit: exit_of(job.outcome),
        parsable: false,
    })
}

/// What is handed in for the job at a place of a trace, or why it is left out.
#[tactic(auto, unfolding(crate::specs::Handing::submission_of))]
pub(crate) fn submission_of(
    alloc: Global,
    taken: TakenNames,
    place: usize,
    job: &TraceJob,
) -> Result<Result<Submission, LeftOut>, Memory>
    ensures { IfOk result (λ handed. handed ≡ submission_of taken place job.now) }
{
    let sizes = match sizes_of(job) {
        Ok(sizes) => sizes,
        Err(reason) => return Ok(Err(reason)),
    };
    let Some(user) = &job.names.user else {
        return Ok(Err(LeftOut::NoUser));
    };
    let desc = desc_with(alloc, taken, job, &sizes)?;
    let user = user.copy()?;
    Ok(Ok(Submission {
        place,
        moment: sizes.moment,
        user,
        desc,
    }))
}
