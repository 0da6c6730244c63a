//! The jobs that a submission makes.

ghost use Rattle.std.specs.Prelude.{◌≡◌, ◌+◌, ◌≤◌, ◌<◌, ◌^◌, ◌∷◌, [], IfOk, None, Some, length, map, max, unwrap_or};
ghost use Rattle.std.specs.List.{enumerate_from};
ghost use Rattle.ctl_state.specs.State.{state_of, last_job_id};
ghost use Rattle.ctl_jobs.specs.Drafts.{HasMade, job_by, lone_in, task_by, terms_in};
ghost use Rattle.ctl_jobs.specs.Submission.{count_of_jobs, held_at_first};

use crate::draft::Draft;
use crate::handed::Handed;
use crate::settled::{limit_in, settled};
use ctl_state::cluster::Cluster;
use ctl_state::record::ArrayRecord;
use job_table::record::JobRecord;
use job_table::terms::SharedTerms;
use plain_data::array::ArraySpec;
use plain_data::items::Items;
use plain_data::job::JobDesc;
use request_data::state::{HeldBy, JobState};
use small_texts::memory_error::Memory;
use std::alloc::Global;

// Who holds a job back that is handed in. `--hold` in sbatch(1).
fn held_at_first(desc: &JobDesc) -> HeldBy
    ensures { result ≡ held_at_first desc.now }
{
    if desc.held {
        HeldBy::User
    } else {
        HeldBy::Nobody
    }
}

// The second from which a job counts as waiting. `--begin` in sbatch(1).
fn eligible_from(moment: u64, desc: &JobDesc) -> u64
    ensures { result ≡ max moment (unwrap_or desc.now.begin 0) }
{
    moment.max(desc.begin.map_or(0, |begin| begin.get()))
}

// A job with this number on these terms, the task with this index of the array with that number.
fn new_job(
    alloc: Global,
    draft: &Draft<'_>,
    terms: SharedTerms,
    id: u32,
    array: Option<u32>,
    index: Option<u32>,
) -> Result<JobRecord, Memory>
    ensures { IfOk result (λ job. job ≡ job_by draft.now terms id array index) }
{
    let desc = draft.desc;
    Ok(JobRecord {
        id,
        array,
        index,
        user: draft.user.copy()?,
        terms,
        assoc: draft.assoc,
        qos: draft.qos,
        partition: draft.place,
        submit: draft.moment,
        eligible: eligible_from(draft.moment, desc),
        limit: limit_in(draft.partition, desc),
        nice: desc.nice,
        held_by: held_at_first(desc),
        state: JobState::Pending,
        starts: 0,
        parts: Items::from_vec(Vec::new(alloc)),
        started: None,
        ended: None,
        exit: None,
        last_nodes: Items::from_vec(Vec::new(alloc)),
    })
}

/// The job that the draft makes where it is no array. Linear in the texts of the submission.
pub(crate) fn lone_job(
    alloc: Global,
    cluster: &Cluster,
    draft: &Draft<'_>,
) -> Result<JobRecord, Memory>
    ensures { IfOk result (λ job. job ≡ lone_in (state_of cluster.now) draft.now) }
{
    let terms = SharedTerms::of(alloc, settled(alloc, cluster, draft)?)?;
    new_job(alloc, draft, terms, cluster.next_id, None, None)
}

// The task at a place among the indices, with this index, of the array with this number. It shares the terms.
fn task(
    alloc: Global,
    draft: &Draft<'_>,
    terms: &SharedTerms,
    array: u32,
    place: u32,
    index: u32,
) -> Result<JobRecord, Memory>
    requires { array + place < 2 ^ 32 }
    ensures { IfOk result (λ job. job ≡ task_by draft.now terms.now array (place, index)) }
{
    let id = array + place;
    new_job(alloc, draft, terms.share()?, id, Some(array), Some(index))
}

// The tasks with these indices, in their order, of the array with this number. They share the terms. Linear in them.
fn tasks_of(
    alloc: Global,
    draft: &Draft<'_>,
    terms: &SharedTerms,
    array: u32,
    indices: &[u32],
) -> Result<Vec<JobRecord>, Memory>
    requires { array + length indices.now ≤ last_job_id + 1 }
    ensures { IfOk result (λ tasks. tasks.items
        ≡ map (task_by draft.now terms.now array) (enumerate_from 0 indices.now)) }
{
    let mut tasks = Vec::with_capacity(alloc, indices.len())?;
    for (place, index) in indices.iter().enumerate() {
        tasks.push(task(alloc, draft, terms, array, place as u32, *index)?)?;
    }
    Ok(tasks)
}

// What the draft makes where it is this array.
#[tactic(auto, unfolding(crate::specs::Submission::new_jobs))]
fn handed_array(
    alloc: Global,
    cluster: &Cluster,
    draft: &Draft<'_>,
    terms: &SharedTerms,
    array: &ArraySpec,
) -> Result<Handed, Memory>
    requires terms { terms.now ≡ terms_in (state_of cluster.now) draft.now }
    requires numbers { cluster.now.next_id + length array.now.indices ≤ last_job_id + 1 }
    requires same { draft.now.desc.now.array ≡ Some array.now }
    ensures { IfOk result (HasMade (state_of cluster.now) draft.now) }
{
    let indices = array.indices.iter().as_slice();
    let jobs = tasks_of(alloc, draft, terms, cluster.next_id, indices)?;
    let record = ArrayRecord {
        id: cluster.next_id,
        indices: array.indices.copy()?,
    };
    Ok(Handed {
        jobs,
        array: Some(record),
    })
}

// What the draft makes where it is no array.
fn handed_job(alloc: Global, lone: JobRecord) -> Result<Handed, Memory>
    ensures { IfOk result (λ handed. (handed.jobs.items ≡ lone ∷ []) × (handed.array ≡ None)) }
{
    let jobs = vec![in alloc; lone]?;
    Ok(Handed { jobs, array: None })
}

/// What the draft makes, of which `lone` is the one job where it is no array. Linear in the tasks; the terms and the
/// index list are kept once for all of them.
#[tactic(auto, unfolding(crate::specs::Submission::new_jobs))]
pub(crate) fn hand_in(
    alloc: Global,
    cluster: &Cluster,
    draft: &Draft<'_>,
    lone: JobRecord,
) -> Result<Handed, Memory>
    requires numbers { cluster.now.next_id + count_of_jobs draft.now.desc.now.array ≤ last_job_id + 1 }
    requires lone { lone ≡ lone_in (state_of cluster.now) draft.now }
    ensures { IfOk result (HasMade (state_of cluster.now) draft.now) }
{
    match &draft.desc.array {
        Some(array) => handed_array(alloc, cluster, draft, &lone.terms, array),
        None => handed_job(alloc, lone),
    }
}
