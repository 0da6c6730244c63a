//! The job that options describe.

ghost use Rattle.std.specs.Prelude.{◌≡◌, ◌*◌, ℕ, List, Option, option_map, IfOk};
ghost use Rattle.small_texts.specs.Fields.{fields, fields_of_rest};
ghost use Rattle.sbatch_reader.specs.Description.{least_nodes, are_crossed, all_tasks, min_nodes, max_nodes, last_part, usual_name, job_name, job_of, named};

use crate::entries::JobWords;
use crate::refusal::{JobRefusal, Place, WordKind, told};
use plain_data::job::JobDesc;
use plain_data::ranged::Ranged;
use small_texts::fields::first_field;
use small_texts::memory_error::Memory;
use small_texts::name::{JobName, NameRefusal};
use std::alloc::Global;
use std::mem;

// How many nodes the job has, at least.
#[tactic(auto, unfolding(crate::specs::Description::least_nodes))]
fn least_nodes(words: &JobWords) -> Ranged<1, 1024>
    ensures { result ≡ least_nodes words.now }
{
    let asked = match words.nodes {
        Some(range) => range.least.get(),
        None => 1,
    };
    Ranged::new(asked.max(words.required.count()))
}

/// Whether there are to be fewer nodes at most than at least.
#[tactic(auto, unfolding(crate::specs::Description::are_crossed))]
pub(crate) fn are_crossed(words: &JobWords) -> bool
    ensures { result ≡ are_crossed words.now }
{
    match words.nodes {
        Some(range) => range.most.get() < least_nodes(words).get(),
        None => false,
    }
}

fn product(one: Ranged<1, 1024>, other: Ranged<1, 1024>) -> Ranged<1, 1048576>
    ensures { result ≡ one * other }
{
    Ranged::new(one.get() * other.get())
}

#[tactic(auto, unfolding(crate::specs::Description::all_tasks))]
fn all_tasks(words: &JobWords) -> Ranged<1, 1048576>
    ensures { result ≡ all_tasks words.now }
{
    match words.tasks {
        Some(tasks) => tasks,
        None => product(
            words.tasks_per_node.unwrap_or(Ranged::new(1)),
            least_nodes(words),
        ),
    }
}

// The least nodes, or the tasks where these are fewer.
fn min_nodes(words: &JobWords) -> Ranged<1, 1024>
    ensures { result ≡ min_nodes words.now }
{
    let tasks = all_tasks(words).get();
    let least = least_nodes(words);
    if tasks < least.get() {
        Ranged::new(tasks)
    } else {
        least
    }
}

// The most nodes, or the tasks where these are fewer than the least nodes.
fn max_nodes(words: &JobWords) -> Option<Ranged<1, 1024>>
    ensures { result ≡ max_nodes words.now }
{
    let tasks = all_tasks(words).get();
    let range = words.nodes?;
    if tasks < least_nodes(words).get() {
        Some(Ranged::new(tasks))
    } else {
        Some(range.most)
    }
}

// What follows the last slash of a path.
#[tactic(auto, unfolding(crate::specs::Description::last_part))]
fn last_part(path: &[u8]) -> &[u8]
    ensures { result.now ≡ last_part path.now }
{
    let (first, behind) = first_field(path, b'/');
    let mut part = first;
    let mut rest = behind;
    while let Some(text) = rest {
        let (next, behind) = first_field(text, b'/');
        part = next;
        rest = behind;
    }
    part
}

// A name that this crate gives.
fn own_name(alloc: Global, name: &[u8]) -> Result<JobName, Memory>
    ensures { IfOk result (λ own. own ≡ name.now) }
{
    JobName::read(alloc, name).map_err(|_| Memory)
}

// The name of a job that has none of its own.
fn usual_name(
    alloc: Global,
    wrap: bool,
    script: Option<(usize, &[u8])>,
) -> Result<Result<JobName, JobRefusal>, Memory>
    ensures { IfOk result (λ name. name ≡ usual_name wrap (option_map (λ word. (word.0, word.1.now)) script.entry)) }
{
    let Some((number, path)) = script else {
        let name = if wrap {
            own_name(alloc, b"wrap")?
        } else {
            own_name(alloc, b"sbatch")?
        };
        return Ok(Ok(name));
    };
    match JobName::read(alloc, last_part(path)) {
        Ok(name) => Ok(Ok(name)),
        Err(NameRefusal::BadName) => Ok(Err(Place::Word(told(number)).refusal(WordKind::BadValue))),
        Err(NameRefusal::Memory) => Err(Memory),
    }
}

// The job of a name.
#[tactic(auto, unfolding(crate::specs::Description::job_of))]
fn job_of(words: JobWords, name: JobName) -> JobDesc
    ensures { result ≡ job_of words name }
{
    let tasks = all_tasks(&words);
    let min_nodes = min_nodes(&words);
    let max_nodes = max_nodes(&words);
    JobDesc {
        name,
        account: words.account,
        partition: words.partition,
        qos: words.qos,
        reservation: words.reservation,
        tasks,
        cpus_per_task: words.cpus_per_task,
        tasks_per_node: words.tasks_per_node,
        min_nodes,
        max_nodes,
        mem_ask: words.mem_ask,
        exclusive: words.exclusive,
        limit: words.limit,
        begin: words.begin,
        nice: words.nice,
        held: words.held,
        requeue: words.requeue,
        features: words.features,
        required: words.required.into_items(),
        excluded: words.excluded.into_items(),
        array: words.array,
        dependency: words.dependency,
        run: words.run,
        exit: words.exit,
        parsable: words.parsable,
    }
}

/// The job that options describe, named by the word of its script where it has no name of its own.
#[tactic(auto, unfolding(crate::specs::Description::job_of, crate::specs::Description::all_tasks, crate::specs::Description::least_nodes))]
pub(crate) fn describe(
    alloc: Global,
    words: JobWords,
    script: Option<(usize, &[u8])>,
) -> Result<Result<JobDesc, JobRefusal>, Memory>
    ensures { IfOk result (λ job. job
        ≡ named words (job_name words (option_map (λ word. (word.0, word.1.now)) script.entry))) }
{
    let mut words = words;
    match mem::replace(&mut words.name, None) {
        Some(name) => Ok(Ok(job_of(words, name))),
        None => match usual_name(alloc, words.wrap, script)? {
            Ok(name) => Ok(Ok(job_of(words, name))),
            Err(refusal) => Ok(Err(refusal)),
        },
    }
}
