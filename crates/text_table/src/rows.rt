// Jobs as squeue shows them.

use crate::numbers::{long_ranged, number_or_none};
use host_lists::hosts::expand_hosts;
use plain_data::items::Items;
use plain_data::limit::Limit;
use plain_data::nice::Nice;
use plain_data::parse_limit;
use plain_data::ranged::{LongRanged, Ranged};
use plain_data::seconds::{FOREVER, Second};
use reply_data::view::{EndAt, JobRow};
use request_data::state::{Final, JobState, Reason};
use small_texts::name::{JobName, Name};
use std::alloc::Global;
use table_lines::answer::Unanswered;
use table_lines::fields::{LONGEST, narrow_number, number, parts};

// A job that waits for a reason, or `R`, `CG` or `TO`.
fn state(text: &[u8]) -> Result<(JobState, Option<Reason>), Unanswered> {
    let Ok(text) = str::from_utf8(text) else {
        return Err(Unanswered::Arguments);
    };
    match text {
        "Resources" => Ok((JobState::Pending, Some(Reason::Resources))),
        "Priority" => Ok((JobState::Pending, Some(Reason::Priority))),
        "JobHeldUser" => Ok((JobState::Pending, Some(Reason::JobHeldUser))),
        "R" => Ok((JobState::Running, None)),
        "CG" => Ok((JobState::Completing(Final::Timeout), None)),
        "TO" => Ok((JobState::Ended(Final::Timeout), None)),
        _ => Err(Unanswered::Arguments),
    }
}

// A second, or `-`.
fn start(text: &[u8]) -> Result<Option<Second>, Unanswered> {
    if text == b"-".as_slice() {
        return Ok(None);
    }
    let second = long_ranged(text)?;
    Ok(Some(second))
}

fn node_names(alloc: Global, text: &[u8]) -> Result<Items<Name>, Unanswered> {
    if text.is_empty() {
        return Ok(Items::from_vec(Vec::new(alloc)));
    }
    if text.len() > LONGEST {
        return Err(Unanswered::Arguments);
    }
    match expand_hosts(alloc, text, usize::MAX) {
        Ok(names) => Ok(Items::from_vec(names)),
        Err(_) => Err(Unanswered::Arguments),
    }
}

fn limit(text: &[u8]) -> Result<Limit, Unanswered> {
    match parse_limit(text) {
        Ok(limit) => Ok(limit),
        Err(_) => Err(Unanswered::Arguments),
    }
}

// Of a task the number of its array and its index; the priority, the limit and the processors.
#[derive(Clone, Copy)]
struct Numbers {
    array: Option<u32>,
    index: Option<u32>,
    priority: u32,
    limit: Limit,
    cpus: u64,
}

// `ARRAY/INDEX/PRIORITY/LIMIT/CPUS`, with `-/-` where the job is no task.
fn numbers_of(words: [&[u8]; 5]) -> Result<Numbers, Unanswered> {
    let [array, index, priority, minutes, cpus] = words;
    let array = number_or_none(array)?;
    let index = number_or_none(index)?;
    let priority = narrow_number(priority)?;
    let limit = limit(minutes)?;
    let cpus = number(cpus)?;
    Ok(Numbers {
        array,
        index,
        priority,
        limit,
        cpus,
    })
}

// What the usual formats don't tell.
#[derive(Drop)]
struct Extras {
    numbers: Numbers,
    account: Name,
    qos: Name,
}

// `ARRAY/INDEX/ACCOUNT/QOS/PRIORITY/LIMIT/CPUS`.
fn extras_of(alloc: Global, words: &[&[u8]]) -> Result<Extras, Unanswered> {
    let [array, index, account, qos, priority, minutes, cpus] = *words else {
        return Err(Unanswered::Arguments);
    };
    let numbers = numbers_of([array, index, priority, minutes, cpus])?;
    let account = Name::read(alloc, account)?;
    let qos = Name::read(alloc, qos)?;
    Ok(Extras {
        numbers,
        account,
        qos,
    })
}

// A job's number and state, how long it has run, on how many nodes, and when it starts.
#[derive(Clone, Copy)]
struct Standing {
    id: u32,
    state: JobState,
    reason: Option<Reason>,
    elapsed: LongRanged<0, FOREVER>,
    nodes: u64,
    start: Option<Second>,
}

// `ID/STATE/SECONDS/NODES/START`.
fn standing_of(words: [&[u8]; 5]) -> Result<Standing, Unanswered> {
    let [id, word, seconds, nodes, second] = words;
    let id = narrow_number(id)?;
    let (state, reason) = state(word)?;
    let elapsed = long_ranged(seconds)?;
    let nodes = number(nodes)?;
    let start = start(second)?;
    Ok(Standing {
        id,
        state,
        reason,
        elapsed,
        nodes,
        start,
    })
}

// What a job is called, whose it is, and where it runs.
#[derive(Drop)]
struct Names {
    name: JobName,
    user: Name,
    partition: Name,
    node_names: Items<Name>,
}

fn names_of(
    alloc: Global,
    name: &[u8],
    user: &[u8],
    partition: &[u8],
    nodes: &[u8],
) -> Result<Names, Unanswered> {
    let name = JobName::read(alloc, name)?;
    let user = Name::read(alloc, user)?;
    let partition = Name::read(alloc, partition)?;
    let node_names = node_names(alloc, nodes)?;
    Ok(Names {
        name,
        user,
        partition,
        node_names,
    })
}

// What squeue doesn't show is as of a job that never ran.
fn joined(alloc: Global, standing: Standing, names: Names, extras: Extras) -> JobRow {
    let Names {
        name,
        user,
        partition,
        node_names,
    } = names;
    let Extras {
        numbers,
        account,
        qos,
    } = extras;
    JobRow {
        id: standing.id,
        array: numbers.array,
        index: numbers.index,
        elapsed: standing.elapsed,
        nodes: standing.nodes,
        start: standing.start,
        name,
        user,
        partition,
        node_names,
        account,
        qos,
        state: standing.state,
        reason: standing.reason,
        priority: numbers.priority,
        limit: numbers.limit,
        cpus: numbers.cpus,
        tasks: 1,
        nice: Nice::Lower(Ranged::new(0)),
        dependency: None,
        requeue: false,
        restarts: 0,
        exit: None,
        submit: LongRanged::new(0),
        eligible: LongRanged::new(0),
        end: EndAt::Nothing,
        parts: Items::from_vec(Vec::new(alloc)),
    }
}

// The job of `ID/NAME/USER/PARTITION/STATE/SECONDS/NODES/NAMES/START` and of `more`.
fn row_of(alloc: Global, words: &[&[u8]], more: &[&[u8]]) -> Result<JobRow, Unanswered> {
    let [
        id,
        name,
        user,
        partition,
        state,
        seconds,
        nodes,
        hosts,
        second,
    ] = *words
    else {
        return Err(Unanswered::Arguments);
    };
    let standing = standing_of([id, state, seconds, nodes, second])?;
    let names = names_of(alloc, name, user, partition, hosts)?;
    let extras = extras_of(alloc, more)?;
    Ok(joined(alloc, standing, names, extras))
}

/// The job of `ID/NAME/USER/PARTITION/STATE/SECONDS/NODES/NAMES/START` and of
/// `ARRAY/INDEX/ACCOUNT/QOS/PRIORITY/LIMIT/CPUS`.
pub fn job_row(alloc: Global, job: &[u8], more: &[u8]) -> Result<JobRow, Unanswered> {
    let words = parts(alloc, job, b'/')?;
    let more = parts(alloc, more, b'/')?;
    row_of(alloc, words.as_slice(), more.as_slice())
}
