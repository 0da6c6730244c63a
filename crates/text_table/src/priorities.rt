// Lines of sprio.

use crate::numbers::{number_or_none, ranged};
use crate::views::query_text;
use plain_data::nice::Nice;
use reply_data::priority::{PriorityParts, PriorityRow};
use reply_data::view::Row;
use request_data::query::{Query, Who};
use small_texts::name::Name;
use std::alloc::Global;
use table_lines::answer::Unanswered;
use table_lines::fields::{narrow_number, number, parts};

// A number, behind a minus sign where the priority is raised.
fn nice(text: &[u8]) -> Result<Nice, Unanswered> {
    match text.split_first() {
        Some((b'-', digits)) => Ok(Nice::Raise(ranged(digits)?)),
        _ => Ok(Nice::Lower(ranged(text)?)),
    }
}

// `SUM/AGE/FAIRSHARE/JOBSIZE/PARTITION/QOS/NICE`.
fn priority_parts(words: &[&[u8]]) -> Result<PriorityParts, Unanswered> {
    let [sum, age, fair_share, job_size, partition, qos, niceness] = *words else {
        return Err(Unanswered::Arguments);
    };
    let sum = narrow_number(sum)?;
    let age = number(age)?;
    let fair_share = number(fair_share)?;
    let job_size = number(job_size)?;
    let partition = number(partition)?;
    let qos = number(qos)?;
    let nice = nice(niceness)?;
    Ok(PriorityParts {
        age,
        fair_share,
        job_size,
        partition,
        qos,
        nice,
        sum,
    })
}

// The job of `ID/ARRAY/INDEX/PARTITION/USER`, with `-/-` where it is no task, and its priority.
fn priority_row(
    alloc: Global,
    words: &[&[u8]],
    parts: PriorityParts,
) -> Result<PriorityRow, Unanswered> {
    let [id, array, index, partition, user] = *words else {
        return Err(Unanswered::Arguments);
    };
    let id = narrow_number(id)?;
    let array = number_or_none(array)?;
    let index = number_or_none(index)?;
    let partition = Name::read(alloc, partition)?;
    let user = Name::read(alloc, user)?;
    Ok(PriorityRow {
        id,
        array,
        index,
        parts,
        partition,
        user,
    })
}

fn row_of(alloc: Global, job: &[u8], priority: &[u8]) -> Result<PriorityRow, Unanswered> {
    let words = parts(alloc, priority, b'/')?;
    let priority = priority_parts(words.as_slice())?;
    let words = parts(alloc, job, b'/')?;
    priority_row(alloc, words.as_slice(), priority)
}

// What sprio shows of one job.
fn shown_job(alloc: Global, titles: bool, arguments: &[&[u8]]) -> Result<Vec<u8>, Unanswered> {
    let [job, priority] = *arguments else {
        return Err(Unanswered::Arguments);
    };
    let row = row_of(alloc, job, priority)?;
    let mut rows = Vec::new(alloc);
    rows.push(Row::Priority(row))?;
    let query = Query::Sprio {
        who: Who::Anyone,
        jobs: None,
        titles,
    };
    query_text(alloc, query, rows)
}

/// What `sprio -h` shows of one job.
pub fn priority(alloc: Global, arguments: &[&[u8]]) -> Result<Vec<u8>, Unanswered> {
    shown_job(alloc, false, arguments)
}

/// What `sprio` shows of one job.
pub fn titled_priority(alloc: Global, arguments: &[&[u8]]) -> Result<Vec<u8>, Unanswered> {
    shown_job(alloc, true, arguments)
}
