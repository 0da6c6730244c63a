// Lines of squeue.

use crate::rows::job_row;
use crate::views::query_text;
use operands::format::{FormatRefusal, read_format};
use plain_data::items::Items;
use reply_data::view::Row;
use request_data::boxed::Boxed;
use request_data::query::{JobQuery, Piece, Query, Who};
use std::alloc::Global;
use table_lines::answer::{Unanswered, refused};

// What squeue shows of these rows.
fn shown(
    alloc: Global,
    titles: bool,
    starts: bool,
    format: Option<Items<Piece>>,
    rows: Vec<Row>,
) -> Result<Vec<u8>, Unanswered> {
    let query = JobQuery {
        who: Who::Anyone,
        jobs: None,
        partition: None,
        states: None,
        titles,
        starts,
        format,
    };
    query_text(alloc, Query::Squeue(Boxed::new(alloc, query)?), rows)
}

// The same in a format, where the text is one.
fn shown_by(
    alloc: Global,
    titles: bool,
    format: &[u8],
    rows: Vec<Row>,
) -> Result<Vec<u8>, Unanswered> {
    match read_format(alloc, format) {
        Ok(pieces) => shown(alloc, titles, false, Some(pieces), rows),
        Err(FormatRefusal::Memory) => Err(Unanswered::Memory),
        Err(refusal) => refused(alloc, &refusal),
    }
}

fn job(alloc: Global, job: &[u8], more: &[u8]) -> Result<Vec<Row>, Unanswered> {
    let row = job_row(alloc, job, more)?;
    let mut rows = Vec::new(alloc);
    rows.push(Row::Job(row))?;
    Ok(rows)
}

/// What `squeue -h` shows of one job, or `squeue -h --start` where `columns` is `starts`.
pub fn row(alloc: Global, arguments: &[&[u8]]) -> Result<Vec<u8>, Unanswered> {
    let [columns, words] = *arguments else {
        return Err(Unanswered::Arguments);
    };
    let rows = job(alloc, words, b"-/-/staff/normal/0/60/1")?;
    shown(alloc, false, columns == b"starts".as_slice(), None, rows)
}

/// What `squeue -h -o FORMAT` shows of one job.
pub fn line(alloc: Global, arguments: &[&[u8]]) -> Result<Vec<u8>, Unanswered> {
    let [format, words, more] = *arguments else {
        return Err(Unanswered::Arguments);
    };
    let rows = job(alloc, words, more)?;
    shown_by(alloc, false, format, rows)
}

/// What `squeue -o FORMAT` shows where there are no jobs.
pub fn titles(alloc: Global, arguments: &[&[u8]]) -> Result<Vec<u8>, Unanswered> {
    let [format] = *arguments else {
        return Err(Unanswered::Arguments);
    };
    shown_by(alloc, true, format, Vec::new(alloc))
}
