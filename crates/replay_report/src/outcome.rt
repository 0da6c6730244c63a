//! What became of a job of a trace.

ghost use Rattle.std.specs.Prelude.{◌≡◌, IfOk};
ghost use Rattle.std.specs.Option.{option_copied};
ghost use Rattle.replay_report.specs.Fates.{end_of, ended_of, fate_of, fate_of_row, job_numbered, record_of, rows_behind, rows_left, run_seen};

use plain_data::items::Items;
use reply_data::refusal::Refusal;
use reply_data::reply::Reply;
use reply_data::view::{EndAt, JobRow, Row};
use request_data::state::{Final, JobState};
use small_texts::memory_error::Memory;
use small_texts::name::Name;
use trace_text::{LeftOut, TraceId, TraceNames, TraceTimes};

/// A run from its start to its end (own).
#[derive(Debug, Drop)]
pub struct Run {
    pub start: u64,
    pub end: u64,
    pub last: Final,
    pub nodes: Items<Name>,
}

/// What the record of a job shows that hasn't run from a start to an end (own).
#[derive(Debug, Drop)]
pub struct Standing {
    pub state: JobState,
    /// The second of its start, or the one planned for it.
    pub start: Option<u64>,
    /// The second at which it reaches its limit, where it runs.
    pub end: Option<u64>,
    pub nodes: Items<Name>,
}

/// What became of a job of a trace (own).
#[derive(Debug, Drop)]
pub enum Fate {
    /// It ran here, and ended.
    Ran(Run),
    /// It was taken and hasn't ended: mostly it waits for what a replay doesn't bring.
    Waits(Standing),
    /// It was taken, and no record of it is kept any more.
    Forgotten,
    Refused(Refusal),
    LeftOut(LeftOut),
}

/// The outcome of a job of a trace (own).
#[derive(Debug, Drop)]
pub struct JobOutcome {
    /// Its place in the trace, counted from 0.
    pub place: usize,
    pub id: TraceId,
    /// As the trace tells them.
    pub times: TraceTimes,
    /// As the trace tells them.
    pub names: TraceNames,
    /// How many processors were asked for; 0 where it was left out.
    pub processors: u64,
    /// How many nodes were asked for; 0 where it was left out.
    pub nodes: u64,
    pub fate: Fate,
}

/// The second, the moment and the final of a run.
#[derive(Clone, Copy)]
pub(crate) struct RunSeen {
    pub(crate) start: u64,
    pub(crate) end: u64,
    pub(crate) last: Final,
}

fn end_of(end: EndAt) -> Option<u64>
    ensures { result ≡ end_of end }
{
    match end {
        EndAt::At(second) => Some(second.get()),
        EndAt::Nothing => None,
        EndAt::Unknown => None,
    }
}

fn start_of(row: &JobRow) -> Option<u64>
    ensures { result ≡ row.now.start }
{
    match &row.start {
        Some(second) => Some(second.get()),
        None => None,
    }
}

fn ended_of(state: JobState) -> Option<Final>
    ensures { result ≡ ended_of state }
{
    match state {
        JobState::Ended(last) => Some(last),
        JobState::Pending => None,
        JobState::Running => None,
        JobState::Completing(_) => None,
    }
}

fn run_seen(last: Option<Final>, start: Option<u64>, end: Option<u64>) -> Option<RunSeen>
    ensures { result ≡ run_seen last start end }
{
    let last = last?;
    let start = start?;
    let end = end?;
    Some(RunSeen { start, end, last })
}

// What a record shows.
#[tactic(auto, unfolding(crate::specs::Fates::fate_of_row))]
fn fate_of_row(row: &JobRow) -> Result<Fate, Memory>
    ensures { IfOk result (λ fate. fate ≡ fate_of_row row.now) }
{
    let nodes = row.node_names.copy()?;
    let start = start_of(row);
    let end = end_of(row.end);
    match run_seen(ended_of(row.state), start, end) {
        Some(seen) => Ok(Fate::Ran(Run {
            start: seen.start,
            end: seen.end,
            last: seen.last,
            nodes,
        })),
        None => Ok(Fate::Waits(Standing {
            state: row.state,
            start,
            end,
            nodes,
        })),
    }
}

// The record of a row, where it is of the job of this number.
fn job_numbered(number: u32, row: &Row) -> Option<&JobRow>
    ensures { option_copied result ≡ job_numbered number row.now }
{
    match row {
        Row::Job(job) => { if job.id == number { Some(job) } else { None } }
        _ => None,
    }
}

// The first record, where it is of the job of this number.
fn record_of(rows: &[Row], number: u32) -> Option<&JobRow>
    ensures { option_copied result ≡ record_of rows.now number }
{
    match rows {
        [] => None,
        [row, ..] => job_numbered(number, row),
    }
}

// What is left of the records behind that of the job of this number.
fn rows_left(rows: &[Row], number: u32) -> &[Row]
    ensures { result.now ≡ rows_left rows.now number }
{
    match rows {
        [] => rows,
        [row, behind @ ..] => {
            if job_numbered(number, row).is_some() {
                behind
            } else {
                rows
            }
        }
    }
}

/// What is left of the records behind that of a job whose user was told this.
pub(crate) fn rows_behind<'a>(reply: &Reply, rows: &'a [Row]) -> &'a [Row]
    ensures { result.now ≡ rows_behind reply.now rows.now }
{
    match reply {
        Reply::Submitted { id } => rows_left(rows, *id),
        _ => rows,
    }
}

/// What became of a job whose user was told this; its record is the first, where it has one.
pub(crate) fn fate_of(reply: &Reply, rows: &[Row]) -> Result<Fate, Memory>
    ensures { IfOk result (λ fate. fate ≡ fate_of reply.now rows.now) }
{
    match reply {
        Reply::Submitted { id } => match record_of(rows, *id) {
            Some(job) => fate_of_row(job),
            None => Ok(Fate::Forgotten),
        },
        Reply::Refused(refusal) => Ok(Fate::Refused(*refusal)),
        _ => Ok(Fate::Forgotten),
    }
}
