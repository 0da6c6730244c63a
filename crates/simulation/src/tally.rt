//! What is counted along a simulation.

ghost use Rattle.std.specs.Prelude.{◌≡◌};
ghost use Rattle.simulation.specs.Simulation.{completes, count_of, has_completed, has_timed_out, is_end, is_left, is_unfinished, looked, nothing_counted, tallied, times_out};

use reply_data::reply::Reply;
use reply_data::view::{EndAt, Row};
use request_data::state::{Final, JobState};

/// What was counted so far.
#[derive(Clone, Copy, Debug, PartialEq, Eq)]
pub struct Tally {
    /// The moment of the last request.
    pub moment: u64,
    /// How many times a job started.
    pub started: u64,
    /// How many jobs were completed.
    pub completed: u64,
    /// How many jobs reached their time limit.
    pub timeout: u64,
    /// How many jobs were not over at the last look.
    pub left: u64,
}

impl Tally {
    /// Nothing was counted.
    pub fn new() -> Tally
        ensures { result ≡ nothing_counted }
    {
        Tally {
            moment: 0,
            started: 0,
            completed: 0,
            timeout: 0,
            left: 0,
        }
    }

    /// Counts what was replied at a moment.
    pub fn take(&mut self, now: u64, reply: &Reply)
        ensures { self.new ≡ tallied now reply.now self.old }
    {
        self.moment = now;
        if let Reply::Passed { started, .. } = reply {
            self.started = self.started.saturating_add(u64::from(*started));
        }
    }

    /// Counts the jobs that ended at the last moment, and those that are left.
    pub fn look(&mut self, rows: &[Row])
        ensures { self.new ≡ looked rows.now self.old }
    {
        let completed = completed_at(self.moment, rows);
        let timeout = timed_out_at(self.moment, rows);
        self.completed = self.completed.saturating_add(completed);
        self.timeout = self.timeout.saturating_add(timeout);
        self.left = left_of(rows);
    }
}

fn is_unfinished(state: JobState) -> bool
    ensures { result ≡ is_unfinished state }
{
    match state {
        JobState::Ended(_) => false,
        JobState::Pending | JobState::Running | JobState::Completing(_) => true,
    }
}

fn has_completed(state: JobState) -> bool
    ensures { result ≡ has_completed state }
{
    matches!(state, JobState::Ended(Final::Completed))
}

fn has_timed_out(state: JobState) -> bool
    ensures { result ≡ has_timed_out state }
{
    matches!(state, JobState::Ended(Final::Timeout))
}

fn is_end(now: u64, end: EndAt) -> bool
    ensures { result ≡ is_end now end }
{
    match end {
        EndAt::At(second) => second.get() == now,
        EndAt::Nothing | EndAt::Unknown => false,
    }
}

#[tactic(auto, unfolding(crate::specs::Simulation::is_left))]
fn is_left(row: &Row) -> bool
    ensures { result ≡ is_left row.now }
{
    match row {
        Row::Job(job) => is_unfinished(job.state),
        _ => false,
    }
}

fn completes(now: u64, row: &Row) -> bool
    ensures { result ≡ completes now row.now }
{
    match row {
        Row::Job(job) => has_completed(job.state) && is_end(now, job.end),
        _ => false,
    }
}

fn times_out(now: u64, row: &Row) -> bool
    ensures { result ≡ times_out now row.now }
{
    match row {
        Row::Job(job) => has_timed_out(job.state) && is_end(now, job.end),
        _ => false,
    }
}

fn completed_at(now: u64, rows: &[Row]) -> u64
    ensures { result ≡ count_of (completes now) rows.now }
{
    rows.iter().filter(|row| completes(now, row)).count() as u64
}

fn timed_out_at(now: u64, rows: &[Row]) -> u64
    ensures { result ≡ count_of (times_out now) rows.now }
{
    rows.iter().filter(|row| times_out(now, row)).count() as u64
}

fn left_of(rows: &[Row]) -> u64
    ensures { result ≡ count_of is_left rows.now }
{
    let mut left = 0;
    for row in rows {
        left += u64::from(is_left(row));
    }
    left
}
