//! How many jobs haven't ended, by association and quality of service.

ghost use Rattle.std.specs.Prelude.{◌≡◌, ◌<◌, ◌+◌, ◌++◌, ℕ, Bool, List, [], IfSome, length, sum_by, true};
ghost use Rattle.std.specs.Bool.{OnTrue};
ghost use Rattle.std.specs.List.{HoldsAt};
ghost use Rattle.job_table.specs.declared.record.JobRecord.{JobRecord};
ghost use Rattle.job_table.specs.Tallies.{HasOneMore, IsTallied, OneChanges, ShowsUnended, counted, is_unended, passes};
ghost use Rattle.job_table.specs.Tallies as spec;

use crate::record::JobRecord;
use request_data::state::JobState;
use std::alloc::{AllocError, Global};

/// How many jobs of an association and a quality of service haven't ended (own).
#[derive(Clone, Copy, PartialEq, Eq, Debug)]
pub struct Unended {
    /// The association's place in the list of associations.
    pub assoc: u32,
    /// The place of the quality of service in the list of these.
    pub qos: u32,
    /// How many jobs.
    pub count: u64,
}

/// How many jobs haven't ended, where it is known.
#[derive(Drop)]
pub(crate) struct Tallies {
    pub(crate) list: Vec<Unended>,
    // It is, but where a job was put back of an association and a quality of service that no job was added of.
    pub(crate) known: bool,
}

/// The association and the quality of service of a job, unless it has ended.
pub(crate) fn pair_of(job: &JobRecord) -> Option<(u32, u32)>
    ensures { (test : ℕ → ℕ → Bool) → passes test result ≡ is_unended test job.now }
{
    match job.state {
        JobState::Ended(_) => None,
        _ => Some((job.assoc, job.qos)),
    }
}

// Whether the tally is of these.
fn is_of(tally: &Unended, pair: (u32, u32)) -> bool
    ensures { result ≡ spec.is_of pair tally.now }
{
    tally.assoc == pair.0 && tally.qos == pair.1
}

// Where the tally of these lies: at the place where it may lie, or elsewhere.
fn place_of(tallies: &[Unended], near: usize, pair: (u32, u32)) -> Option<usize>
    ensures there { IfSome result (λ place. place < length tallies.now) }
    ensures is { IfSome result (HoldsAt (λ tally. spec.is_of pair tally ≡ true) tallies.now) }
{
    match tallies.get(near) {
        Some(tally) if is_of(tally, pair) => Some(near),
        _ => tallies.iter().position(|tally| is_of(tally, pair)),
    }
}

// Counts one more of these, if there is a tally of them; and where it lies, which may be near.
fn count_more(tallies: &mut Vec<Unended>, near: usize, pair: (u32, u32)) -> Option<usize>
    ensures { IfSome result (λ place. HasOneMore pair tallies.old.items tallies.new.items) }
{
    let place = place_of(tallies.as_slice(), near, pair)?;
    let count = tallies[place].count.checked_add(1)?;
    tallies[place].count = count;
    Some(place)
}

// Counts one fewer of these, if there is a tally of them that counts one; and where it lies.
fn count_fewer(tallies: &mut Vec<Unended>, pair: (u32, u32)) -> Option<usize>
    ensures { IfSome result (λ place. HasOneMore pair tallies.new.items tallies.old.items) }
{
    let place = place_of(tallies.as_slice(), 0, pair)?;
    let count = tallies[place].count.checked_sub(1)?;
    tallies[place].count = count;
    Some(place)
}

// Whether one more is counted of the job, where it hasn't ended, and where its tally lies, which may be near.
fn count_job(tallies: &mut Vec<Unended>, near: usize, job: &JobRecord) -> Option<usize>
    ensures { IfSome result (λ place. (test : ℕ → ℕ → Bool)
        → sum_by (counted test) tallies.new.items
        ≡ sum_by (counted test) tallies.old.items + spec.one_if (is_unended test job.now)) }
{
    match pair_of(job) {
        Some(pair) => count_more(tallies, near, pair),
        None => Some(near),
    }
}

// Whether one is counted as this that was counted as that, or as nothing.
fn count_change(
    tallies: &mut Vec<Unended>,
    before: Option<(u32, u32)>,
    after: Option<(u32, u32)>,
) -> bool
    ensures { OnTrue result ((test : ℕ → ℕ → Bool)
        → sum_by (counted test) tallies.new.items + spec.one_if (passes test before)
        ≡ sum_by (counted test) tallies.old.items + spec.one_if (passes test after)) }
{
    if before == after {
        return true;
    }
    let left = match before {
        Some(pair) => count_fewer(tallies, pair).is_some(),
        None => true,
    };
    let came = match after {
        Some(pair) => count_more(tallies, 0, pair).is_some(),
        None => true,
    };
    left && came
}

// Makes a tally of the job's association and quality of service, which counts nothing yet, if there is none.
fn open_tally(tallies: &mut Vec<Unended>, near: usize, job: &JobRecord) -> Result<usize, AllocError>
    ensures { (test : ℕ → ℕ → Bool)
        → sum_by (counted test) tallies.new.items ≡ sum_by (counted test) tallies.old.items }
{
    let (assoc, qos) = (job.assoc, job.qos);
    if let Some(place) = place_of(tallies.as_slice(), near, (assoc, qos)) {
        return Ok(place);
    }
    tallies.push(Unended {
        assoc,
        qos,
        count: 0,
    })?;
    Ok(tallies.len() - 1)
}

impl Tallies {
    /// No jobs.
    pub(crate) fn new(alloc: Global) -> Tallies
        ensures { IsTallied result [] }
    {
        Tallies {
            list: Vec::new(alloc),
            known: true,
        }
    }

    /// Makes the tallies that jobs like these need. An `Err` leaves all counted as it was.
    pub(crate) fn open(&mut self, jobs: &[JobRecord]) -> Result<(), AllocError>
        ensures { (old : List JobRecord) → IsTallied self.old old → IsTallied self.new old }
    {
        let mut near = 0;
        for job in jobs {
            near = open_tally(&mut self.list, near, job)?;
        }
        Ok(())
    }

    /// Counts these jobs too. It takes no memory.
    pub(crate) fn add(&mut self, jobs: &[JobRecord])
        ensures { (old : List JobRecord) → IsTallied self.old old → IsTallied self.new (old ++ jobs.now) }
    {
        let mut near = 0;
        for job in jobs {
            match count_job(&mut self.list, near, job) {
                Some(place) => near = place,
                None => self.known = false,
            }
        }
    }

    /// Counts a job as this that was counted as that. It takes no memory.
    pub(crate) fn change(&mut self, before: Option<(u32, u32)>, after: Option<(u32, u32)>)
        ensures { (old new : List JobRecord) → OneChanges before after old new → IsTallied self.old old
            → IsTallied self.new new }
    {
        let counted = count_change(&mut self.list, before, after);
        self.known = self.known && counted;
    }
}
