//! Jobs that have another of their user and name before them.

ghost use Rattle.std.specs.Prelude.{◌≡◌, ◌||◌, ◌&&◌, ℕ, All, IfOk, OnOk, List, nat_eq};
ghost use Rattle.std.specs.HashSet.{contains};
ghost use Rattle.std.specs.List.{list_any};
ghost use Rattle.job_table.specs.declared.record.JobRecord.{JobRecord};
ghost use Rattle.job_table.specs.Behind.{ShowsBehind, UserAndName, has_singleton, is_alike, is_singleton, one_waits_behind, same_texts, waits_behind};
ghost use Rattle.job_table.specs.Standing as spec;
ghost use Rattle.job_table.specs.Table.{HaveRisingIds};

use crate::jobs::Jobs;
use crate::record::JobRecord;
use crate::standing::is_ended;
use crate::terms::Terms;
use plain_data::dependency::{DepItem, DepKind, DepSpec};
use request_data::state::JobState;
use small_texts::memory_error::Memory;
use std::alloc::Global;
use std::collections::HashSet;

/// Which jobs have another of their user and name before them that hasn't ended, where that is known. Contracts name
/// what is known of one (`ShowsBehind`) alone.
#[derive(Drop)]
pub struct Behind {
    // The numbers of the jobs that have.
    pub(crate) numbers: Option<HashSet<u32>>,
}

impl Behind {
    /// Nothing is known.
    pub fn unknown() -> Behind
        ensures { (jobs : List JobRecord) (own : JobRecord) → ShowsBehind result jobs own }
    {
        Behind { numbers: None }
    }

    /// What is to be known of these jobs: of all, where one waits for those of its user and name, and else nothing. One
    /// walk over them, but constant time where the table knows that the terms of none say to wait so; it takes memory for
    /// the numbers of those that have another before them.
    pub fn of(alloc: Global, jobs: &Jobs) -> Result<Behind, Memory>
        ensures { IfOk result (λ behind. All (ShowsBehind behind jobs.now.records) jobs.now.records) }
    {
        let records = jobs.records();
        if !jobs.may_wait_behind() || !records.iter().any(|job| waits_alone(job)) {
            return Ok(Behind::unknown());
        }
        Ok(Behind {
            numbers: Some(find_behind(alloc, records)?),
        })
    }
}

// Whether the job waits for those of its user and name.
fn waits_alone(job: &JobRecord) -> bool {
    job.state == JobState::Pending && waits_behind(job.terms())
}

/// Whether the terms say that a job waits for those before it of its user and name. Linear in what it waits for.
#[tactic(auto, unfolding(crate::specs::Behind::waits_behind))]
pub(crate) fn waits_behind(terms: &Terms) -> bool
    ensures { result ≡ waits_behind terms.now }
{
    match &terms.dependency {
        Some(needs) => has_singleton(needs),
        None => false,
    }
}

fn has_singleton(needs: &DepSpec) -> bool
    ensures { result ≡ has_singleton needs.now }
{
    needs.items.as_slice().iter().any(|item| is_singleton(item))
}

fn is_singleton(item: &DepItem) -> bool
    ensures { result ≡ is_singleton item.now.kind }
{
    matches!(item.kind, DepKind::Singleton)
}

/// Whether one of the jobs has such terms.
pub(crate) fn one_waits_behind(jobs: &[JobRecord]) -> bool
    ensures { result ≡ one_waits_behind jobs.now }
{
    jobs.iter().any(|job| waits_behind(job.terms()))
}

/// The same, in constant time where none may have.
pub(crate) fn still_waits_behind(may_wait: bool, jobs: &[JobRecord]) -> bool
    ensures { result ≡ (may_wait && one_waits_behind jobs.now) }
{
    may_wait && one_waits_behind(jobs)
}

// Adds the user and the name of a job that hasn't ended.
fn add_name<'a>(named: &mut HashSet<(&'a [u8], &'a [u8])>, job: &'a JobRecord) -> Result<(), Memory>
    ensures { OnOk result ((key : UserAndName) → contains same_texts named.new key
        ≡ (contains same_texts named.old key || is_alike key.0.now key.1.now job.now)) }
{
    if !is_ended(job) {
        named.insert((job.user.as_bytes(), job.terms().name.as_bytes()))?;
    }
    Ok(())
}

// Whether the user and the name of the job are among these.
fn has_name(named: &HashSet<(&[u8], &[u8])>, job: &JobRecord) -> bool
    ensures { (key : UserAndName) → key.0.now ≡ job.now.user → key.1.now ≡ job.now.terms.name
        → result ≡ contains same_texts named.now key }
{
    named.contains(&(job.user.as_bytes(), job.terms().name.as_bytes()))
}

// Adds the number, where it is one of these.
fn add_number(numbers: &mut HashSet<u32>, is_one: bool, id: u32) -> Result<(), Memory>
    ensures { OnOk result ((number : ℕ) → contains nat_eq numbers.new number
        ≡ (contains nat_eq numbers.old number || (is_one && nat_eq number id))) }
{
    if is_one {
        numbers.insert(id)?;
    }
    Ok(())
}

// The numbers of the jobs that have another of their user and name before them that hasn't ended.
fn find_behind(alloc: Global, jobs: &[JobRecord]) -> Result<HashSet<u32>, Memory>
    requires { HaveRisingIds jobs.now }
    ensures { IfOk result (λ numbers. All
        (λ own. contains nat_eq numbers own.id ≡ list_any (spec.is_before own) jobs.now) jobs.now) }
{
    let mut numbers = HashSet::new(alloc);
    // The users and names of those so far that haven't ended.
    let mut named = HashSet::new(alloc);
    for job in jobs {
        let is_behind = has_name(&named, job);
        add_number(&mut numbers, is_behind, job.id)?;
        add_name(&mut named, job)?;
    }
    Ok(numbers)
}
