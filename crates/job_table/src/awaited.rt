//! The jobs for which others wait.

ghost use Rattle.std.specs.Prelude.{◌≡◌, ◌||◌, All, IfOk, OnOk, nat_eq};
ghost use Rattle.std.specs.HashSet.{contains};
ghost use Rattle.std.specs.List.{list_any};
ghost use Rattle.job_table.specs.Awaiting.{AddsAwaited, ShowsAwaited, awaits, has_awaited, index_named, names_by, names_in};
ghost use Rattle.job_table.specs.JobStates;
ghost use Rattle.job_table.specs.Table.{HaveRisingIds};
ghost use Rattle.job_table.specs.Targets.{AreTogether, is_named};

use crate::jobs::Jobs;
use crate::record::JobRecord;
use crate::targets::is_named;
use plain_data::dependency::{DepId, DepItem, DepKind};
use request_data::state::JobState;
use request_data::target::Target;
use small_texts::memory_error::Memory;
use std::alloc::Global;
use std::collections::HashSet;

/// The jobs that the dependencies of pending jobs name. Contracts name whether one is there (`has_awaited`) alone.
#[derive(Drop)]
pub struct Awaited {
    // Numbers that are named alone: of jobs, or of arrays with all their tasks.
    pub(crate) numbers: HashSet<u32>,
    // The numbers of tasks that are named by their arrays and indices.
    pub(crate) jobs: HashSet<u32>,
}

impl Awaited {
    /// The jobs for which pending ones wait. One walk over the jobs, and for each number that a pending one names at
    /// most logarithmic in them. It takes memory for these numbers alone.
    #[tactic(auto, unfolding(crate::specs::Awaiting::has_awaited, crate::specs::Awaiting::is_awaited))]
    pub fn of(alloc: Global, jobs: &Jobs) -> Result<Awaited, Memory>
        requires { AreTogether jobs.now.records }
        ensures { IfOk result (λ awaited. ShowsAwaited awaited jobs.now.records) }
    {
        let records = jobs.records();
        let mut awaited = Awaited {
            numbers: HashSet::new(alloc),
            jobs: HashSet::new(alloc),
        };
        for waiting in records {
            add_waiting(&mut awaited, jobs, waiting)?;
        }
        Ok(awaited)
    }

    /// Whether a pending job waits for this one, in constant time.
    #[tactic(auto, unfolding(crate::specs::Awaiting::has_awaited))]
    pub fn has(&self, job: &JobRecord) -> bool
        ensures { result ≡ has_awaited self.now job.now.id job.now.array }
    {
        self.jobs.contains(&job.id)
            || self.numbers.contains(&job.id)
            || job.array.is_some_and(|array| self.numbers.contains(&array))
    }
}

// Adds the jobs for which this one waits, if it waits for a start.
fn add_waiting(awaited: &mut Awaited, jobs: &Jobs, waiting: &JobRecord) -> Result<(), Memory>
    requires rising { HaveRisingIds jobs.now.records }
    requires together { AreTogether jobs.now.records }
    ensures { OnOk result (AddsAwaited (awaits waiting.now) jobs.now.records awaited.old awaited.new) }
{
    match &waiting.terms().dependency {
        Some(spec) if is_pending(waiting) => add_items(awaited, jobs, spec.items.as_slice()),
        _ => Ok(()),
    }
}

fn is_pending(job: &JobRecord) -> bool
    ensures { result ≡ JobStates.is_pending job.now.state }
{
    matches!(job.state, JobState::Pending)
}

// Adds the jobs that items of a dependency name.
fn add_items(awaited: &mut Awaited, jobs: &Jobs, items: &[DepItem]) -> Result<(), Memory>
    requires rising { HaveRisingIds jobs.now.records }
    requires together { AreTogether jobs.now.records }
    ensures { OnOk result (AddsAwaited (λ job. list_any (names_in job) items.now) jobs.now.records awaited.old awaited.new) }
{
    for item in items {
        add_ids(awaited, jobs, item.kind, item.ids.as_slice())?;
    }
    Ok(())
}

// Adds the jobs that numbers of an item of this kind name.
fn add_ids(awaited: &mut Awaited, jobs: &Jobs, kind: DepKind, ids: &[DepId]) -> Result<(), Memory>
    requires rising { HaveRisingIds jobs.now.records }
    requires together { AreTogether jobs.now.records }
    ensures { OnOk result (AddsAwaited (λ job. list_any (names_by kind job) ids.now) jobs.now.records awaited.old awaited.new) }
{
    for id in ids {
        add_target(awaited, jobs, &target_of(kind, *id))?;
    }
    Ok(())
}

// What a number of an item of this kind names.
fn target_of(kind: DepKind, id: DepId) -> Target
    ensures number { result.id ≡ id.id }
    ensures index { result.index ≡ index_named kind id }
{
    let index = match kind {
        DepKind::AfterCorr => None,
        _ => id.index,
    };
    Target { id: id.id, index }
}

// Adds the jobs that a target names.
#[tactic(auto, unfolding(crate::specs::Awaiting::has_awaited))]
fn add_target(awaited: &mut Awaited, jobs: &Jobs, target: &Target) -> Result<(), Memory>
    requires rising { HaveRisingIds jobs.now.records }
    requires together { AreTogether jobs.now.records }
    ensures { OnOk result (AddsAwaited (is_named target.now) jobs.now.records awaited.old awaited.new) }
{
    if target.index.is_none() {
        awaited.numbers.insert(target.id)?;
        Ok(())
    } else {
        add_tasks(&mut awaited.jobs, jobs, target)
    }
}

// Adds the numbers of the jobs that the target names.
fn add_tasks(numbers: &mut HashSet<u32>, jobs: &Jobs, target: &Target) -> Result<(), Memory>
    requires rising { HaveRisingIds jobs.now.records }
    requires together { AreTogether jobs.now.records }
    ensures { OnOk result (All (λ job. contains nat_eq numbers.new job.id
        ≡ (contains nat_eq numbers.old job.id || is_named target.now job)) jobs.now.records) }
{
    let span = jobs.span_of(target);
    for job in span {
        if is_named(target, job) {
            numbers.insert(job.id)?;
        }
    }
    Ok(())
}
