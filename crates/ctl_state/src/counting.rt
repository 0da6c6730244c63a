//! What jobs count towards limits.

ghost use Rattle.std.specs.Prelude.{◌≡◌, ◌++◌, ◌∷◌, [], List, IfOk, OnOk};
ghost use Rattle.run_limits.specs.declared.counted.Counted.{Counted};
ghost use Rattle.run_limits.specs.Tallies.{Shows};
ghost use Rattle.ctl_state.specs.Counted as spec;

use crate::jobs::is_holding;
use job_table::jobs::Jobs;
use job_table::record::JobRecord;
use run_limits::assocs::Assocs;
use run_limits::counted::Counted;
use run_limits::tally::Tally;
use small_texts::memory_error::Memory;
use std::alloc::Global;

/// What the job counts as. An exclusive job counts the processors of its tasks alone (own).
pub fn counted_of(job: &JobRecord) -> Counted
    ensures { result ≡ spec.counted_of job.now }
{
    Counted {
        array: job.array,
        assoc: job.assoc,
        qos: job.qos,
        cpus: job.terms().tasks.get() * job.terms().cpus_per_task.get(),
    }
}

// Counts the job besides, where it holds processors.
fn add(tally: &mut Tally, assocs: &Assocs, job: &JobRecord) -> Result<(), Memory>
    ensures { OnOk result ((jobs : List Counted) → Shows assocs.now.records tally.old jobs
        → Shows assocs.now.records tally.new (jobs ++ spec.holding (job.now ∷ []))) }
{
    if is_holding(job) {
        tally.add(assocs, &counted_of(job))?;
    }
    Ok(())
}

/// What the jobs count that hold processors. One look for each 64 jobs of which none does; each that does costs its way
/// up to root.
pub fn count_holding(alloc: Global, assocs: &Assocs, jobs: &Jobs) -> Result<Tally, Memory>
    ensures { IfOk result (λ tally. Shows assocs.now.records tally (spec.holding jobs.now.records)) }
{
    let records = jobs.records();
    let mut tally = Tally::new(alloc)?;
    let mut from = 0;
    while let Some(place) = jobs.next_holding(from) {
        add(&mut tally, assocs, &records[place])?;
        from = place + 1;
    }
    Ok(tally)
}
