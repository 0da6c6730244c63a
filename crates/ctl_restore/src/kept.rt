//! Whether what is kept of each job is sound.

ghost use Rattle.std.specs.Prelude.{◌≡◌, ◌≤◌, ◌<◌, ◌↔◌, ◌||◌, IsTrue, All, length, unwrap_or, is_some, true};
ghost use Rattle.job_table.specs.JobStates;
ghost use Rattle.job_table.specs.declared.record.JobRecord.{JobRecord as OneJob};
ghost use Rattle.job_table.specs.declared.record.Part.{Part as OnePart};
ghost use Rattle.ctl_state.specs.Holding.{OnNodesApart};
ghost use Rattle.ctl_restore.specs.Steps.{IsOnUp};
ghost use Rattle.ctl_state.specs.Soundness.{AreUp, HasItsParts, IsKept, IsLimit, IsSettled, IsWellRun, is_up_at};

use ctl_state::jobs::is_holding;
use job_table::record::{JobRecord, Part};
use job_table::terms::Terms;
use node_state::nodes::Nodes;
use node_state::standing;
use plain_data::CpuIds;
use plain_data::limit::Limit;
use request_data::state::{Final, JobState};

// It tells what the type of terms keeps of them.
fn tell_settled(terms: &Terms)
    ensures { IsSettled terms.now }
{
    let _ = (
        terms.tasks.get(),
        terms.cpus_per_task.get(),
        terms.run.get(),
        terms.exit.get(),
    );
    if let Some(begin) = &terms.begin {
        let _ = begin.get();
    }
}

// It tells what the type of limits keeps of them.
fn tell_limit(limit: &Limit)
    ensures { IsLimit limit.now }
{
    if let Limit::Minutes(minutes) = limit {
        let _ = minutes.get();
    }
}

fn has_left(state: JobState) -> bool
    ensures { result ≡ (JobStates.is_completing state || JobStates.is_ended state) }
{
    matches!(state, JobState::Completing(_) | JobState::Ended(_))
}

// Whether what runs or completes has a start, and what has left Running an end.
fn has_its_moments(job: &JobRecord) -> bool
    ensures { IsTrue result ↔ ((JobStates.is_holding job.now.state ≡ true → is_some job.now.started ≡ true)
        × ((JobStates.is_completing job.now.state || JobStates.is_ended job.now.state) ≡ true
        → is_some job.now.ended ≡ true)) }
{
    (!is_holding(job) || job.started.is_some()) && (!has_left(job.state) || job.ended.is_some())
}

// Whether none of its moments lies ahead, and its end isn't before its start.
fn has_passed(moment: u64, job: &JobRecord) -> bool
    ensures { IsTrue result ↔ ((unwrap_or job.now.started 0 ≤ moment) × (unwrap_or job.now.ended 0 ≤ moment)
        × (is_some job.now.ended ≡ true → unwrap_or job.now.started 0 ≤ unwrap_or job.now.ended 0)) }
{
    let (started, ended) = (job.started.unwrap_or(0), job.ended.unwrap_or(0));
    started <= moment && ended <= moment && (job.ended.is_none() || started <= ended)
}

fn is_well_run(moment: u64, job: &JobRecord) -> bool
    ensures { IsTrue result ↔ IsWellRun moment job.now }
{
    job.submit <= moment
        && job.eligible <= 250_000_000_000
        && has_its_moments(job)
        && has_passed(moment, job)
        && job.state != JobState::Ended(Final::Requeue)
}

// Whether the parts are on nodes that differ, of those that a cluster may have.
fn are_apart(parts: &[Part]) -> bool
    requires { All (λ (part : OnePart). part.node < 1024) parts.now }
    ensures { IsTrue result ↔ OnNodesApart parts.now }
{
    let mut seen = CpuIds::none();
    for part in parts {
        if seen.contains(part.node) {
            return false;
        }
        seen.insert(part.node);
    }
    true
}

fn has_its_parts(job: &JobRecord) -> bool
    requires { All (λ (part : OnePart). part.node < 1024) job.now.parts }
    ensures { IsTrue result ↔ HasItsParts job.now }
{
    let parts = job.parts.as_slice();
    !parts.is_empty() == is_holding(job) && are_apart(parts)
}

fn is_kept(moment: u64, job: &JobRecord) -> bool
    requires { All (λ (part : OnePart). part.node < 1024) job.now.parts }
    ensures { IsTrue result ↔ IsKept moment job.now }
{
    tell_settled(job.terms());
    tell_limit(&job.limit);
    is_well_run(moment, job) && has_its_parts(job)
}

/// Whether what is kept of each job is sound at the moment, where each part is of a node that a cluster may have. Linear
/// in the jobs and in their parts.
pub fn are_kept(moment: u64, jobs: &[JobRecord]) -> bool
    requires { All (λ (job : OneJob). All (λ (part : OnePart). part.node < 1024) job.parts) jobs.now }
    ensures { IsTrue result ↔ All (IsKept moment) jobs.now }
{
    jobs.iter().all(|job| is_kept(moment, job))
}

// Whether the part is of a node that is up.
fn is_up(nodes: &Nodes, part: &Part) -> bool
    ensures { result ≡ is_up_at nodes.now.records part.now.node }
{
    nodes
        .at(part.node)
        .is_some_and(|node| standing::is_up(node))
}

fn are_up_in(nodes: &Nodes, parts: &[Part]) -> bool
    ensures { IsTrue result ↔ AreUp nodes.now.records parts.now }
{
    parts.iter().all(|part| is_up(nodes, part))
}

fn is_on_up(nodes: &Nodes, job: &JobRecord) -> bool
    ensures { IsTrue result ↔ IsOnUp nodes.now.records job.now }
{
    are_up_in(nodes, job.parts.as_slice())
}

/// Whether nothing is held of nodes that are down. Linear in the jobs' parts.
pub fn are_up(nodes: &Nodes, jobs: &[JobRecord]) -> bool
    ensures { IsTrue result ↔ All (IsOnUp nodes.now.records) jobs.now }
{
    for job in jobs {
        if !is_on_up(nodes, job) {
            return false;
        }
    }
    true
}
