//! What the node is ordered to do.

ghost use Rattle.std.specs.Prelude.{◌≡◌, ◌||◌, ◌++◌, ◌∷◌, [], not, is_some, IfOk, OnOk, map, filter, filter_map, ℕ};
ghost use Rattle.std.specs.List.{list_any};
ghost use Rattle.job_table.specs.Table.{HaveRisingIds};
ghost use Rattle.ctl_node_side.specs.Reporting.{is_listed, done_of};
ghost use Rattle.ctl_node_side.specs.Ordering.{in_order, is_same, killed, launch_of, launch_part, shown, start_of, stays};

use crate::jobs::{done_of, is_at, is_batch_host, is_listed, part_on};
use crate::starts::in_order;
use job_table::record::{JobRecord, Part};
use reply_data::orders::{Launch, Launches, Starts};
use request_data::report::{Done, Report, Start};
use request_data::state::JobState;
use small_texts::memory_error::Memory;
use std::alloc::Global;

/// The starts that the report tells to run and that won't run on the node any more once it is accepted, whatever its
/// moment.
pub(crate) fn kills(
    alloc: Global,
    jobs: &[&JobRecord],
    node: u32,
    report: &Report,
) -> Result<Starts, Memory>
    ensures { IfOk result (λ kills. (now : ℕ) →
        kills ≡ in_order (killed now node report.now (shown jobs.now) report.now.running)) }
{
    let kept = kept_starts(alloc, jobs, node, report)?;
    let lost = without(alloc, report.running.as_slice(), kept.as_slice())?;
    Ok(in_order(lost))
}

// The starts that aren't among those kept.
fn without(alloc: Global, starts: &[Start], kept: &[Start]) -> Result<Vec<Start>, Memory>
    ensures { IfOk result (λ lost. lost.items
        ≡ filter (λ start. not (list_any (λ other. is_same other start) kept.now)) starts.now) }
{
    Ok(
        starts
            .iter()
            .copied()
            .filter(|start| !kept.contains(start))
            .collect(alloc)?,
    )
}

// The starts that run on the node once the report is accepted.
fn kept_starts(
    alloc: Global,
    jobs: &[&JobRecord],
    node: u32,
    report: &Report,
) -> Result<Vec<Start>, Memory>
    ensures { IfOk result (λ starts. starts.items ≡ map start_of (filter (stays node report.now) (shown jobs.now))) }
{
    let mut starts = Vec::new(alloc);
    for job in jobs {
        add_start(&mut starts, *job, node, report)?;
    }
    Ok(starts)
}

// Adds the job's start, if it runs on the node once the report is accepted.
fn add_start(
    starts: &mut Vec<Start>,
    job: &JobRecord,
    node: u32,
    report: &Report,
) -> Result<(), Memory>
    ensures { OnOk result (starts.new.items
        ≡ starts.old.items ++ map start_of (filter (stays node report.now) (job.now ∷ []))) }
{
    if stays(job, node, report) {
        starts.push(start_of(job))?;
    }
    Ok(())
}

// Whether the job runs on the node, also once the report is accepted.
fn stays(job: &JobRecord, node: u32, report: &Report) -> bool
    ensures { result ≡ stays node report.now job.now }
{
    job.state == JobState::Running
        && is_at(node, job)
        && !(is_batch_host(node, job.parts.as_slice()) && done_of(report, job).is_some())
}

fn start_of(job: &JobRecord) -> Start
    ensures { result ≡ start_of job.now }
{
    Start {
        id: job.id,
        number: job.starts,
    }
}

/// The starts that the report tells to be over.
pub(crate) fn forgets(alloc: Global, done: &[Done]) -> Result<Starts, Memory>
    ensures { IfOk result (λ forgets. forgets ≡ in_order (map (λ done. done.start) done.now)) }
{
    Ok(in_order(starts_over(alloc, done)?))
}

fn starts_over(alloc: Global, done: &[Done]) -> Result<Vec<Start>, Memory>
    ensures { IfOk result (λ starts. starts.items ≡ map (λ done. done.start) done.now) }
{
    Ok(done.iter().map(|done| done.start).collect(alloc)?)
}

/// The running jobs of the node that the report doesn't tell of.
pub(crate) fn launches(
    alloc: Global,
    jobs: &[&JobRecord],
    node: u32,
    report: &Report,
) -> Result<Launches, Memory>
    requires { HaveRisingIds (shown jobs.now) }
    ensures { IfOk result (λ launches. launches ≡ filter_map (launch_of node report.now) (shown jobs.now)) }
{
    let mut launches = Vec::new(alloc);
    for job in jobs {
        if let Some(launch) = launch_of(*job, node, report)? {
            launches.push(launch)?;
        }
    }
    Ok(Launches::from_vec(launches))
}

fn launch_of(job: &JobRecord, node: u32, report: &Report) -> Result<Option<Launch>, Memory>
    ensures { IfOk result (λ launch. launch ≡ launch_of node report.now job.now) }
{
    if job.state != JobState::Running {
        return Ok(None);
    }
    let Some(part) = part_on(node, job.parts.as_slice()) else {
        return Ok(None);
    };
    if is_told(report, job) {
        return Ok(None);
    }
    Ok(Some(launch_part(job, node, part)?))
}

// Whether the report tells of the job's start.
fn is_told(report: &Report, job: &JobRecord) -> bool
    ensures { result ≡ (is_listed report.now job.now || is_some (done_of report.now job.now)) }
{
    is_listed(report, job) || done_of(report, job).is_some()
}

fn launch_part(job: &JobRecord, node: u32, part: &Part) -> Result<Launch, Memory>
    ensures { IfOk result (λ launch. launch ≡ launch_part node job.now part.now) }
{
    let is_batch_host = is_batch_host(node, job.parts.as_slice());
    Ok(Launch {
        start: start_of(job),
        cpus: part.cpus.copy(),
        mem: part.mem,
        run: is_batch_host.then_some(job.terms().run.get() as u32),
        exit: is_batch_host.then_some(job.terms().exit.get() as u32),
    })
}
