//! Which jobs an entry may make hold more or fewer processors, and what they hold.

ghost use Rattle.std.specs.Prelude.{◌≡◌, ◌^◌, ◌-◌, ◌<◌, ℕ, IfOk, Some, min, map, filter, if◌then◌else◌, nat_eq, slice_index, vec_len};
ghost use Rattle.job_table.specs.Targets.{AreTogether};
ghost use Rattle.ctl_state.specs.State.{state_of};
ghost use Rattle.ctl_jobs.specs.Changing.{are_naming};
ghost use Rattle.sacct_book.specs.Naming as spec;
ghost use Rattle.sacct_book.specs.Running as running;

use crate::running::{Way, count, cpus_running};
use ctl_node_side::report::is_restarted;
use ctl_state::cluster::Cluster;
use job_table::jobs::Jobs;
use job_table::record::JobRecord;
use job_table::targets::is_named;
use request_data::report::{Done, Report};
use request_data::request::{NodeOrder, Request};
use request_data::target::{Target, Targets};
use small_texts::memory_error::Memory;
use std::alloc::Global;

// Where more targets are named all jobs are walked over.
const FEW: usize = 16;

// The target that names the job of a start.
fn target_of(done: &Done) -> Target
    ensures { result ≡ spec.target_of done.now }
{
    Target {
        id: done.start.id,
        index: None,
    }
}

/// Which running jobs an entry may change (own).
#[derive(Drop)]
pub(crate) enum Changed {
    Nothing,
    /// Those that one of these names.
    Named(Vec<Target>),
    Any,
}

// Those that these targets name, where they are few.
fn few(alloc: Global, targets: &[Target]) -> Result<Changed, Memory>
    ensures { IfOk result (λ changed. spec.Tells changed (Some targets.now)) }
{
    if targets.len() > FEW {
        return Ok(Changed::Any);
    }
    let mut few = Vec::with_capacity(alloc, targets.len())?;
    for target in targets {
        few.push(*target)?;
    }
    Ok(Changed::Named(few))
}

// The targets that name the jobs of these starts.
fn targets_of(alloc: Global, done: &[Done]) -> Result<Vec<Target>, Memory>
    ensures { IfOk result (λ targets. targets.items ≡ map spec.target_of done.now) }
{
    let mut targets = Vec::with_capacity(alloc, done.len())?;
    for one in done {
        targets.push(target_of(one))?;
    }
    Ok(targets)
}

// Those whose starts are told to be over.
fn told(alloc: Global, done: &[Done]) -> Result<Changed, Memory>
    ensures { IfOk result (λ changed. spec.Tells changed (Some (map spec.target_of done.now))) }
{
    if done.is_empty() {
        return Ok(Changed::Nothing);
    }
    if done.len() > FEW {
        return Ok(Changed::Any);
    }
    Ok(Changed::Named(targets_of(alloc, done)?))
}

// Those whose starts the report tells to be over; any, where the daemon was restarted.
fn reported(alloc: Global, cluster: &Cluster, report: &Report) -> Result<Changed, Memory>
    ensures { IfOk result (λ changed. spec.Tells changed (spec.reported_by (state_of cluster.now) report.now)) }
{
    if is_restarted(cluster, report) {
        return Ok(Changed::Any);
    }
    told(alloc, report.done.as_slice())
}

/// Which running jobs the request may make hold more or fewer processors. Linear in what it names, where that is little.
pub(crate) fn changed_by(
    alloc: Global,
    cluster: &Cluster,
    request: &Request,
) -> Result<Changed, Memory>
    ensures { IfOk result (λ changed. spec.Tells changed (spec.changed_by (state_of cluster.now) request.now)) }
{
    match request {
        Request::Pass | Request::Cancel(Targets::User(_)) => Ok(Changed::Any),
        Request::Cancel(Targets::List(targets)) => few(alloc, targets.as_slice()),
        Request::Requeue { target } => few(alloc, &[*target]),
        Request::Report(report) => reported(alloc, cluster, report),
        Request::UpdateNode {
            state: NodeOrder::Down,
            ..
        } => Ok(Changed::Any),
        _ => Ok(Changed::Nothing),
    }
}

// Whether one of the targets names the job.
fn are_naming(targets: &[Target], job: &JobRecord) -> bool
    ensures { result ≡ are_naming targets.now job.now }
{
    targets.iter().any(|target| is_named(target, job))
}

// How many the job holds while it runs, where the target names it and none of those before does.
fn cpus_named(before: &[Target], target: &Target, job: &JobRecord) -> u64
    ensures { result ≡ min
        (if spec.is_named_first before.now target.now job.now then running.cpus_running job.now else 0) (2 ^ 64 - 1) }
{
    if is_named(target, job) && !are_naming(before, job) {
        cpus_running(job)
    } else {
        0
    }
}

// Counts what those of the jobs hold that run, and that the target names and none of those before does.
fn count_first(
    held: &mut Vec<u64>,
    way: Way,
    jobs: &[JobRecord],
    before: &[Target],
    target: &Target,
)
    ensures len { vec_len held.new ≡ vec_len held.old }
    ensures each { (at : ℕ) → at < vec_len held.old → slice_index held.new.items at
        ≡ running.counted way (slice_index held.old.items at)
        (running.cpus_run_by (filter (spec.is_named_first before.now target.now) jobs.now) at) }
{
    for job in jobs {
        count(held, way, job.assoc, cpus_named(before, target, job));
    }
}

// The same, by those jobs alone among which all are that the target names.
fn count_target(held: &mut Vec<u64>, way: Way, jobs: &Jobs, before: &[Target], target: &Target)
    requires { AreTogether jobs.now.records }
    ensures len { vec_len held.new ≡ vec_len held.old }
    ensures each { (at : ℕ) → at < vec_len held.old → slice_index held.new.items at
        ≡ running.counted way (slice_index held.old.items at)
        (running.cpus_run_by (filter (spec.is_named_first before.now target.now) jobs.now.records) at) }
{
    count_first(held, way, jobs.span_of(target), before, target);
}

/// Counts for each association what its running jobs hold that the targets name. For each target logarithmic in the
/// jobs and linear in those that it names, for each of these in the targets before; it takes no memory.
pub(crate) fn count_named(held: &mut Vec<u64>, way: Way, jobs: &Jobs, targets: &[Target])
    requires { AreTogether jobs.now.records }
    ensures len { vec_len held.new ≡ vec_len held.old }
    ensures each { (at : ℕ) → at < vec_len held.old → slice_index held.new.items at
        ≡ running.counted way (slice_index held.old.items at) (spec.run_by_named targets.now jobs.now.records at) }
{
    for place in 0..targets.len() {
        count_target(held, way, jobs, &targets[..place], &targets[place]);
    }
}
