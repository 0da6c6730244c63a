//! What a report does to the jobs.

ghost use Rattle.std.specs.Prelude.{◌≡◌, ◌<◌, map, All, find, length, option_copied, Some};
ghost use Rattle.std.specs.List.{HoldsAt, list_any};
ghost use Rattle.job_table.specs.Changes.{changed, is_on};
ghost use Rattle.job_table.specs.Usage.{Charges};
ghost use Rattle.job_table.specs.Walks.{map_at};
ghost use Rattle.ctl_node_side.specs.Reporting.{is_last_start, is_listed, done_of, is_at, is_batch_host, final_of, script_over, told_over, reported};
ghost use Rattle.ctl_node_side.specs.Leaving.{AreOnNodes, ShowsJobs};

use crate::leaving::leave_node;
use job_table::change::Change;
use job_table::jobs::Jobs;
use job_table::laws::{a_change_is_of_its_place, a_walk_changes_all, who_leaves_is_charged};
use job_table::record::{JobRecord, Part};
use node_state::nodes::Nodes;
use request_data::report::{Done, Report, Start};
use request_data::state::Final;

/// Whether the start is the job's last one.
pub(crate) fn is_last_start(job: &JobRecord, start: &Start) -> bool
    ensures { result ≡ is_last_start job.now start.now }
{
    job.id == start.id && job.starts == start.number
}

/// Whether the report tells that the job's start runs. Linear in what it tells.
pub(crate) fn is_listed(report: &Report, job: &JobRecord) -> bool
    ensures { result ≡ is_listed report.now job.now }
{
    report
        .running
        .as_slice()
        .iter()
        .any(|start| is_last_start(job, start))
}

/// What the report tells of the job's start being over. Linear in what it tells.
pub(crate) fn done_of(report: &Report, job: &JobRecord) -> Option<Done>
    ensures { result ≡ done_of report.now job.now }
{
    report
        .done
        .as_slice()
        .iter()
        .find(|done| is_last_start(job, &done.start))
        .copied()
}

/// Whether the job holds something of the node.
pub(crate) fn is_at(node: u32, job: &JobRecord) -> bool
    ensures { result ≡ is_at node job.now }
{
    job.parts.as_slice().iter().any(|part| part.node == node)
}

/// Whether the node runs the script of a job with these parts.
pub(crate) fn is_batch_host(node: u32, parts: &[Part]) -> bool
    ensures { result ≡ is_batch_host node parts.now }
{
    match parts {
        [first, ..] => first.node == node,
        [] => false,
    }
}

/// What the parts have on the node; of several the first.
pub(crate) fn part_on(node: u32, parts: &[Part]) -> Option<&Part>
    ensures { option_copied result ≡ find (is_on node) parts.now }
{
    parts.iter().find(|part| part.node == node)
}

/// Changes each job as the report wants it; what they drop is given back. One look for each 64 jobs of which none holds
/// something of the node; linear in those that do and their neighbours, and for each that does in what the report tells.
/// It takes no memory.
pub(crate) fn report_jobs(nodes: &mut Nodes, jobs: &mut Jobs, now: u64, node: u32, report: &Report)
    requires on { All (λ job. AreOnNodes (length nodes.old.records) job.parts) jobs.old.records }
    requires shown { ShowsJobs nodes.old.held jobs.old.records }
    ensures jobs { jobs.new.records ≡ map (reported now node report.now) jobs.old.records }
    ensures charges { Charges now jobs.old jobs.new }
    ensures nodes { nodes.new.records ≡ nodes.old.records }
    ensures shown { ShowsJobs nodes.new.held jobs.new.records }
{
    a_walk_changes_all::<JobRecord>();
    who_leaves_is_charged();
    // So few that there is a place behind each.
    let _count = jobs.len();
    let mut from = 0;
    while let Some(place) = jobs.next_on(node, from) {
        report_job(nodes, jobs, place, now, node, report);
        from = place + 1;
    }
}

// Changes the job at a place as the report wants it.
fn report_job(
    nodes: &mut Nodes,
    jobs: &mut Jobs,
    place: usize,
    now: u64,
    node: u32,
    report: &Report,
)
    requires there { place < length jobs.old.records }
    requires on { HoldsAt (λ job. AreOnNodes (length nodes.old.records) job.parts) jobs.old.records place }
    requires shown { ShowsJobs nodes.old.held jobs.old.records }
    ensures jobs { jobs.new.records ≡ map_at place (reported now node report.now) jobs.old.records }
    ensures charges { Charges now jobs.old jobs.new }
    ensures nodes { nodes.new.records ≡ nodes.old.records }
    ensures shown { ShowsJobs nodes.new.held jobs.new.records }
{
    a_change_is_of_its_place::<JobRecord>();
    who_leaves_is_charged();
    let job = &jobs.records()[place];
    if !is_at(node, job) {
        return;
    }
    match done_of(report, job) {
        Some(done) => finish(nodes, jobs, place, now, node, done),
        None => {
            if !is_listed(report, job) {
                leave_node(nodes, jobs, place, now, node);
            }
        }
    }
}

// The start of the job at a place is told to be over on the node.
#[tactic(auto, using(crate::proofs::ReportPlaces::length_map_at))]
fn finish(nodes: &mut Nodes, jobs: &mut Jobs, place: usize, now: u64, node: u32, done: Done)
    requires there { place < length jobs.old.records }
    requires on { HoldsAt (λ job. AreOnNodes (length nodes.old.records) job.parts) jobs.old.records place }
    requires shown { ShowsJobs nodes.old.held jobs.old.records }
    ensures jobs { jobs.new.records ≡ map_at place (told_over now node done) jobs.old.records }
    ensures charges { Charges now jobs.old jobs.new }
    ensures nodes { nodes.new.records ≡ nodes.old.records }
    ensures shown { ShowsJobs nodes.new.held jobs.new.records }
{
    a_change_is_of_its_place::<JobRecord>();
    who_leaves_is_charged();
    end_script(jobs, place, now, node, done);
    leave_node(nodes, jobs, place, now, node);
}

// The script of the job at a place is over, if it ran on the node.
fn end_script(jobs: &mut Jobs, place: usize, now: u64, node: u32, done: Done)
    requires { place < length jobs.old.records }
    ensures jobs { jobs.new.records ≡ map_at place (script_over now node done) jobs.old.records }
    ensures charges { Charges now jobs.old jobs.new }
{
    a_change_is_of_its_place::<JobRecord>();
    who_leaves_is_charged();
    if is_batch_host(node, jobs.records()[place].parts.as_slice()) {
        leave(jobs, place, now, done);
    }
}

// The job at a place leaves Running, as its script ended.
fn leave(jobs: &mut Jobs, place: usize, now: u64, done: Done)
    requires { place < length jobs.old.records }
    ensures jobs { jobs.new.records ≡ map_at place
        (changed (Change.Leave (final_of done.exit) now (Some done.exit))) jobs.old.records }
    ensures charges { Charges now jobs.old jobs.new }
{
    let change = Change::Leave {
        to: final_of(done.exit),
        moment: now,
        exit: Some(done.exit),
    };
    jobs.change_at(place, change);
}

fn final_of(exit: u32) -> Final
    ensures { result ≡ final_of exit }
{
    if exit == 0 {
        Final::Completed
    } else {
        Final::Failed
    }
}
