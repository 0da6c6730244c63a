//! The rows of jobs.

ghost use Rattle.std.specs.Prelude.{◌≡◌, ◌≤◌, ◌<◌, ◌++◌, ◌∷◌, [], ℕ, All, Contains, IfOk, IfSome, OnOk, length, unwrap_or};
ghost use Rattle.std.specs.List.{HoldsAt};
ghost use Rattle.backfill_planner.specs.declared.Placed.{Placed};
ghost use Rattle.ctl_state.specs.State.{state_of, last_moment, last_second};
ghost use Rattle.ctl_state.specs.Soundness.{IsSound};
ghost use Rattle.job_table.specs.Targets.{AreTogether};
ghost use Rattle.reply_data.specs.declared.view.Row.TheVariants.{Job};
ghost use Rattle.ctl_show.specs.Found.{IsOutlook, HasFound};
ghost use Rattle.ctl_show.specs.Showing;

use crate::jobs::is_shown;
use crate::outlook::{Outlook, look};
use crate::parts::named_parts;
use crate::pending::{planned_start, reason_of};
use crate::spans::{Extent, extent_of, places_among};
use ctl_state::cluster::Cluster;
use ctl_state::jobs::is_pending;
use ctl_state::planning::names_of;
use ctl_waiting::priority_of;
use job_table::record::JobRecord;
use job_table::targets::Places;
use job_table::usage::cpus_in;
use plain_data::Plain;
use plain_data::items::Items;
use plain_data::limit::Limit;
use plain_data::ranged::LongRanged;
use plain_data::seconds::{FOREVER, Second};
use reply_data::view::{EndAt, JobRow, Row};
use request_data::query::JobQuery;
use request_data::state::{JobState, Reason};
use small_texts::memory_error::Memory;
use small_texts::name::Name;
use std::alloc::Global;

// How long a job runs or ran, in seconds.
type Elapsed = LongRanged<0, FOREVER>;

/// The name of the job's partition.
pub(crate) fn partition_name(cluster: &Cluster, job: &JobRecord) -> Result<Name, Memory>
    requires { job.now.partition < length cluster.now.partitions }
    ensures { IfOk result (λ name. name ≡ Showing.partition_name (state_of cluster.now) job.now) }
{
    let partition = &cluster.partitions.records()[job.partition as usize];
    partition.conf.name.copy()
}

// The seconds from a start to an end.
fn since(start: Option<u64>, end: u64) -> Elapsed
    requires { end ≤ last_moment }
    ensures { result ≡ Showing.since start end }
{
    match start {
        Some(start) => LongRanged::new(end.saturating_sub(start)),
        None => LongRanged::new(0),
    }
}

// How long the job runs at a moment, or ran.
fn elapsed_of(moment: u64, job: &JobRecord) -> Elapsed
    requires in_time { moment ≤ last_moment }
    requires ended { unwrap_or job.now.ended 0 ≤ last_moment }
    ensures { result ≡ Showing.elapsed_of moment job.now }
{
    match job.state {
        JobState::Pending => LongRanged::new(0),
        JobState::Running | JobState::Completing(_) => since(job.started, moment),
        JobState::Ended(_) => since(job.started, job.ended.unwrap_or(0)),
    }
}

// How many nodes the job has, needs at least, or had.
fn nodes_of(job: &JobRecord) -> u64
    ensures { result ≡ Showing.nodes_of job.now }
{
    match job.state {
        JobState::Pending => job.terms().min_nodes.get(),
        JobState::Running | JobState::Completing(_) => job.parts.as_slice().len() as u64,
        JobState::Ended(_) => job.last_nodes.as_slice().len() as u64,
    }
}

// The names of the nodes that the job has or had.
fn node_names(alloc: Global, cluster: &Cluster, job: &JobRecord) -> Result<Items<Name>, Memory>
    ensures { IfOk result (λ names. names ≡ Showing.node_names (state_of cluster.now) job.now) }
{
    match job.state {
        JobState::Pending => Ok(Items::from_vec(Vec::new(alloc))),
        JobState::Running | JobState::Completing(_) => {
            let names = names_of(alloc, cluster.nodes.records(), job.parts.as_slice())?;
            Ok(Items::from_vec(names))
        }
        JobState::Ended(_) => job.last_nodes.copy(),
    }
}

// How many processors the job holds, or asks for.
fn cpus_of(job: &JobRecord) -> u64
    ensures { result ≡ Showing.cpus_of job.now }
{
    if is_pending(job) {
        job.terms().tasks.get() * job.terms().cpus_per_task.get()
    } else {
        cpus_in(job.parts.as_slice())
    }
}

// Why the job waits, where it does.
fn reason_shown(
    cluster: &Cluster,
    moment: u64,
    outlook: &Outlook,
    job: &JobRecord,
) -> Option<Reason>
    requires together { AreTogether cluster.now.jobs.records }
    requires outlook { IsOutlook (state_of cluster.now) moment outlook.now }
    requires found { HasFound outlook.now job.now }
    requires there { Contains cluster.now.jobs.records job.now }
    ensures { result ≡ Showing.reason_shown (state_of cluster.now) moment job.now }
{
    match &outlook.waiting {
        Some(waiting) if is_pending(job) => {
            Some(reason_of(cluster, &outlook.factors, waiting, job))
        }
        _ => None,
    }
}

// The second of the job's start, or the one planned for it.
fn start_shown(cluster: &Cluster, outlook: &Outlook, job: &JobRecord) -> Option<Second>
    requires started { unwrap_or job.now.started 0 ≤ last_moment }
    requires planned { All (λ (placed : Placed). placed.start ≤ last_second) cluster.now.plan.items }
    requires found { HasFound outlook.now job.now }
    ensures { (now : ℕ) → IsOutlook (state_of cluster.now) now outlook.now
        → result ≡ Showing.start_shown (state_of cluster.now) job.now }
{
    if is_pending(job) {
        return match &outlook.waiting {
            Some(waiting) => planned_start(cluster, waiting, job),
            None => None,
        };
    }
    match job.started {
        Some(start) => Some(LongRanged::new(start)),
        None => None,
    }
}

// When a job that started then reaches its limit.
fn limit_end(start: u64, limit: Limit) -> EndAt
    requires { start ≤ last_moment }
    ensures { result ≡ Showing.limit_end start limit }
{
    match limit {
        Limit::Minutes(minutes) => EndAt::At(LongRanged::new(start + minutes.get() * 60)),
        Limit::Unlimited => EndAt::Unknown,
    }
}

// The second as an end.
fn ended_at(ended: Option<u64>) -> EndAt
    requires { unwrap_or ended 0 ≤ last_moment }
    ensures { result ≡ Showing.ended_at ended }
{
    match ended {
        Some(end) => EndAt::At(LongRanged::new(end)),
        None => EndAt::Nothing,
    }
}

// When the job ends by its limit, or when it ended.
#[tactic(auto, unfolding(crate::specs::Showing::end_shown))]
fn end_shown(job: &JobRecord) -> EndAt
    requires started { unwrap_or job.now.started 0 ≤ last_moment }
    requires ended { unwrap_or job.now.ended 0 ≤ last_moment }
    ensures { result ≡ Showing.end_shown job.now }
{
    match job.state {
        JobState::Running => limit_end(job.started.unwrap_or(0), job.limit),
        JobState::Pending | JobState::Completing(_) | JobState::Ended(_) => ended_at(job.ended),
    }
}

// Adds what is shown of the job to the rows. It is made there, since a row is large. Linear in its parts, beside what it
// costs to tell why it waits.
fn push_row(
    alloc: Global,
    cluster: &Cluster,
    moment: u64,
    outlook: &Outlook,
    rows: &mut Vec<Row>,
    job: &JobRecord,
) -> Result<(), Memory>
    requires in_time { moment ≤ last_moment }
    requires together { AreTogether cluster.now.jobs.records }
    requires outlook { IsOutlook (state_of cluster.now) moment outlook.now }
    requires found { HasFound outlook.now job.now }
    requires there { Contains cluster.now.jobs.records job.now }
    requires planned { All (λ (placed : Placed). placed.start ≤ last_second) cluster.now.plan.items }
    requires partition { job.now.partition < length cluster.now.partitions }
    requires started { unwrap_or job.now.started 0 ≤ last_moment }
    requires ended { unwrap_or job.now.ended 0 ≤ last_moment }
    requires submitted { job.now.submit ≤ last_moment }
    requires eligible { job.now.eligible ≤ last_moment }
    ensures { OnOk result (rows.new.items
        ≡ rows.old.items ++ Job (Showing.row_of (state_of cluster.now) moment job.now) ∷ []) }
{
    let terms = job.terms();
    rows.push(Row::Job(JobRow {
        id: job.id,
        array: job.array,
        index: job.index,
        name: terms.name.copy()?,
        user: job.user.copy()?,
        account: terms.account.copy()?,
        partition: partition_name(cluster, job)?,
        qos: terms.qos.copy()?,
        state: job.state,
        elapsed: elapsed_of(moment, job),
        nodes: nodes_of(job),
        node_names: node_names(alloc, cluster, job)?,
        reason: reason_shown(cluster, moment, outlook, job),
        start: start_shown(cluster, outlook, job),
        priority: priority_of(&outlook.factors, cluster, job).sum,
        limit: job.limit,
        cpus: cpus_of(job),
        tasks: terms.tasks.get(),
        nice: job.nice,
        dependency: terms.dependency.copy()?,
        requeue: terms.requeue,
        restarts: job.starts.saturating_sub(1),
        exit: job.exit,
        submit: LongRanged::new(job.submit),
        eligible: LongRanged::new(job.eligible),
        end: end_shown(job),
        parts: named_parts(alloc, cluster.nodes.records(), job.parts.as_slice())?,
    }))?;
    Ok(())
}

/// Adds what is shown of the job at a place to the rows. Linear in its parts, beside what `look` costs, and where it is
/// pending what it costs to tell why it waits.
pub(crate) fn push_row_at(
    alloc: Global,
    cluster: &Cluster,
    moment: u64,
    extent: Extent,
    outlook: &mut Option<Outlook>,
    rows: &mut Vec<Row>,
    place: usize,
) -> Result<(), Memory>
    requires sound { IsSound (state_of cluster.now) }
    requires in_time { moment ≤ last_moment }
    requires outlook { IfSome outlook.old (IsOutlook (state_of cluster.now) moment) }
    requires there { place < length cluster.now.jobs.records }
    ensures rows { OnOk result (HoldsAt (λ job. rows.new.items
        ≡ rows.old.items ++ Job (Showing.row_of (state_of cluster.now) moment job) ∷ [])
        cluster.now.jobs.records place) }
    ensures outlook { OnOk result (IfSome outlook.new (IsOutlook (state_of cluster.now) moment)) }
{
    let job = &cluster.jobs.records()[place];
    look(alloc, cluster, moment, extent, outlook, job)?;
    push_row(alloc, cluster, moment, outlook.as_ref().unwrap(), rows, job)
}

// How many of the jobs at these places a user's query shows.
fn count_shown(cluster: &Cluster, asker: &Name, query: &JobQuery, places: Places) -> usize
    requires sound { IsSound (state_of cluster.now) }
    requires there { places.end ≤ length cluster.now.jobs.records }
{
    let mut count = 0;
    for place in places.first..places.end {
        if is_shown(cluster, asker, query, &cluster.jobs.records()[place]) {
            count += 1;
        }
    }
    count
}

/// The rows of the jobs that a user's query shows, in the order of their numbers. It walks the places between which the
/// jobs lie that the query names, once to count them: rows are large, and memory is taken for no more of them.
pub(crate) fn job_rows(
    alloc: Global,
    cluster: &Cluster,
    moment: u64,
    asker: &Name,
    query: &JobQuery,
) -> Result<Vec<Row>, Memory>
    requires sound { IsSound (state_of cluster.now) }
    requires in_time { moment ≤ last_moment }
    ensures { IfOk result (λ rows.
        rows.items ≡ Showing.job_rows (state_of cluster.now) moment asker.now query.now) }
{
    let places = places_among(&cluster.jobs, &query.jobs);
    let extent = extent_of(places);
    let mut outlook = None;
    let mut rows = Vec::with_capacity(alloc, count_shown(cluster, asker, query, places))?;
    for place in places.first..places.end {
        if is_shown(cluster, asker, query, &cluster.jobs.records()[place]) {
            push_row_at(
                alloc,
                cluster,
                moment,
                extent,
                &mut outlook,
                &mut rows,
                place,
            )?;
        }
    }
    Ok(rows)
}
