//! Why pending jobs can't be planned.

ghost use Rattle.std.specs.Prelude.{◌≡◌, List};
ghost use Rattle.job_table.specs.declared.record.JobRecord.{JobRecord};
ghost use Rattle.job_table.specs.Behind.{ShowsBehind};
ghost use Rattle.job_table.specs.Targets.{AreTogether};
ghost use Rattle.job_table.specs.Standing.{standing};
ghost use Rattle.run_limits.specs.Limits.{first_reason, reason_if};
ghost use Rattle.run_limits.specs.Tallies.{Shows};
ghost use Rattle.ctl_state.specs.Counted.{holding};
ghost use Rattle.ctl_state.specs.State.{partition_of, state_of};
ghost use Rattle.ctl_waiting.specs.Reasons;

use ctl_state::cluster::Cluster;
use ctl_state::counting::counted_of;
use ctl_state::limits::exceeds;
use ctl_state::planning::bounds_in;
use ctl_state::reserved::lasting_named;
use job_table::behind::Behind;
use job_table::record::JobRecord;
use job_table::standing::{Standing, standing_beside};
use node_state::nodes::Nodes;
use node_state::partition_record::PartRecord;
use node_state::reservation_record::Reservation;
use plain_data::conf::PartState;
use plain_data::limit::Limit;
use plain_data::seconds::FOREVER;
use request_data::state::{HeldBy, Reason};
use run_limits::reasons::limit_reached as first_limit_reached;
use run_limits::tally::Tally;
use small_texts::name::Name;

// Who holds the job back.
fn held_reason(held_by: HeldBy) -> Option<Reason>
    ensures { result ≡ Reasons.held_reason held_by }
{
    match held_by {
        HeldBy::Nobody => None,
        HeldBy::User => Some(Reason::JobHeldUser),
        HeldBy::Admin => Some(Reason::JobHeldAdmin),
    }
}

// What hinders a job by what it waits for. `--dependency` in sbatch(1).
fn dependency_hindrance(cluster: &Cluster, behind: &Behind, job: &JobRecord) -> Option<Reason>
    requires together { AreTogether cluster.now.jobs.records }
    requires behind { ShowsBehind behind.now cluster.now.jobs.records job.now }
    ensures { result ≡ Reasons.awaiting_reason (standing cluster.now.jobs.records job.now) }
{
    match standing_beside(&cluster.jobs, behind, job) {
        Standing::Satisfied => None,
        Standing::Waiting => Some(Reason::Dependency),
        Standing::Never => Some(Reason::DependencyNeverSatisfied),
    }
}

// Whether the job isn't to begin yet. `--begin` in sbatch(1).
fn is_early(moment: u64, job: &JobRecord) -> bool
    ensures { result ≡ Reasons.is_early moment job.now }
{
    moment < job.terms().begin.map_or(0, |begin| begin.get())
}

// What hinders the job in this partition.
fn hindrance_in(partition: &PartRecord, job: &JobRecord) -> Option<Reason>
    ensures { result ≡ first_reason (Reasons.hindrances_in (Some partition.now) job.now) }
{
    if partition.state == PartState::Inactive {
        Some(Reason::PartitionInactive)
    } else if partition.state == PartState::Down {
        Some(Reason::PartitionDown)
    } else if exceeds(&job.limit, &partition.conf.max_time) {
        Some(Reason::PartitionTimeLimit)
    } else if bounds_in(partition, job.terms()).is_none() {
        Some(Reason::PartitionNodeLimit)
    } else {
        None
    }
}

// How many tasks of the job's array may hold processors at once.
fn most_tasks(job: &JobRecord) -> Option<u64>
    ensures { result ≡ Reasons.most_tasks job.now }
{
    Some(job.terms().at_once?.get())
}

/// The limit that the job reaches beside the jobs that are counted; None where it reaches none. Linear in its
/// association's way up to root.
pub fn limit_reached(cluster: &Cluster, tally: &Tally, job: &JobRecord) -> Option<Reason>
    ensures { (jobs : List JobRecord) → Shows cluster.now.assocs.records tally.now (holding jobs)
        → result ≡ first_reason (Reasons.reached_beside (state_of cluster.now) jobs job.now) }
{
    first_limit_reached(&cluster.assocs, tally, &counted_of(job), most_tasks(job))
}

// Whether the job's limit is above the longest one of its quality of service.
fn exceeds_wall(cluster: &Cluster, job: &JobRecord) -> bool
    ensures { result ≡ Reasons.exceeds_wall (state_of cluster.now) job.now }
{
    let Some(one) = cluster.assocs.qos().get(job.qos as usize) else {
        return false;
    };
    match &one.conf.limits.max_wall {
        Some(longest) => exceeds(&job.limit, longest),
        None => false,
    }
}

// Whether the node with this name isn't available, or is no longer there.
fn is_unavailable(nodes: &Nodes, name: &Name) -> bool
    ensures { result ≡ Reasons.is_unavailable nodes.now.records name.now }
{
    match nodes.find(name) {
        Some(place) => !nodes.available(place),
        None => true,
    }
}

// Whether a node that the job must have isn't available, or is no longer there.
fn lacks_node(cluster: &Cluster, job: &JobRecord) -> bool
    ensures { result ≡ Reasons.lacks_node (state_of cluster.now) job.now }
{
    job.terms()
        .required
        .iter()
        .any(|name| is_unavailable(&cluster.nodes, name))
}

// Whether a job of this limit that begins at the moment, or when the reservation does where that is later, is over by
// its end.
fn has_time_in(reservation: &Reservation, moment: u64, limit: &Limit) -> bool
    ensures { result ≡ Reasons.has_time_in reservation.now moment limit.now }
{
    let from = moment.max(reservation.start.get());
    match limit {
        Limit::Minutes(minutes) => reservation
            .end
            .get()
            .checked_sub(from)
            .is_some_and(|left| minutes.get() * 60 <= left),
        Limit::Unlimited => FOREVER <= reservation.end.get(),
    }
}

// Whether the job names a reservation in which it can't run any more. Linear in the reservations.
fn lacks_reservation(cluster: &Cluster, moment: u64, job: &JobRecord) -> bool
    ensures { result ≡ Reasons.lacks_reservation (state_of cluster.now) moment job.now }
{
    let Some(name) = &job.terms().reservation else {
        return false;
    };
    match lasting_named(&cluster.reservations, moment, name) {
        Some(reservation) => !has_time_in(reservation, moment, &job.limit),
        None => true,
    }
}

// What hinders the job by the reservation that it names.
fn reservation_hindrance(cluster: &Cluster, moment: u64, job: &JobRecord) -> Option<Reason>
    ensures { result ≡ reason_if (Reasons.lacks_reservation (state_of cluster.now) moment job.now) Reason.Reservation }
{
    if lacks_reservation(cluster, moment, job) {
        Some(Reason::Reservation)
    } else {
        None
    }
}

// What hinders the job by the moment at which it is to begin.
fn begin_hindrance(moment: u64, job: &JobRecord) -> Option<Reason>
    ensures { result ≡ reason_if (Reasons.is_early moment job.now) Reason.BeginTime }
{
    if is_early(moment, job) {
        Some(Reason::BeginTime)
    } else {
        None
    }
}

// What hinders the job in its partition.
fn partition_hindrance(cluster: &Cluster, job: &JobRecord) -> Option<Reason>
    ensures { result
        ≡ first_reason (Reasons.hindrances_in (partition_of (state_of cluster.now) job.now) job.now) }
{
    hindrance_in(cluster.partitions.at(job.partition)?, job)
}

// What hinders the job by its limit, in its quality of service.
fn wall_hindrance(cluster: &Cluster, job: &JobRecord) -> Option<Reason>
    ensures { result ≡ reason_if (Reasons.exceeds_wall (state_of cluster.now) job.now)
        Reason.QosMaxWallDurationPerJobLimit }
{
    if exceeds_wall(cluster, job) {
        Some(Reason::QosMaxWallDurationPerJobLimit)
    } else {
        None
    }
}

// What hinders the job by a node that it must have.
fn node_hindrance(cluster: &Cluster, job: &JobRecord) -> Option<Reason>
    ensures { result ≡ reason_if (Reasons.lacks_node (state_of cluster.now) job.now) Reason.ReqNodeNotAvail }
{
    if lacks_node(cluster, job) {
        Some(Reason::ReqNodeNotAvail)
    } else {
        None
    }
}

/// Why a pending job can't be planned at a moment, in seconds; None where nothing hinders it. Linear in its
/// association's way up to root, in the reservations where it names one, and in the nodes that it must have; where it
/// waits for others it costs what `job_table::standing_among` does besides. "JOB REASON CODES" in squeue(1), and `--begin`,
/// `--dependency`, `--reservation` in sbatch(1).
pub fn hindrance(cluster: &Cluster, tally: &Tally, moment: u64, job: &JobRecord) -> Option<Reason>
    requires together { AreTogether cluster.now.jobs.records }
    requires counted { Shows cluster.now.assocs.records tally.now (holding cluster.now.jobs.records) }
    ensures { result ≡ Reasons.hindrance (state_of cluster.now) moment job.now }
{
    hindrance_beside(cluster, tally, &Behind::unknown(), moment, job)
}

/// The same, where it may be known whether another of its user and name is before it: then that costs nothing more.
pub fn hindrance_beside(
    cluster: &Cluster,
    tally: &Tally,
    behind: &Behind,
    moment: u64,
    job: &JobRecord,
) -> Option<Reason>
    requires together { AreTogether cluster.now.jobs.records }
    requires counted { Shows cluster.now.assocs.records tally.now (holding cluster.now.jobs.records) }
    requires behind { ShowsBehind behind.now cluster.now.jobs.records job.now }
    ensures { result ≡ Reasons.hindrance (state_of cluster.now) moment job.now }
{
    held_reason(job.held_by)
        .or_else(|| dependency_hindrance(cluster, behind, job))
        .or_else(|| begin_hindrance(moment, job))
        .or_else(|| partition_hindrance(cluster, job))
        .or_else(|| wall_hindrance(cluster, job))
        .or_else(|| limit_reached(cluster, tally, job))
        .or_else(|| reservation_hindrance(cluster, moment, job))
        .or_else(|| node_hindrance(cluster, job))
}
