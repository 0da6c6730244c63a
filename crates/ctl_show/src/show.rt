//! Queries.

ghost use Rattle.std.specs.Prelude.{◌≡◌, ◌≤◌, IfOk};
ghost use Rattle.ctl_state.specs.State.{state_of, last_moment};
ghost use Rattle.ctl_state.specs.Refusals.{first_refusal, refused_if};
ghost use Rattle.ctl_state.specs.Soundness.{IsSound};
ghost use Rattle.ctl_show.specs.Showing;

use crate::jobs::{is_no_node, is_no_reservation, is_unknown, means_nothing, names_nothing};
use crate::kept::kept_rows;
use crate::priorities::priority_rows;
use crate::rows::job_rows;
use crate::shown_nodes::node_rows;
use crate::shown_partitions::partition_rows;
use crate::shown_reservations::reservation_rows;
use crate::standing::state_rows;
use ctl_state::cluster::Cluster;
use plain_data::items::Items;
use reply_data::refusal::Refusal;
use reply_data::view::{Row, View};
use request_data::query::{JobQuery, Query};
use request_data::target::Target;
use small_texts::memory_error::Memory;
use small_texts::name::Name;
use std::alloc::Global;

// Why a query is refused that asks for this partition.
fn partition_refusal(cluster: &Cluster, asked: &Option<Name>) -> Option<Refusal>
    ensures { result ≡ refused_if (Showing.is_unknown (state_of cluster.now) asked.now) Refusal.InvalidPartition }
{
    if is_unknown(cluster, asked) {
        Some(Refusal::InvalidPartition)
    } else {
        None
    }
}

// Why a query of jobs is refused.
fn job_refusal(cluster: &Cluster, query: &JobQuery) -> Option<Refusal>
    requires { IsSound (state_of cluster.now) }
    ensures { result ≡ first_refusal (Showing.show_refusals (state_of cluster.now) (Query.Squeue query.now)) }
{
    if names_nothing(&cluster.jobs, &query.jobs) {
        return Some(Refusal::InvalidJobId);
    }
    partition_refusal(cluster, &query.partition)
}

// Why a query of priorities is refused.
fn priority_refusal(cluster: &Cluster, jobs: &Option<Items<Target>>) -> Option<Refusal>
    requires { IsSound (state_of cluster.now) }
    ensures { result ≡ refused_if (Showing.names_nothing cluster.now.jobs.records jobs.now) Refusal.InvalidJobId }
{
    if names_nothing(&cluster.jobs, jobs) {
        Some(Refusal::InvalidJobId)
    } else {
        None
    }
}

// Why a query of all of one job, of an array or of every job is refused.
fn target_refusal(cluster: &Cluster, target: &Option<Target>) -> Option<Refusal>
    requires { IsSound (state_of cluster.now) }
    ensures { result ≡ refused_if (Showing.means_nothing cluster.now.jobs.records target.now) Refusal.InvalidJobId }
{
    if means_nothing(&cluster.jobs, target) {
        Some(Refusal::InvalidJobId)
    } else {
        None
    }
}

// Why a query of nodes is refused.
fn node_refusal(cluster: &Cluster, asked: &Option<Name>) -> Option<Refusal>
    ensures { result ≡ refused_if (Showing.is_no_node (state_of cluster.now) asked.now) Refusal.UnknownNode }
{
    if is_no_node(cluster, asked) {
        Some(Refusal::UnknownNode)
    } else {
        None
    }
}

// Why a query of reservations is refused.
fn reservation_refusal(cluster: &Cluster, asked: &Option<Name>) -> Option<Refusal>
    ensures { result
        ≡ refused_if (Showing.is_no_reservation (state_of cluster.now) asked.now) Refusal.InvalidReservation }
{
    if is_no_reservation(cluster, asked) {
        Some(Refusal::InvalidReservation)
    } else {
        None
    }
}

/// Why a query is refused, if it is. Logarithmic in the jobs for each target, and linear in the tasks of arrays.
pub fn refusal_of(cluster: &Cluster, query: &Query) -> Option<Refusal>
    requires { IsSound (state_of cluster.now) }
    ensures { result ≡ first_refusal (Showing.show_refusals (state_of cluster.now) query.now) }
{
    match query {
        Query::Squeue(query) => job_refusal(cluster, query),
        Query::Sinfo { partition, .. } => partition_refusal(cluster, partition),
        Query::Sprio { jobs, .. } => priority_refusal(cluster, jobs),
        Query::ShowJob(target) => target_refusal(cluster, target),
        Query::ShowNode(name) => node_refusal(cluster, name),
        Query::ShowPartition(name) => partition_refusal(cluster, name),
        Query::ShowReservation(name) => reservation_refusal(cluster, name),
    }
}

// The rows that a user's query shows.
fn rows_of(
    alloc: Global,
    cluster: &Cluster,
    moment: u64,
    asker: &Name,
    query: &Query,
) -> Result<Vec<Row>, Memory>
    requires sound { IsSound (state_of cluster.now) }
    requires in_time { moment ≤ last_moment }
    ensures { IfOk result (λ rows. rows.items ≡ Showing.rows_of (state_of cluster.now) moment asker.now query.now) }
{
    match query {
        Query::Squeue(query) => job_rows(alloc, cluster, moment, asker, query),
        Query::Sinfo { partition, .. } => state_rows(alloc, cluster, partition),
        Query::Sprio { who, jobs, .. } => priority_rows(alloc, cluster, moment, asker, who, jobs),
        Query::ShowJob(target) => kept_rows(alloc, cluster, moment, target),
        Query::ShowNode(name) => node_rows(alloc, cluster, name),
        Query::ShowPartition(name) => partition_rows(alloc, cluster, name),
        Query::ShowReservation(name) => reservation_rows(alloc, cluster, name),
    }
}

/// What a user's query shows, at its raised moment. A query of jobs walks the places between which the jobs lie that it
/// names, or all: beside a search for each target it is linear in these places, and for each in the targets and states
/// that it names. Once a job is shown it measures what the priorities rest on, which is linear in nodes, partitions,
/// associations, the jobs that hold something and their parts, with one look for each 64 others, and sorts the users.
/// Once a pending one is shown each that holds processors costs its association's way up to root, and it is linear in
/// the jobs where the terms of one say to wait for those before it of its user and name. Where more than 16 places are
/// walked it is linear in the jobs and the plan then, and each pending job costs such a way too; where few are, each
/// pending job that is shown is looked for in the plan, and one that nothing hinders is compared with the others up to
/// the first candidate that comes before it, at such a way for each that may. A row is linear in its job's parts. What
/// scontrol(1) shows of jobs costs what a query of jobs does. A query of priorities walks such places too, and always
/// measures what these rest on. One of partitions and how their nodes stand is linear in the nodes, the jobs' parts and
/// the nodes of the partitions that it shows. What scontrol(1) shows of nodes is linear in these and the jobs' parts, of
/// partitions in these and the nodes of those that are shown, and of reservations in these with the nodes and names of
/// those that are shown.
#[tactic(auto, unfolding(crate::specs::Showing::view_of))]
pub fn view_of(
    alloc: Global,
    cluster: &Cluster,
    moment: u64,
    asker: &Name,
    query: &Query,
) -> Result<View, Memory>
    requires sound { IsSound (state_of cluster.now) }
    requires in_time { moment ≤ last_moment }
    ensures { IfOk result (λ view. view ≡ Showing.view_of (state_of cluster.now) moment asker.now query.now) }
{
    let rows = rows_of(alloc, cluster, moment, asker, query)?;
    Ok(View {
        rows: Items::from_vec(rows),
    })
}
