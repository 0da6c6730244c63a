//! Reports of nodes, also of those whose daemon was restarted: it runs nothing, so what the node held is lost first.

ghost use Rattle.std.specs.Prelude.{◌≡◌, ◌≤◌, ◌<◌, ℕ, if◌then◌else◌, IfOk, [], filter, length};
ghost use Rattle.job_table.specs.Table.{HaveRisingIds};
ghost use Rattle.ctl_state.specs.Index.{IsIndexed};
ghost use Rattle.ctl_state.specs.Soundness.{IsSound};
ghost use Rattle.ctl_state.specs.State.{state_of, last_moment};
ghost use Rattle.ctl_node_side.specs.Answering.{is_restarted};
ghost use Rattle.ctl_node_side.specs.Ordering.{orders_of, shown};
ghost use Rattle.ctl_node_side.specs.Reporting.{is_at, report_after};
ghost use Rattle.ctl_node_side.specs.Restarting.{met};

use crate::at_node::jobs_at;
use crate::report::{is_restarted, orders_by};
use crate::report_laws::a_node_without_jobs_is_ordered_alike;
use ctl_nodes::laws::{lost_nodes_keep_all_sound, the_same_nodes_are_lost_alike};
use ctl_nodes::lose;
use ctl_state::cluster::Cluster;
use job_table::record::JobRecord;
use plain_data::NodePlaces;
use reply_data::orders::Orders;
use request_data::report::Report;
use small_texts::memory_error::Memory;
use std::alloc::Global;

// The jobs by which a report is answered: those that hold something of its node, and none where its daemon was
// restarted.
fn jobs_met<'a>(
    alloc: Global,
    cluster: &'a Cluster,
    node: u32,
    report: &Report,
) -> Result<Vec<&'a JobRecord>, Memory>
    ensures rising { IfOk result (λ jobs. HaveRisingIds (shown jobs.items)) }
    ensures jobs { IfOk result (λ jobs. shown jobs.items ≡ (if is_restarted (state_of cluster.now) report.now then []
        else filter (is_at node) cluster.now.jobs.records)) }
{
    if is_restarted(cluster, report) {
        Ok(Vec::new(alloc))
    } else {
        jobs_at(alloc, &cluster.jobs, node)
    }
}

/// What the node at a place is ordered in answer to its report, whatever its moment: a daemon that was restarted kills
/// all that it tells to run. One look for each 64 jobs of which none holds something of the node; linear in those that do
/// and their neighbours, and for each that does in what the report tells.
pub fn orders(
    alloc: Global,
    cluster: &Cluster,
    node: u32,
    report: &Report,
) -> Result<Orders, Memory>
    requires sound { IsSound (state_of cluster.now) }
    ensures { IfOk result (λ orders. (now : ℕ) → orders
        ≡ orders_of (met (state_of cluster.now) now node report.now).jobs now node report.now) }
{
    lost_nodes_keep_all_sound();
    a_node_without_jobs_is_ordered_alike();
    let jobs = jobs_met(alloc, cluster, node, report)?;
    let orders = orders_by(alloc, jobs.as_slice(), node, report)?;
    Ok(orders)
}

// What the node at a place held is lost, where the daemon that reports was restarted.
fn lose_restarted(cluster: &mut Cluster, moment: u64, node: u32, report: &Report)
    requires sound { IsSound (state_of cluster.old) }
    requires indexed { IsIndexed cluster.old }
    requires there { node < length cluster.old.nodes.records }
    requires raised { cluster.old.moment ≤ moment }
    requires in_time { moment ≤ last_moment }
    ensures met { state_of cluster.new ≡ met (state_of cluster.old) moment node report.now }
    ensures sound { IsSound (state_of cluster.new) }
    ensures indexed { IsIndexed cluster.new }
{
    lost_nodes_keep_all_sound();
    the_same_nodes_are_lost_alike();
    if is_restarted(cluster, report) {
        let mut lost = NodePlaces::none();
        lost.insert(node);
        lose(cluster, moment, &lost);
        cluster.moment = moment;
    }
}

/// Does what the report of the node at a place makes of the cluster: where its daemon was restarted, the jobs that hold
/// something of the node fail. The index goes on showing what is held. One look for each 64 jobs of which none holds
/// something of the node; linear in those that do and their neighbours, and for each that does in what the report tells.
/// Where the daemon was restarted it is linear in all jobs. It takes no memory.
pub fn accept(cluster: &mut Cluster, moment: u64, node: u32, report: &Report)
    requires sound { IsSound (state_of cluster.old) }
    requires indexed { IsIndexed cluster.old }
    requires there { node < length cluster.old.nodes.records }
    requires raised { cluster.old.moment ≤ moment }
    requires in_time { moment ≤ last_moment }
    ensures after { state_of cluster.new
        ≡ report_after (met (state_of cluster.old) moment node report.now) moment node report.now }
    ensures indexed { IsIndexed cluster.new }
{
    lose_restarted(cluster, moment, node, report);
    crate::report::accept(cluster, moment, node, report);
}
