//! A report: its refusals, its orders and what it does.

ghost use Rattle.std.specs.Prelude.{◌≡◌, ◌<◌, ℕ, IfOk, IfSome, length};
ghost use Rattle.job_table.specs.Table.{HaveRisingIds};
ghost use Rattle.ctl_state.specs.State.{state_of};
ghost use Rattle.ctl_state.specs.Index.{IsIndexed};
ghost use Rattle.ctl_state.specs.Soundness.{IsSound};
ghost use Rattle.ctl_state.specs.Refusals.{first_refusal};
ghost use Rattle.ctl_node_side.specs.Reporting.{report_after};
ghost use Rattle.ctl_node_side.specs.Ordering.{orders_of, shown};
ghost use Rattle.ctl_node_side.specs.Answering;

use crate::jobs::report_jobs;
use crate::nodes::{hear, heard_of, is_after};
use crate::ordering::{forgets, kills, launches};
use ctl_state::cluster::Cluster;
use job_table::record::JobRecord;
use reply_data::orders::Orders;
use reply_data::refusal::Refusal;
use request_data::report::{Heard, Report};
use small_texts::memory_error::Memory;
use small_texts::name::Name;
use std::alloc::Global;

/// The place of the node that reports, in constant time.
pub fn node_of(cluster: &Cluster, report: &Report) -> Option<u32>
    ensures place { result ≡ Answering.node_of (state_of cluster.now) report.now }
    ensures within { IfSome result (λ node. node < length cluster.now.nodes.records) }
{
    cluster.nodes.find(&report.node)
}

// The last accepted report of the node that reports.
fn last_heard(cluster: &Cluster, report: &Report) -> Option<Heard>
    ensures { result ≡ Answering.last_heard (state_of cluster.now) report.now }
{
    heard_of(&cluster.nodes, node_of(cluster, report)?)
}

/// Whether the report's daemon was restarted since its last accepted report, in constant time.
pub fn is_restarted(cluster: &Cluster, report: &Report) -> bool
    ensures { result ≡ Answering.is_restarted (state_of cluster.now) report.now }
{
    match last_heard(cluster, report) {
        Some(heard) => heard.boot < report.boot,
        None => false,
    }
}

// Why the report comes too late, if it does.
fn staleness(cluster: &Cluster, report: &Report) -> Option<Refusal>
    ensures { result ≡ Answering.staleness report.now (Answering.last_heard (state_of cluster.now) report.now) }
{
    match last_heard(cluster, report) {
        Some(heard) if !is_after(&heard, report) => Some(Refusal::StaleReport {
            boot: heard.boot,
            number: heard.number,
        }),
        _ => None,
    }
}

/// Why the report is refused, if it is. Constant time.
pub fn refusal_of(cluster: &Cluster, user: &Name, report: &Report) -> Option<Refusal>
    ensures { result ≡ first_refusal (Answering.report_refusals (state_of cluster.now) user.now report.now) }
{
    if !cluster.is_privileged(user) {
        return Some(Refusal::AccessDenied);
    }
    if node_of(cluster, report).is_none() {
        return Some(Refusal::UnknownNode);
    }
    staleness(cluster, report)
}

/// What the node at a place is ordered in answer to its report, by the jobs that are pointed to, whatever its moment.
/// For each that holds something of the node it is linear in what the report tells.
pub(crate) fn orders_by(
    alloc: Global,
    jobs: &[&JobRecord],
    node: u32,
    report: &Report,
) -> Result<Orders, Memory>
    requires { HaveRisingIds (shown jobs.now) }
    ensures { IfOk result (λ orders. (now : ℕ) → orders ≡ orders_of (shown jobs.now) now node report.now) }
{
    Ok(Orders {
        node: report.node.copy()?,
        boot: report.boot,
        number: report.number,
        kills: kills(alloc, jobs, node, report)?,
        forgets: forgets(alloc, report.done.as_slice())?,
        launches: launches(alloc, jobs, node, report)?,
    })
}

/// Does what the report of the node at a place makes of the cluster; the index goes on showing what is held. It takes no
/// memory.
pub fn accept(cluster: &mut Cluster, moment: u64, node: u32, report: &Report)
    requires sound { IsSound (state_of cluster.old) }
    requires indexed { IsIndexed cluster.old }
    ensures after { state_of cluster.new ≡ report_after (state_of cluster.old) moment node report.now }
    ensures indexed { IsIndexed cluster.new }
{
    report_jobs(&mut cluster.nodes, &mut cluster.jobs, moment, node, report);
    hear(&mut cluster.nodes, moment, node, report);
}
