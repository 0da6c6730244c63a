//! Reports of nodes.

ghost use Rattle.std.specs.Prelude.{◌≡◌, ◌≤◌, IfOk, OnErr};
ghost use Rattle.ctl_state.specs.State.{state_of, last_moment};
ghost use Rattle.ctl_state.specs.Index.{IsIndexed};
ghost use Rattle.ctl_state.specs.Soundness.{IsSound};
ghost use Rattle.ctl_state.specs.Refusals.{first_refusal, unless_refused};
ghost use Rattle.ctl_node_side.specs.Answering.{report_refusals};
ghost use Rattle.ctl_node_side.specs.Restarting.{report_made};
ghost use Rattle.ctl_core.specs.Answering.{Answers};
ghost use Rattle.ctl_core.specs.Step.{unless_full};

use crate::answering::refused;
use crate::entered::Entered;
use crate::reply::Answered;
use ctl_node_side::report::{node_of, refusal_of};
use ctl_node_side::{accept, orders};
use ctl_state::cluster::Cluster;
use reply_data::refusal::Refusal;
use reply_data::reply::Reply;
use request_data::report::Report;
use small_texts::memory_error::Memory;
use small_texts::name::Name;
use std::alloc::Global;

/// A report at its raised moment, where the history has room for it or not.
pub(crate) fn report(
    alloc: Global,
    cluster: &mut Cluster,
    moment: u64,
    user: &Name,
    report: &Report,
    room: bool,
) -> Result<Answered, Memory>
    requires sound { IsSound (state_of cluster.old) }
    requires raised { cluster.old.moment ≤ moment }
    requires in_time { moment ≤ last_moment }
    requires indexed { IsIndexed cluster.old }
    ensures ok { IfOk result (Answers (state_of cluster.old) (state_of cluster.new)
        (unless_refused (first_refusal (report_refusals (state_of cluster.old) user.now report.now))
        (unless_full room (report_made (state_of cluster.old) moment report.now)))) }
    ensures err { OnErr result (state_of cluster.new ≡ state_of cluster.old) }
    ensures indexed { IsIndexed cluster.new }
{
    if let Some(refusal) = refusal_of(cluster, user, report) {
        return Ok(refused(refusal));
    }
    let Some(node) = node_of(cluster, report) else {
        return Ok(refused(Refusal::UnknownNode));
    };
    if !room {
        return Ok(refused(Refusal::HistoryFull));
    }
    let orders = orders(alloc, cluster, node, report)?;
    let entered = Entered::ordered(alloc, &orders)?;
    accept(cluster, moment, node, report);
    Ok(Answered {
        reply: Reply::Orders(orders),
        entered: Some(entered),
    })
}
