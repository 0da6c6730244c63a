//! The daemons of a simulation.

ghost use Rattle.std.specs.Prelude.{◌≡◌, ◌<◌, length, map, IfOk, filter_map};
ghost use Rattle.simulation.specs.Run.{AllGoOn, HaveReported, IfOneAlone};
ghost use Rattle.simulation.specs.Simulation.{behind, daemon_of, daemons_of, nodes_asked, rows_of, told};

use crate::asking::show;
use crate::rota::Rota;
use ctl_desk::desk::Desk;
use node_daemon::daemon::DaemonState;
use node_daemon::root;
use reply_data::reply::Reply;
use reply_data::view::Row;
use request_data::query::Query;
use small_texts::memory_error::Memory;
use std::alloc::Global;

/// The records that a reply shows.
pub(crate) fn rows_of(reply: &Reply) -> &[Row]
    ensures { result.now ≡ rows_of reply.now }
{
    match reply {
        Reply::Shown(view) => view.rows.as_slice(),
        _ => &[],
    }
}

// The daemon of the node that is shown, if one is.
fn daemon_of(alloc: Global, row: &Row) -> Result<Option<DaemonState>, Memory>
    ensures { IfOk result (λ daemon. daemon ≡ daemon_of row.now) }
{
    match row {
        Row::Node(node) => Ok(Some(DaemonState::new(alloc, &node.name, 1)?)),
        _ => Ok(None),
    }
}

// The daemons of the nodes that are shown.
fn started(alloc: Global, rows: &[Row]) -> Result<Vec<DaemonState>, Memory>
    ensures { IfOk result (λ daemons. daemons.items ≡ filter_map daemon_of rows.now) }
{
    let mut daemons = Vec::with_capacity(alloc, rows.len())?;
    for row in rows {
        if let Some(daemon) = daemon_of(alloc, row)? {
            daemons.push(daemon)?;
        }
    }
    Ok(daemons)
}

/// Starts the daemon of each node, in the order in which the controller shows them.
pub(crate) fn start_daemons<D: Desk>(
    alloc: Global,
    desks: &mut [D],
    rota: &mut Rota,
    now: u64,
) -> Result<Vec<DaemonState>, Memory>
    requires { 0 < length desks.old }
    ensures go_on { AllGoOn (map D.sight desks.old) (map D.sight desks.new) }
    ensures new { IfOk result (λ daemons. HaveReported 0 daemons.items) }
    ensures alone { IfOk result (λ daemons. IfOneAlone (map D.sight desks.old) (map D.sight desks.new)
        (λ s s'. (daemons.items ≡ daemons_of (told now nodes_asked s)) × (s' ≡ behind now nodes_asked s))) }
{
    let root = root(alloc)?;
    let reply = show(desks, rota, now, &root, Query::ShowNode(None))?;
    started(alloc, rows_of(&reply))
}
