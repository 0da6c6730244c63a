//! The daemons of a replay.

ghost use Rattle.std.specs.Prelude.{◌≡◌, IfOk, OnOk, filter_map};
ghost use Rattle.ctl_desk.specs.Desk.{state_of};
ghost use Rattle.node_daemon.specs.Turn.{root};
ghost use Rattle.replay.specs.Replay.{behind, nodes_asked, played_of, rows_of, told};

use crate::asking::ask_as_root;
use crate::played::Played;
use ctl_desk::own_desk::OwnDesk;
use node_daemon::daemon::DaemonState;
use plain_data::items::Items;
use reply_data::reply::Reply;
use reply_data::view::Row;
use request_data::query::Query;
use request_data::request::Request;
use small_texts::memory_error::Memory;
use std::alloc::Global;

/// The records that a reply shows.
pub(crate) fn rows_of(reply: &Reply) -> &[Row]
    ensures { result.now ≡ rows_of reply.now }
{
    match reply {
        Reply::Shown(view) => view.rows.as_slice(),
        _ => &[],
    }
}

// The daemon of the node that is shown, if one is.
fn played_of(alloc: Global, row: &Row) -> Result<Option<Played>, Memory>
    ensures { IfOk result (λ one. one ≡ played_of row.now) }
{
    match row {
        Row::Node(node) => Ok(Some(Played {
            daemon: DaemonState::new(alloc, &node.name, 1)?,
            runs: Items::from_vec(Vec::new(alloc)),
            launched: Items::from_vec(Vec::new(alloc)),
            called: false,
        })),
        _ => Ok(None),
    }
}

// The daemons of the nodes that are shown.
fn started(alloc: Global, rows: &[Row]) -> Result<Vec<Played>, Memory>
    ensures { IfOk result (λ played. played.items ≡ filter_map played_of rows.now) }
{
    let mut played = Vec::with_capacity(alloc, rows.len())?;
    for row in rows {
        if let Some(one) = played_of(alloc, row)? {
            played.push(one)?;
        }
    }
    Ok(played)
}

/// Starts the daemon of each node, in the order in which the controller shows them.
pub(crate) fn start_daemons(
    alloc: Global,
    desk: &mut OwnDesk,
    now: u64,
) -> Result<Vec<Played>, Memory>
    ensures played { IfOk result (λ played. played.items ≡ filter_map played_of (rows_of (told root now nodes_asked (state_of desk.old)))) }
    ensures state { OnOk result (state_of desk.new ≡ behind root now nodes_asked (state_of desk.old)) }
{
    let reply = ask_as_root(alloc, desk, now, Request::Show(Query::ShowNode(None)))?;
    started(alloc, rows_of(&reply))
}
