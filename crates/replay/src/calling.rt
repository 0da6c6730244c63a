//! Who is called behind a pass that started something.

ghost use Rattle.std.specs.Prelude.{◌≡◌, ◌+◌, ◌<◌, ◌^◌, ℕ, All, OnOk, option_copied, slice_get};
ghost use Rattle.ctl_desk.specs.Desk.{state_of};
ghost use Rattle.replay.specs.declared.played.Played.{Played};
ghost use Rattle.replay.specs.Replay.{HaveReported, called_from, holds_others, played_behind_call, processors_of, state_behind_call};

use crate::asking::ask_as_root;
use crate::nodes::rows_of;
use crate::played::{Played, Run};
use crate::turns::Round;
use ctl_desk::own_desk::OwnDesk;
use reply_data::view::Row;
use request_data::query::Query;
use request_data::request::Request;
use small_texts::memory_error::Memory;
use std::alloc::Global;

fn processors_of(runs: &[Run]) -> u64
    ensures { result ≡ processors_of runs.now }
{
    runs.iter().fold(
        0,
        |count: u64, run| count.saturating_add(u64::from(run.processors)),
    )
}

// Whether the controller holds other processors of a node than its daemon runs on.
fn holds_others(row: Option<&Row>, runs: &[Run]) -> bool
    ensures { result ≡ holds_others (option_copied row.entry) runs.now }
{
    match row {
        Some(Row::Node(node)) => node.held != processors_of(runs),
        _ => false,
    }
}

// The record at a place, if there is one.
fn row_at(rows: &[Row], place: usize) -> Option<&Row>
    ensures { option_copied result ≡ slice_get rows.now place }
{
    rows.get(place)
}

// Calls the daemons on whose nodes that is so; rows and daemons are in the order of the nodes.
fn call_all(rows: &[Row], played: &mut [Played])
    ensures { played.new ≡ called_from rows.now 0 played.old }
{
    for (place, one) in played.iter_mut().enumerate() {
        one.called = holds_others(row_at(rows, place), one.runs.as_slice());
    }
}

/// Looks at the nodes where daemons are called, and calls those that have something to launch.
pub(crate) fn call(
    alloc: Global,
    desk: &mut OwnDesk,
    now: u64,
    round: Round,
    played: &mut [Played],
) -> Result<(), Memory>
    ensures state { OnOk result (state_of desk.new ≡ state_behind_call round now (state_of desk.old)) }
    ensures played { OnOk result (played.new ≡ played_behind_call round now (state_of desk.old) played.old) }
{
    match round {
        Round::Called => {
            let reply = ask_as_root(alloc, desk, now, Request::Show(Query::ShowNode(None)))?;
            call_all(rows_of(&reply), played);
            Ok(())
        }
        _ => Ok(()),
    }
}
