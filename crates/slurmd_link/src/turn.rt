//! One turn of a daemon over a link.

ghost use Rattle.std.specs.Prelude.{◌≡◌, ◌<◌, ◌+◌, ◌^◌, OnOk, OnErr};
ghost use Rattle.std.specs.Io.KnownBytes.{Appends};
ghost use Rattle.slurm_io.specs.Bytes.{AppendsFront};
ghost use Rattle.slurm_io.specs.Faults.{CountsFault};
ghost use Rattle.slurm_client.specs.Requests.{ReadsStay};
ghost use Rattle.slurm_client.specs.Reading.{WritesStay};
ghost use Rattle.slurmd_link.specs.Turns.{AsksOrCut, Hears, IsAnswered, IsTurnOrCut, cut_of, scene};

use crate::frame::report_frame;
use crate::text::ReplyText;
use block_frame::read_reply;
use node_daemon::daemon::DaemonState;
use orders_text::{OrdersRefusal, read_orders};
use reply_data::orders::Orders;
use slurm_client::{Unread, read_frame};
use slurm_io::{Failed, Link, write_all};
use slurm_net::Clock;
use small_texts::memory_error::Memory;
use small_texts::name::Name;
use std::alloc::Global;

/// Why a turn was cut short.
#[derive(Drop)]
pub(crate) enum Cut {
    Refused(ReplyText),
    BadReply,
    ReadFault,
    WriteFault,
    Memory,
}

impl From<Memory> for Cut {
    ghost use Rattle.std.specs.Prelude.{◌≡◌};
    ghost use Rattle.slurmd_link.specs.declared.turn.Cut.TheVariants.{Memory};

    ghost from_gives = { λ _ e. e ≡ Memory };

    fn from(_error: Memory) -> Cut {
        Cut::Memory
    }
}

// The orders for a node that a frame is, or what else it is.
fn orders_of(alloc: Global, frame: &[u8], node: &Name) -> Result<Orders, Cut>
    ensures { IsAnswered node.now frame.now result }
{
    let Some(reply) = read_reply(frame) else {
        return Err(Cut::BadReply);
    };
    if reply.status > 0 {
        return Err(Cut::Refused(ReplyText::copy_of(alloc, reply.text)?));
    }
    match read_orders(alloc, reply.text, node) {
        Ok(orders) => Ok(orders),
        Err(OrdersRefusal::BadOrders { .. }) => Err(Cut::BadReply),
        Err(OrdersRefusal::Memory) => Err(Cut::Memory),
    }
}

// What of a frame that was not read.
fn cut_of(unread: Unread) -> Cut
    ensures { result ≡ cut_of unread }
{
    match unread {
        Unread::Bad => Cut::BadReply,
        Unread::ReadFault => Cut::ReadFault,
        Unread::Memory => Cut::Memory,
    }
}

// Writes all of a frame.
fn send<L: Link>(link: &mut L, frame: &[u8]) -> Result<(), Failed>
    ensures written { OnOk result (Appends (L.wire link.old).taken (L.wire link.new).taken frame.now) }
    ensures cut { OnErr result (AppendsFront (L.wire link.old).taken (L.wire link.new).taken frame.now) }
    ensures faults { CountsFault (L.wire link.old).writes (L.wire link.new).writes result }
    ensures reads { ReadsStay (L.wire link.old) (L.wire link.new) }
{
    write_all(link, frame)
}

// Polls the daemon, and sends what it tells; the moment and the node.
fn ask<L: Link, C: Clock>(
    alloc: Global,
    link: &mut L,
    user: &Name,
    daemon: &mut DaemonState,
    clock: &mut C,
) -> Result<(u64, Name), Cut>
    requires { daemon.old.number + 1 < 2 ^ 64 }
    ensures { AsksOrCut user.now (scene (L.wire link.old) (C.moments clock.old) daemon.old)
        (scene (L.wire link.new) (C.moments clock.new) daemon.new) result }
{
    let now = clock.now();
    let report = daemon.poll(now)?;
    let frame = report_frame(alloc, user, &report)?;
    match send(link, frame.as_slice()) {
        Ok(()) => Ok((now, report.node)),
        Err(Failed) => Err(Cut::WriteFault),
    }
}

// Reads the orders for a node; how many bytes their frame has.
fn hear<L: Link>(alloc: Global, link: &mut L, node: &Name) -> Result<(Orders, u64), Cut>
    ensures heard { Hears node.now (L.wire link.old) (L.wire link.new) result }
    ensures writes { WritesStay (L.wire link.old) (L.wire link.new) }
{
    match read_frame(alloc, link) {
        Ok(frame) => {
            let orders = orders_of(alloc, frame.as_slice(), node)?;
            Ok((orders, frame.len() as u64))
        }
        Err(unread) => Err(cut_of(unread)),
    }
}

/// One turn: the clock is read once, the daemon polls, one frame is sent and one reply frame read, its orders are taken
/// at the same moment, and the clock rests. It tells how many bytes the reply frame has.
pub(crate) fn turn<L: Link, C: Clock>(
    alloc: Global,
    link: &mut L,
    user: &Name,
    daemon: &mut DaemonState,
    clock: &mut C,
) -> Result<u64, Cut>
    requires { daemon.old.number + 1 < 2 ^ 64 }
    ensures { IsTurnOrCut user.now (scene (L.wire link.old) (C.moments clock.old) daemon.old)
        (scene (L.wire link.new) (C.moments clock.new) daemon.new) result }
{
    let (now, node) = ask(alloc, link, user, daemon, clock)?;
    let (orders, size) = hear(alloc, link, &node)?;
    let _taken = daemon.accept(&orders, now)?;
    clock.rest();
    Ok(size)
}
