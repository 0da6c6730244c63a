//! A daemon's turn at the controller.

ghost use Rattle.std.specs.Prelude.{◌≡◌, ◌<◌, ◌+◌, ◌^◌, ◌⊎◌, IfOk, OnOk, OnErr};
ghost use Rattle.ctl_desk.specs.Desk.{GoesOn};
ghost use Rattle.node_daemon.specs.Daemon.{polled};
ghost use Rattle.node_daemon.specs.Turn as spec;

use crate::daemon::DaemonState;
use ctl_desk::desk::Desk;
use ctl_desk::entry::Answer;
use reply_data::reply::Reply;
use request_data::request::Request;
use small_texts::memory_error::Memory;
use small_texts::name::Name;
use std::alloc::Global;

/// The user as whom daemons report.
pub fn root(alloc: Global) -> Result<Name, Memory>
    ensures { IfOk result (λ user. user ≡ spec.root) }
{
    Name::read(alloc, b"root").map_err(|_| Memory)
}

// Polls the daemon, and reports what it tells.
fn report<D: Desk>(
    alloc: Global,
    desk: &mut D,
    now: u64,
    daemon: &mut DaemonState,
) -> Result<Answer, Memory>
    requires { daemon.old.number + 1 < 2 ^ 64 }
    ensures goes_on { GoesOn (D.sight desk.old) (D.sight desk.new) }
    ensures answered { IfOk result (spec.AnswersReport now daemon.old (D.sight desk.old) (D.sight desk.new)) }
    ensures polled { OnOk result (daemon.new ≡ polled now daemon.old) }
    ensures err { OnErr result (spec.IsUntouched daemon.old daemon.new (D.sight desk.old) (D.sight desk.new)
        ⊎ spec.IsUnheard now daemon.old daemon.new (D.sight desk.old) (D.sight desk.new)) }
{
    let root = root(alloc)?;
    let told = daemon.poll(now)?;
    let answer = desk.ask(now, &root, Request::Report(told))?;
    Ok(answer)
}

// Gives the daemon the orders that the reply is.
fn give(daemon: &mut DaemonState, now: u64, reply: &Reply) -> Result<(), Memory>
    ensures ok { OnOk result (daemon.new ≡ spec.given_reply now reply.now daemon.old) }
    ensures err { OnErr result ((daemon.new ≡ daemon.old) × spec.IsOrders reply.now) }
{
    if let Reply::Orders(orders) = reply {
        let _taken = daemon.accept(orders, now)?;
    }
    Ok(())
}

/// One turn of a daemon: it polls, reports as root, and does what it is ordered in answer. Its cost is the daemon's and
/// the desk's. Where orders are lost for want of memory, the next report tells what runs without them.
pub fn daemon_turn<D: Desk>(
    alloc: Global,
    desk: &mut D,
    now: u64,
    daemon: &mut DaemonState,
) -> Result<Answer, Memory>
    requires { daemon.old.number + 1 < 2 ^ 64 }
    ensures goes_on { GoesOn (D.sight desk.old) (D.sight desk.new) }
    ensures answered { IfOk result (spec.AnswersReport now daemon.old (D.sight desk.old) (D.sight desk.new)) }
    ensures after { IfOk result (λ answer.
        daemon.new ≡ spec.after_reply now answer.reply (polled now daemon.old)) }
    ensures err { OnErr result (spec.IsCutTurn now daemon.old daemon.new (D.sight desk.old) (D.sight desk.new)) }
{
    let answer = report(alloc, desk, now, daemon)?;
    give(daemon, now, &answer.reply)?;
    Ok(answer)
}
