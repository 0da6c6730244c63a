//! What is asked at the desks of a simulation, at each in its turn.

ghost use Rattle.std.specs.Prelude.{◌≡◌, ◌<◌, length, map, Contains, IfOk};
ghost use Rattle.request_data.specs.declared.request.Request.TheVariants.{Pass, Show};
ghost use Rattle.ctl_desk.specs.Desk.{Sight, history_of};
ghost use Rattle.ctl_desk.specs.History.{IsHistory};
ghost use Rattle.node_daemon.specs.Turn.{root};
ghost use Rattle.simulation.specs.Run.{AllGoOn, IfOneAlone, state_seen};
ghost use Rattle.simulation.specs.Simulation.{behind, told};

use crate::laws::answers_follow_alone;
use crate::rota::Rota;
use ctl_desk::desk::Desk;
use reply_data::reply::Reply;
use request_data::query::Query;
use request_data::request::Request;
use resource_profile::{Plain, Steps};
use small_texts::memory_error::Memory;
use small_texts::name::Name;

/// The desk's history is one that the controller keeps.
pub(crate) fn keeps_history<D: Desk>(desk: &D)
    ensures { IsHistory (history_of (D.sight desk.now)) }
{
    let _ = desk.seen_len();
}

/// Asks, as root, to be shown something.
pub(crate) fn show<D: Desk>(
    desks: &mut [D],
    rota: &mut Rota,
    now: u64,
    user: &Name,
    query: Query,
) -> Result<Reply, Memory>
    requires desks { 0 < length desks.old }
    requires user { user.now ≡ root }
    ensures go_on { AllGoOn (map D.sight desks.old) (map D.sight desks.new) }
    ensures shown { IfOk result (λ reply. (desk : Sight) × Contains (map D.sight desks.new) desk
        × (reply ≡ told now (Show query) (state_seen desk))) }
    ensures alone { IfOk result (λ reply. IfOneAlone (map D.sight desks.old) (map D.sight desks.new)
        (λ s s'. (reply ≡ told now (Show query) s) × (s' ≡ behind now (Show query) s))) }
{
    answers_follow_alone();
    let place = rota.take(desks.len());
    let desk = &mut desks[place];
    keeps_history(desk);
    match desk.ask(now, user, Request::Show(query)) {
        Ok(answer) => Ok(answer.reply),
        Err(Memory) => Err(Memory),
    }
}

/// Makes a pass, as root.
pub(crate) fn pass<D: Desk>(
    desks: &mut [D],
    rota: &mut Rota,
    now: u64,
    user: &Name,
    steps: &mut Steps<Plain>,
) -> Result<Reply, Memory>
    requires desks { 0 < length desks.old }
    requires user { user.now ≡ root }
    ensures go_on { AllGoOn (map D.sight desks.old) (map D.sight desks.new) }
    ensures alone { IfOk result (λ reply. IfOneAlone (map D.sight desks.old) (map D.sight desks.new)
        (λ s s'. (reply ≡ told now Pass s) × (s' ≡ behind now Pass s))) }
{
    answers_follow_alone();
    let place = rota.take(desks.len());
    let desk = &mut desks[place];
    keeps_history(desk);
    match desk.pass(now, user, None, steps) {
        Ok(answer) => Ok(answer.reply),
        Err(Memory) => Err(Memory),
    }
}
