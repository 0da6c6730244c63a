//! What is asked at the desk of a replay.

ghost use Rattle.std.specs.Prelude.{◌≡◌, IfOk, OnOk};
ghost use Rattle.request_data.specs.declared.request.Request.TheVariants.{Pass, Show};
ghost use Rattle.ctl_desk.specs.Desk.{history_of, sight_of, state_of};
ghost use Rattle.ctl_desk.specs.History.{IsHistory};
ghost use Rattle.node_daemon.specs.Turn.{root};
ghost use Rattle.replay.specs.Replay.{behind, told};

use ctl_desk::desk::Desk;
use ctl_desk::laws::answers_follow_at_a_desk_of_its_own;
use ctl_desk::own_desk::OwnDesk;
use node_daemon::root;
use reply_data::reply::Reply;
use request_data::query::Query;
use request_data::request::Request;
use resource_profile::{Plain, Steps};
use small_texts::memory_error::Memory;
use small_texts::name::Name;
use std::alloc::Global;

/// The desk's history is one that the controller keeps.
pub(crate) fn keeps_history(desk: &OwnDesk)
    ensures { IsHistory (history_of (sight_of desk.now)) }
{
    let _ = desk.seen_len();
}

/// Asks for a user.
pub(crate) fn ask(
    desk: &mut OwnDesk,
    now: u64,
    user: &Name,
    request: Request,
) -> Result<Reply, Memory>
    ensures reply { IfOk result (λ reply. reply ≡ told user.now now request (state_of desk.old)) }
    ensures state { OnOk result (state_of desk.new ≡ behind user.now now request (state_of desk.old)) }
{
    answers_follow_at_a_desk_of_its_own();
    keeps_history(desk);
    match desk.ask(now, user, request) {
        Ok(answer) => Ok(answer.reply),
        Err(Memory) => Err(Memory),
    }
}

/// Asks as root.
pub(crate) fn ask_as_root(
    alloc: Global,
    desk: &mut OwnDesk,
    now: u64,
    request: Request,
) -> Result<Reply, Memory>
    ensures reply { IfOk result (λ reply. reply ≡ told root now request (state_of desk.old)) }
    ensures state { OnOk result (state_of desk.new ≡ behind root now request (state_of desk.old)) }
{
    let root = root(alloc)?;
    ask(desk, now, &root, request)
}

/// Asks as root what a query shows.
pub fn look(alloc: Global, desk: &mut OwnDesk, now: u64, query: Query) -> Result<Reply, Memory>
    ensures reply { IfOk result (λ reply. reply ≡ told root now (Show query) (state_of desk.old)) }
    ensures state { OnOk result (state_of desk.new ≡ behind root now (Show query) (state_of desk.old)) }
{
    ask_as_root(alloc, desk, now, Request::Show(query))
}

/// Makes a pass as root.
pub(crate) fn pass(
    alloc: Global,
    desk: &mut OwnDesk,
    now: u64,
    steps: &mut Steps<Plain>,
) -> Result<Reply, Memory>
    ensures reply { IfOk result (λ reply. reply ≡ told root now Pass (state_of desk.old)) }
    ensures state { OnOk result (state_of desk.new ≡ behind root now Pass (state_of desk.old)) }
{
    answers_follow_at_a_desk_of_its_own();
    keeps_history(desk);
    let root = root(alloc)?;
    let answer = desk.pass(now, &root, None, steps)?;
    Ok(answer.reply)
}
