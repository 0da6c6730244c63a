//! The words of scontrol(1).

ghost use Rattle.std.specs.Prelude.{◌≡◌, IfOk};
ghost use Rattle.scontrol_words.specs.Scontrol.{acted, lacking_file, scontrol_by};

use crate::action::{Action, action_in};
use crate::deleting::read_delete;
use crate::holding::{read_hold, read_release, read_requeue};
use crate::reserving::read_create;
use crate::showing::read_show;
use crate::updating::read_update;
use line_words::words::Words;
use operands::bad_word::{BadWord, WordKind, fault_at};
use operands::operand::closed_at;
use request_data::request::Request;
use small_texts::memory_error::Memory;
use std::alloc::Global;

// What is wrong with `reconfigure` and no configuration beside it.
fn lacking_file(words: &Words) -> Result<Request, BadWord>
    ensures { result ≡ lacking_file words.now }
{
    let kind = if words.len() > 2 {
        WordKind::StrayWord
    } else {
        WordKind::MissingWord
    };
    Err(fault_at(2, kind))
}

fn act(
    alloc: Global,
    now: u64,
    words: &Words,
    action: Action,
) -> Result<Result<Request, BadWord>, Memory>
    ensures { IfOk result (λ request. request ≡ acted now words.now action) }
{
    match action {
        Action::Show => Ok(read_show(alloc, words)?.map(Request::Show)),
        Action::Hold => read_hold(alloc, false, words),
        Action::UserHold => read_hold(alloc, true, words),
        Action::Release => read_release(alloc, words),
        Action::Requeue => Ok(read_requeue(words)),
        Action::Update => read_update(alloc, words),
        Action::Create => read_create(alloc, now, words),
        Action::Delete => read_delete(alloc, words),
        Action::Reconfigure => Ok(lacking_file(words)),
        Action::Shutdown => Ok(closed_at(words, 2, Request::Shutdown)),
    }
}

/// What the words of scontrol(1) ask for at the moment `now`, the first of which is its name, or the first that is bad.
/// `reconfigure` asks for nothing by its words alone: a configuration is wanted beside them.
#[tactic(auto, unfolding(crate::specs::Scontrol::scontrol_by))]
pub fn read_scontrol(
    alloc: Global,
    now: u64,
    words: &Words,
) -> Result<Result<Request, BadWord>, Memory>
    ensures { IfOk result (λ request. request ≡ scontrol_by now words.now) }
{
    match action_in(words) {
        Ok(action) => act(alloc, now, words, action),
        Err(fault) => Ok(Err(fault)),
    }
}
