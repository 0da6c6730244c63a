//! What scontrol(1) does, by its second word.

ghost use Rattle.std.specs.Prelude.{◌≡◌};
ghost use Rattle.scontrol_words.specs.Scontrol.{action_named, action_in};

use line_words::words::Words;
use operands::bad_word::{BadWord, WordKind, fault_at};
use operands::operand::word_at;

/// What is done.
#[derive(Clone, Copy)]
pub(crate) enum Action {
    Show,
    Hold,
    /// A hold that the job's owner may take back.
    UserHold,
    Release,
    Requeue,
    Update,
    Create,
    Delete,
    Reconfigure,
    Shutdown,
}

#[tactic(auto, unfolding(crate::specs::Scontrol::action_named))]
fn action_named(word: &[u8]) -> Option<Action>
    ensures { result ≡ action_named word.now }
{
    if word == b"show".as_slice() {
        Some(Action::Show)
    } else if word == b"hold".as_slice() {
        Some(Action::Hold)
    } else if word == b"uhold".as_slice() {
        Some(Action::UserHold)
    } else if word == b"release".as_slice() {
        Some(Action::Release)
    } else if word == b"requeue".as_slice() {
        Some(Action::Requeue)
    } else if word == b"update".as_slice() {
        Some(Action::Update)
    } else if word == b"create".as_slice() {
        Some(Action::Create)
    } else if word == b"delete".as_slice() {
        Some(Action::Delete)
    } else if word == b"reconfigure".as_slice() {
        Some(Action::Reconfigure)
    } else if word == b"shutdown".as_slice() {
        Some(Action::Shutdown)
    } else {
        None
    }
}

/// What the second word says is done.
#[tactic(auto, unfolding(crate::specs::Scontrol::action_in))]
pub(crate) fn action_in(words: &Words) -> Result<Action, BadWord>
    ensures { result ≡ action_in words.now }
{
    let word = word_at(words, 1)?;
    match action_named(word) {
        Some(action) => Ok(action),
        None => Err(fault_at(1, WordKind::UnknownCommand)),
    }
}
