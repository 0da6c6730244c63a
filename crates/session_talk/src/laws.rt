//! What holds of every session. Each law is the contract of a function that does nothing.

ghost use Rattle.std.specs.Prelude.{ℕ, List};
ghost use Rattle.ctl_state.specs.State.{State};
ghost use Rattle.session_text.specs.declared.reader.Reader.{Reader};
ghost use Rattle.session_text.specs.Actions.{Line, actions_of};
ghost use Rattle.session_text.specs.declared.input.Input.{Input};
ghost use Rattle.session_talk.specs.Plain.{IsPlainSession};

use block_frame::{blocks_are_cut_once, nothing_is_partial};
use session_text::blocks_of_calls_are_plain;

/// The answers to lines, and the state behind them, are those of a session of the plain form on the blocks that the
/// lines stand for, from whatever state on.
pub fn plain_sessions_answer_alike()
    ensures { (s : State) (input : Input) (reader : Reader) (number : ℕ) (lines : List Line)
        → IsPlainSession s (actions_of input reader number lines) }
{
    blocks_of_calls_are_plain();
    blocks_are_cut_once();
    nothing_is_partial();
}
