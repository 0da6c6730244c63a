//! Going on where another left off.

ghost use Rattle.std.specs.Prelude.{◌≡◌, ℕ, List, ◌++◌};
ghost use Rattle.command_words.specs.declared.header.Meaning.{Meaning};
ghost use Rattle.ctl_state.specs.State.{State};
ghost use Rattle.ctl_session.specs.Meaning.{status_told};
ghost use Rattle.saved_laws.specs.Rooms.{IsNoFuller};
ghost use Rattle.saved_laws.specs.Scripts.{HasRoom, HaveRoom};
ghost use Rattle.script_run.specs.Script.{state_behind_all, told_all};

/// What is asked in two parts is told what it is told at once: first the one part, and then the other, from the state
/// behind the first one on.
pub fn a_script_goes_on_where_it_left_off()
    ensures told { (s : State) (first next : List Meaning)
        → told_all s (first ++ next) ≡ told_all s first ++ told_all (state_behind_all s first) next }
    ensures behind { (s : State) (first next : List Meaning)
        → state_behind_all s (first ++ next) ≡ state_behind_all (state_behind_all s first) next }
{}

/// A controller in whose history more room is left goes on alike: a script is told the same, each of it with the same
/// status, and the states behind it are the same but for that room, unless some of it is refused for want of it.
pub fn scripts_are_told_alike_with_more_room()
    ensures status { (s t : State) (meaning : Meaning) → IsNoFuller s t → HasRoom s meaning
        → status_told t meaning ≡ status_told s meaning }
    ensures told { (s t : State) (script : List Meaning) → IsNoFuller s t → HaveRoom s script
        → told_all t script ≡ told_all s script }
    ensures behind { (s t : State) (script : List Meaning) → IsNoFuller s t → HaveRoom s script
        → IsNoFuller (state_behind_all s script) (state_behind_all t script) }
{}
