//! What holds of every history. Each law is the contract of a function that does nothing.

ghost use Rattle.std.specs.Prelude.{◌≡◌, ◌++◌, ℕ, List, take, true};
ghost use Rattle.request_data.specs.declared.request.Request.{Request};
ghost use Rattle.ctl_core.specs.Step.{reply_of, state_after};
ghost use Rattle.ctl_desk.specs.declared.entry.Answer.{Answer};
ghost use Rattle.ctl_desk.specs.Desk.{GoesOn, IsAnswered, Seat, history_of, sight_of, state_of};
ghost use Rattle.ctl_state.specs.State.{State};
ghost use Rattle.ctl_desk.specs.declared.entry.Entry.{Entry};
ghost use Rattle.ctl_desk.specs.History.{IsHistory, IsLegal, after_all};

use ctl_core::laws::raised_moments_decide_alike;

/// The first entries of a legal history, how many ever, are a legal one.
pub fn a_legal_history_begins_legally()
    ensures { (s : State) (entries : List Entry) (n : ℕ) → IsLegal s entries → IsLegal s (take n entries) }
{}

/// A controller that was shut down stays so, whatever entries come.
pub fn what_is_shut_stays_shut()
    ensures { (opening : State) (entries more : List Entry) → (after_all opening entries).is_shut ≡ true
        → (after_all opening (entries ++ more)).is_shut ≡ true }
{}

/// What is asked where nobody else's entries come is answered from the state there, and leaves the state behind it.
pub fn answers_follow_at_a_desk_of_its_own()
    ensures { (old new : Seat) (now : ℕ) (user : List ℕ) (request : Request) (answer : Answer)
        → IsHistory (history_of (sight_of old))
        → GoesOn (sight_of old) (sight_of new)
        → IsAnswered (sight_of old) (sight_of new) now user request answer
        → (answer.reply ≡ reply_of (state_of old) now user request)
        × (state_of new ≡ state_after (state_of old) now user request) }
{
    raised_moments_decide_alike();
}
