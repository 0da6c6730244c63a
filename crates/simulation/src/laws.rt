//! What holds of a desk that nobody else asks. The law is the contract of a function that does nothing.

ghost use Rattle.std.specs.Prelude.{◌≡◌, ℕ, List};
ghost use Rattle.request_data.specs.declared.request.Request.{Request};
ghost use Rattle.ctl_core.specs.Step.{reply_of, state_after};
ghost use Rattle.ctl_desk.specs.declared.entry.Answer.{Answer};
ghost use Rattle.ctl_desk.specs.Desk.{GoesOn, IsAnswered, Sight, history_of};
ghost use Rattle.ctl_desk.specs.History.{IsHistory};
ghost use Rattle.simulation.specs.Run.{IfAlone};

use ctl_core::laws::raised_moments_decide_alike;

/// What is asked at any desk to which nobody else's entries come is answered from the state there, and leaves the state
/// behind it.
pub(crate) fn answers_follow_alone()
    ensures { (desk desk' : Sight) (now : ℕ) (user : List ℕ) (request : Request) (answer : Answer)
        → IsHistory (history_of desk)
        → GoesOn desk desk'
        → IsAnswered desk desk' now user request answer
        → IfAlone (λ s s'. (answer.reply ≡ reply_of s now user request) × (s' ≡ state_after s now user request))
        desk desk' }
{
    raised_moments_decide_alike();
}
