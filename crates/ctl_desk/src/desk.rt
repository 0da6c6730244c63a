//! What a session asks at.

ghost use Rattle.std.specs.Prelude.{◌≡◌, length, IfOk, IfSome, OnErr};
ghost use Rattle.request_data.specs.declared.request.Request.TheVariants.{Pass};
ghost use Rattle.resource_profile.specs.Counts.{IsTickedUpTo};
ghost use Rattle.ctl_core.specs.Step.{IsHinted, input_at, steps_of};
ghost use Rattle.ctl_desk.specs.Desk.{Sight, GoesOn, IsAnswered, seen, history_of, state_at};
ghost use Rattle.ctl_desk.specs.History.{IsHistory, present};

use crate::entry::Answer;
use backfill_planner::Planned;
use ctl_pass::PlanInput;
use request_data::request::Request;
use resource_profile::{Plain, Steps};
use small_texts::memory_error::Memory;
use small_texts::name::Name;

/// Where one session asks the controller. The history may have entries of other sessions, and more of them at each
/// call.
pub trait Desk {
    /// The desk as it last looked at the history.
    ghost sight: { Self → Sight };

    /// Asks for a user at a moment. After want of memory nothing of this request is entered.
    fn ask(&mut self, now: u64, user: &Name, request: Request) -> Result<Answer, Memory>
        ensures goes_on { GoesOn (sight self.old) (sight self.new) }
        ensures answered { IfOk result (λ answer.
            IsAnswered (sight self.old) (sight self.new) now user.now request answer) }
        ensures err { OnErr result ((sight self.new).mine ≡ (sight self.old).mine) };

    /// Makes a pass for a user at a moment, whatever plan is at hand. It counts at most a step for each job that it plans:
    /// where it is answered, at its place; and over a hint none for those which stand as they stood in it. After want of
    /// memory nothing of it is entered, and these are the jobs that it would plan after all that the desk has seen.
    fn pass(
        &mut self,
        now: u64,
        user: &Name,
        hint: Option<Planned>,
        steps: &mut Steps<Plain>,
    ) -> Result<Answer, Memory>
        ensures goes_on { GoesOn (sight self.old) (sight self.new) }
        ensures answered { IfOk result (λ answer.
            IsAnswered (sight self.old) (sight self.new) now user.now Pass answer) }
        ensures err { OnErr result ((sight self.new).mine ≡ (sight self.old).mine) }
        ensures steps { IfOk result (λ answer. IsTickedUpTo
            (steps_of (state_at (sight self.old).opening (seen (sight self.new)) answer.place) now user.now)
            steps.old steps.new) }
        ensures steps_err { OnErr result (IsTickedUpTo
            (steps_of (present (history_of (sight self.new))) now user.now) steps.old steps.new) }
        ensures over { IfOk result (λ answer. IfSome hint (λ hint.
            IsHinted hint (state_at (sight self.old).opening (seen (sight self.new)) answer.place) now
            steps.old steps.new)) }
        ensures over_err { OnErr result (IfSome hint (λ hint.
            IsHinted hint (present (history_of (sight self.new))) now steps.old steps.new)) };

    /// What a pass by a privileged user at a moment would make its plan of, after all that the desk has seen then. A copy
    /// of the plan that the controller keeps goes with it: a plan made over that searches for little. It costs what a
    /// pass costs before its plan, beside the copy.
    fn input(&mut self, now: u64) -> Result<PlanInput, Memory>
        ensures goes_on { GoesOn (sight self.old) (sight self.new) }
        ensures mine { (sight self.new).mine ≡ (sight self.old).mine }
        ensures input { IfOk result (λ input. input.parts ≡ input_at (present (history_of (sight self.new))) now) };

    /// How many entries the desk has seen.
    fn seen_len(&self) -> u64
        ensures len { result ≡ length (seen (sight self.now)) }
        ensures history { IsHistory (history_of (sight self.now)) };

    /// Whether a shutdown was accepted, as far as the desk has seen. It takes no memory.
    fn shut(&self) -> bool
        ensures { result ≡ (present (history_of (sight self.now))).is_shut };

    /// Looks at the history anew, and tells whether a shutdown was accepted.
    fn refresh(&mut self) -> bool
        ensures goes_on { GoesOn (sight self.old) (sight self.new) }
        ensures mine { (sight self.new).mine ≡ (sight self.old).mine }
        ensures shut { result ≡ (present (history_of (sight self.new))).is_shut };
}
