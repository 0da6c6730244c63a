//! What holds of every submission. A law is the contract of a function that does nothing but call the laws it rests on.

ghost use Rattle.std.specs.Prelude.{◌≡◌, ◌≢◌, ℕ, ◌≤◌, List, IfSome, None};
ghost use Rattle.plain_data.specs.declared.job.JobDesc.{JobDesc};
ghost use Rattle.reply_data.specs.declared.reply.Reply.{Reply};
ghost use Rattle.ctl_state.specs.State.{State, last_moment};
ghost use Rattle.ctl_state.specs.Soundness.{IsSound, IsAsked, IsLimit};
ghost use Rattle.ctl_state.specs.Refusals.{first_refusal};
ghost use Rattle.ctl_state.specs.Verdicts.{Makes, stamped};
ghost use Rattle.ctl_jobs.specs.Submission.{submit_refusals, submit_made};

use ctl_state::laws::added_jobs_keep_all_sound;
use run_limits::account_laws::what_is_meant_is_there;

/// An accepted submission keeps all sound.
pub fn a_submission_keeps_all_sound()
    ensures { (s after : State) (now : ℕ) (user : List ℕ) (desc : JobDesc) (reply : Reply)
        → IsSound s → s.moment ≤ now → now ≤ last_moment → IsAsked desc → IfSome desc.limit IsLimit
        → first_refusal (submit_refusals s now user desc) ≡ None → submit_made s now user desc ≡ Makes reply after
        → IsSound (stamped now after) }
{
    added_jobs_keep_all_sound();
    what_is_meant_is_there();
}

/// An accepted submission makes another state, since it makes a job at least, or keeps an index list.
pub fn a_submission_changes_the_state()
    ensures { (s after : State) (now : ℕ) (user : List ℕ) (desc : JobDesc) (reply : Reply)
        → submit_made s now user desc ≡ Makes reply after → after ≢ s }
{}
