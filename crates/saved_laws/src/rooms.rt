//! How much of the history's room is taken changes no answer.

ghost use Rattle.std.specs.Prelude.{◌≡◌, ◌≢◌, ℕ, List};
ghost use Rattle.request_data.specs.declared.request.Request.{Request};
ghost use Rattle.reply_data.specs.declared.refusal.Refusal.TheVariants.{HistoryFull};
ghost use Rattle.reply_data.specs.declared.reply.Reply.TheVariants.{Refused};
ghost use Rattle.ctl_state.specs.State.{State};
ghost use Rattle.ctl_core.specs.Step.{reply_of, state_after};
ghost use Rattle.saved_laws.specs.Rooms.{IsNoFuller};

/// Where more room is left in the history, a request is answered alike, and the states behind it are the same but for
/// that room, unless it is refused for want of it. A shutdown is no other request here: it leaves both shut down.
pub fn the_room_that_is_left_changes_no_answer()
    ensures reply { (s t : State) (now : ℕ) (user : List ℕ) (request : Request) → IsNoFuller s t
        → reply_of s now user request ≢ Refused HistoryFull
        → reply_of t now user request ≡ reply_of s now user request }
    ensures state { (s t : State) (now : ℕ) (user : List ℕ) (request : Request) → IsNoFuller s t
        → reply_of s now user request ≢ Refused HistoryFull
        → IsNoFuller (state_after s now user request) (state_after t now user request) }
{}
