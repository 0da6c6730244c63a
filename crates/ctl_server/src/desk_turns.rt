//! Requests worked by who has the turn at the book.

ghost use Rattle.std.specs.Prelude.{◌≡◌, ◌<◌, ◌^◌, IfSome, length};
ghost use Rattle.request_data.specs.declared.request.Request.TheVariants.{Pass};
ghost use Rattle.resource_profile.specs.Counts.{IsTickedUpTo};
ghost use Rattle.ctl_core.specs.Step.{IsHinted, steps_of};
ghost use Rattle.ctl_desk.specs.History.{history_in, present};
ghost use Rattle.ctl_server.specs.Locked.{IsWorked};

use backfill_planner::Planned;
use ctl_desk::book::Book;
use ctl_desk::entry::Answer;
use request_data::request::Request;
use resource_profile::{Plain, Steps};
use small_texts::memory_error::Memory;
use small_texts::name::Name;

/// How many entries a lock's value may have, less one (own). No history comes near it.
const MOST_ENTRIES: u64 = 4_611_686_018_427_387_903;

/// Asks the book for a session, where a further entry has room.
pub fn ask_book(
    book: &mut Book,
    session: u32,
    now: u64,
    user: &Name,
    request: Request,
) -> Result<Answer, Memory>
    requires { length book.old.entries < 2 ^ 62 }
    ensures worked { IsWorked session book.old book.new now user.now request result }
    ensures short { length book.new.entries < 2 ^ 62 }
{
    if book.len() >= MOST_ENTRIES {
        request.let_go();
        return Err(Memory);
    }
    book.ask(session, now, user, request)
}

// Lets go of a plan that isn't used.
fn drop_hint(_hint: Option<Planned>) {}

/// Makes a pass at the book for a session, where a further entry has room.
pub fn pass_book(
    book: &mut Book,
    session: u32,
    now: u64,
    user: &Name,
    hint: Option<Planned>,
    steps: &mut Steps<Plain>,
) -> Result<Answer, Memory>
    requires { length book.old.entries < 2 ^ 62 }
    ensures worked { IsWorked session book.old book.new now user.now Pass result }
    ensures short { length book.new.entries < 2 ^ 62 }
    ensures steps { IsTickedUpTo (steps_of (present (history_in book.old)) now user.now) steps.old steps.new }
    ensures over { IfSome hint (λ hint. IsHinted hint (present (history_in book.old)) now steps.old steps.new) }
{
    if book.len() >= MOST_ENTRIES {
        drop_hint(hint);
        return Err(Memory);
    }
    book.pass(session, now, user, hint, steps)
}
