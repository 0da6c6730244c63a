//! What running jobs hold is followed over an entry.

ghost use Rattle.std.specs.Prelude.{◌≡◌, ◌≤◌, ◌<◌, ℕ, true, List, [], IfOk, OnOk, OnErr, Option, Some, map, slice_index, vec_len};
ghost use Rattle.request_data.specs.declared.target.Target.{Target};
ghost use Rattle.ctl_state.specs.Soundness.{IsSound};
ghost use Rattle.ctl_core.specs.Step.{reply_of, state_after};
ghost use Rattle.sacct_book.specs.Keeping.{AllGoOn, TellsHeld};
ghost use Rattle.sacct_book.specs.Naming.{Tells, changed_by, run_by_named};
ghost use Rattle.sacct_book.specs.Requests.{is_still};
ghost use Rattle.sacct_book.specs.Running.{AreCounted, counted};
ghost use Rattle.sacct_book.specs.Times.{times_of};

use crate::naming::{Changed, changed_by, count_named};
use crate::running::{Way, count_running};
use crate::timeline::Timeline;
use crate::timelines::{go_on, make_room};
use ctl_core::controller::Ctl;
use ctl_core::reply::Decided;
use ctl_desk::entry::{Answer, Entry};
use reply_data::reply::Reply;
use request_data::request::Request;
use request_data::target::Target;
use small_texts::memory_error::Memory;
use std::alloc::Global;

// Whether it is a pass that took no job out of Running and started none.
fn is_still(request: &Request, reply: &Reply) -> bool
    ensures { result ≡ is_still request.now reply.now }
{
    match request {
        Request::Pass => match reply {
            Reply::Passed { ended, started, .. } => *ended == 0 && *started == 0,
            _ => false,
        },
        _ => false,
    }
}

// Lets go of what was decided, part by part.
fn let_go(decided: Decided) {
    let Decided { reply, entered, .. } = decided;
    Answer { reply, place: 0 }.let_go();
    if let Some(entered) = entered {
        entered.let_go();
    }
}

// Has the controller decide an entry once more, and tells whether it is a pass that took no job out of Running and
// started none.
fn decide_still(ctl: &mut Ctl, entry: &Entry) -> Result<bool, Memory>
    ensures still { IfOk result (λ still. still ≡ is_still entry.now.request
        (reply_of ctl.old.state entry.now.moment entry.now.user entry.now.request)) }
    ensures after { OnOk result (ctl.new.state
        ≡ state_after ctl.old.state entry.now.moment entry.now.user entry.now.request) }
    ensures sound { IsSound ctl.new.state }
    ensures err { OnErr result (ctl.new ≡ ctl.old) }
{
    let decided = ctl.ask(entry.moment, &entry.user, &entry.request)?;
    let still = is_still(&entry.request, &decided.reply);
    let_go(decided);
    Ok(still)
}

// Has the controller decide an entry once more.
fn decide(ctl: &mut Ctl, entry: &Entry) -> Result<(), Memory>
    ensures after { OnOk result (ctl.new.state
        ≡ state_after ctl.old.state entry.now.moment entry.now.user entry.now.request) }
    ensures sound { IsSound ctl.new.state }
    ensures err { OnErr result (ctl.new ≡ ctl.old) }
{
    let _ = decide_still(ctl, entry)?;
    Ok(())
}

// Has the controller decide an entry once more, and counts what all running jobs hold then.
fn decide_all(ctl: &mut Ctl, held: &mut Vec<u64>, entry: &Entry) -> Result<(), Memory>
    requires counts { AreCounted ctl.old.state.jobs held.old.items }
    ensures len { vec_len held.new ≡ vec_len held.old }
    ensures counts { AreCounted ctl.new.state.jobs held.new.items }
    ensures after { OnOk result (ctl.new.state
        ≡ state_after ctl.old.state entry.now.moment entry.now.user entry.now.request) }
    ensures sound { IsSound ctl.new.state }
    ensures err { OnErr result (ctl.new ≡ ctl.old) }
{
    let still = decide_still(ctl, entry)?;
    if still {
        return Ok(());
    }
    count_running(held, ctl.cluster().jobs.records());
    Ok(())
}

// Counts so many more, or fewer, as the running jobs hold at the controller that the targets name.
fn count_at(held: &mut Vec<u64>, way: Way, ctl: &Ctl, named: &[Target])
    ensures len { vec_len held.new ≡ vec_len held.old }
    ensures each { (at : ℕ) → at < vec_len held.old → slice_index held.new.items at
        ≡ counted way (slice_index held.old.items at) (run_by_named named.now ctl.now.state.jobs at) }
{
    count_named(held, way, &ctl.cluster().jobs, named);
}

// Has the controller decide an entry once more, and counts what those running jobs hold then that are named: no others
// change what they hold.
fn decide_named(
    ctl: &mut Ctl,
    held: &mut Vec<u64>,
    named: &[Target],
    entry: &Entry,
) -> Result<(), Memory>
    requires counts { AreCounted ctl.old.state.jobs held.old.items }
    requires named { changed_by ctl.old.state entry.now.request ≡ Some named.now }
    ensures len { vec_len held.new ≡ vec_len held.old }
    ensures counts { AreCounted ctl.new.state.jobs held.new.items }
    ensures after { OnOk result (ctl.new.state
        ≡ state_after ctl.old.state entry.now.moment entry.now.user entry.now.request) }
    ensures sound { IsSound ctl.new.state }
    ensures err { OnErr result (ctl.new ≡ ctl.old) }
{
    count_at(held, Way::Fewer, ctl, named);
    let decided = decide(ctl, entry);
    count_at(held, Way::More, ctl, named);
    decided
}

// Has the controller decide an entry once more, and counts what running jobs hold then.
fn decide_and_count(
    ctl: &mut Ctl,
    held: &mut Vec<u64>,
    changed: &Changed,
    entry: &Entry,
) -> Result<(), Memory>
    requires counts { AreCounted ctl.old.state.jobs held.old.items }
    requires changed { Tells changed.now (changed_by ctl.old.state entry.now.request) }
    ensures len { vec_len held.new ≡ vec_len held.old }
    ensures counts { AreCounted ctl.new.state.jobs held.new.items }
    ensures after { OnOk result (ctl.new.state
        ≡ state_after ctl.old.state entry.now.moment entry.now.user entry.now.request) }
    ensures sound { IsSound ctl.new.state }
    ensures err { OnErr result (ctl.new ≡ ctl.old) }
{
    match changed {
        Changed::Named(named) => decide_named(ctl, held, named.as_slice(), entry),
        _ => decide_all(ctl, held, entry),
    }
}

// Whether none may change.
fn is_nothing(changed: &Changed) -> bool
    ensures { result ≡ true → (targets : Option (List Target)) → Tells changed.now targets → targets ≡ Some [] }
{
    match changed {
        Changed::Nothing => true,
        _ => false,
    }
}

// Has the controller decide an entry once more, by which these running jobs may change, and the counts and the timelines
// follow it.
fn follow_changed(
    ctl: &mut Ctl,
    timelines: &mut Vec<Timeline>,
    held: &mut Vec<u64>,
    changed: &Changed,
    entry: &Entry,
) -> Result<(), Memory>
    requires changed { Tells changed.now (changed_by ctl.old.state entry.now.request) }
    requires len { vec_len held.old ≡ vec_len timelines.old }
    requires counts { AreCounted ctl.old.state.jobs held.old.items }
    requires tells { TellsHeld ctl.old.state (map times_of timelines.old.items) }
    requires later { ctl.old.state.moment ≤ entry.now.moment }
    ensures len { vec_len held.new ≡ vec_len timelines.new }
    ensures counts { AreCounted ctl.new.state.jobs held.new.items }
    ensures sound { OnOk result (IsSound ctl.new.state) }
    ensures after { OnOk result (ctl.new.state
        ≡ state_after ctl.old.state entry.now.moment entry.now.user entry.now.request) }
    ensures goes { OnOk result (AllGoOn entry.now.moment ctl.new.state.jobs (map times_of timelines.old.items)
        (map times_of timelines.new.items)) }
    ensures ctl_err { OnErr result (ctl.new ≡ ctl.old) }
    ensures times_err { OnErr result (map times_of timelines.new.items ≡ map times_of timelines.old.items) }
{
    if is_nothing(changed) {
        return decide(ctl, entry);
    }
    make_room(timelines)?;
    decide_and_count(ctl, held, changed, entry)?;
    go_on(timelines, held.as_slice(), entry.moment);
    Ok(())
}

/// Has the controller decide an entry once more, and the counts and the timelines follow it.
pub(crate) fn follow(
    alloc: Global,
    ctl: &mut Ctl,
    timelines: &mut Vec<Timeline>,
    held: &mut Vec<u64>,
    entry: &Entry,
) -> Result<(), Memory>
    requires len { vec_len held.old ≡ vec_len timelines.old }
    requires counts { AreCounted ctl.old.state.jobs held.old.items }
    requires tells { TellsHeld ctl.old.state (map times_of timelines.old.items) }
    requires later { ctl.old.state.moment ≤ entry.now.moment }
    ensures len { vec_len held.new ≡ vec_len timelines.new }
    ensures counts { AreCounted ctl.new.state.jobs held.new.items }
    ensures sound { OnOk result (IsSound ctl.new.state) }
    ensures after { OnOk result (ctl.new.state
        ≡ state_after ctl.old.state entry.now.moment entry.now.user entry.now.request) }
    ensures goes { OnOk result (AllGoOn entry.now.moment ctl.new.state.jobs (map times_of timelines.old.items)
        (map times_of timelines.new.items)) }
    ensures ctl_err { OnErr result (ctl.new ≡ ctl.old) }
    ensures times_err { OnErr result (map times_of timelines.new.items ≡ map times_of timelines.old.items) }
{
    let changed = changed_by(alloc, ctl.cluster(), &entry.request)?;
    follow_changed(ctl, timelines, held, &changed, entry)
}
