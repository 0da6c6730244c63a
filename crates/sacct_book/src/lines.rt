//! The lines of accounting.

ghost use Rattle.std.specs.Prelude.{◌≡◌, ◌≤◌, ◌<◌, ◌++◌, IfOk, OnOk, length};
ghost use Rattle.ctl_state.specs.State.{last_moment};
ghost use Rattle.ctl_desk.specs.History.{present};
ghost use Rattle.sacct_book.specs.Lines as spec;

use crate::sums::Sums;
use run_limits::record::AssocRecord;
use small_texts::memory_error::Memory;
use small_texts::pieces::{push_number, push_text};
use std::alloc::Global;

// Writes the line of a user's association: its account, its user, and what was used.
fn push_line(out: &mut Vec<u8>, account: &[u8], user: &[u8], seconds: u64) -> Result<(), Memory>
    ensures { OnOk result (out.new.items ≡ out.old.items ++ spec.line account.now user.now seconds) }
{
    push_text(out, account)?;
    push_text(out, b" ")?;
    push_text(out, user)?;
    push_text(out, b" ")?;
    push_number(out, seconds)?;
    push_text(out, b"\n")?;
    Ok(())
}

// Writes the line of the association at a place, where it is a user's and has used something.
fn push_used(
    out: &mut Vec<u8>,
    sums: &Sums,
    place: u32,
    from: u64,
    until: u64,
    now: u64,
) -> Result<(), Memory>
    requires there { place < length sums.now.opening.assocs }
    requires after { (present sums.now).moment ≤ now }
    requires last { now ≤ last_moment }
    ensures { OnOk result (out.new.items ≡ out.old.items
        ++ spec.line_at sums.now (record { from = from; until = until }) now place) }
{
    let assocs = sums.assocs();
    let assoc = &assocs.records()[place as usize];
    let seconds = sums.used_at(place, from, until, now);
    if !assoc.conf.user || seconds == 0 {
        return Ok(());
    }
    push_line(
        out,
        assocs.account(assoc),
        assoc.conf.name.as_bytes(),
        seconds,
    )
}

/// The lines of accounting: for each association of a user, in their order, which has used something from a second on and
/// before another, `ACCOUNT USER SECONDS`, in seconds of one processor; what runs is counted until now (own). Linear in
/// the associations and their stretches.
pub fn lines(alloc: Global, sums: &Sums, from: u64, until: u64, now: u64) -> Result<Vec<u8>, Memory>
    requires after { (present sums.now).moment ≤ now }
    requires last { now ≤ last_moment }
    ensures { IfOk result (λ text. text.items ≡ spec.lines sums.now (record { from = from; until = until }) now) }
{
    let count = sums.assocs().records().len() as u32;
    let mut out = Vec::new(alloc);
    for place in 0..count {
        push_used(&mut out, sums, place, from, until, now)?;
    }
    Ok(out)
}
