//! The line of a reservation that scontrol(1) shows.

ghost use Rattle.std.specs.Prelude.{◌≡◌, ◌++◌, OnOk};
ghost use Rattle.table_texts.specs.ShowReservation.{time_pairs, member_pairs, reservation_line};

use crate::columns::push_moment;
use crate::values::{push_hosts_or_null, push_names_or_null, push_pair};
use reply_data::view::ResRow;
use small_texts::memory_error::Memory;
use small_texts::pieces::push_text;
use std::alloc::Global;

/// Writes the line of a reservation. Linear in the text, but for the names of its nodes, which are sorted.
#[tactic(auto, unfolding(crate::specs::ShowReservation::reservation_line))]
pub fn push_reservation_line(alloc: Global, out: &mut Vec<u8>, row: &ResRow) -> Result<(), Memory>
    ensures { OnOk result (out.new.items ≡ out.old.items ++ reservation_line row.now) }
{
    push_time_pairs(out, row)?;
    push_member_pairs(alloc, out, row)?;
    push_text(out, b"\n")
}

#[tactic(auto, unfolding(crate::specs::ShowReservation::time_pairs))]
fn push_time_pairs(out: &mut Vec<u8>, row: &ResRow) -> Result<(), Memory>
    ensures { OnOk result (out.new.items ≡ out.old.items ++ time_pairs row.now) }
{
    push_pair(out, b"ReservationName=", row.name.as_bytes())?;
    push_text(out, b" StartTime=")?;
    push_moment(out, row.start)?;
    push_text(out, b" EndTime=")?;
    push_moment(out, row.end)?;
    Ok(())
}

#[tactic(auto, unfolding(crate::specs::ShowReservation::member_pairs))]
fn push_member_pairs(alloc: Global, out: &mut Vec<u8>, row: &ResRow) -> Result<(), Memory>
    ensures { OnOk result (out.new.items ≡ out.old.items ++ member_pairs row.now) }
{
    push_text(out, b" Nodes=")?;
    push_hosts_or_null(alloc, out, row.nodes.as_slice())?;
    push_text(out, b" Users=")?;
    push_names_or_null(out, row.users.as_slice())?;
    push_text(out, b" Accounts=")?;
    push_names_or_null(out, row.accounts.as_slice())?;
    Ok(())
}
