//! Lines of sums: one for each group of jobs.

ghost use Rattle.std.specs.Prelude.{◌≡◌, ◌++◌, OnOk, flat_map};
ghost use Rattle.replay_texts.specs.Groups.{group_line, groups_text, name_shown, number_cells, slowdown_cells, sums_cells, titles, use_cells};

use crate::cells::{push_hundredths, push_label, push_number_cell, push_permille, push_right};
use replay_report::{GroupSums, Spread, Sums, thousandths};
use small_texts::memory_error::Memory;
use small_texts::name::Name;
use small_texts::pieces::push_text;
use std::alloc::Global;

fn push_numbers(out: &mut Vec<u8>, spread: Option<Spread>) -> Result<(), Memory>
    ensures { OnOk result (out.new.items ≡ out.old.items ++ number_cells spread) }
{
    match spread {
        Some(spread) => {
            push_number_cell(out, spread.mean)?;
            push_number_cell(out, spread.median)?;
            push_number_cell(out, spread.high)
        }
        None => {
            push_right(out, b"-")?;
            push_right(out, b"-")?;
            push_right(out, b"-")
        }
    }
}

fn push_slowdowns(alloc: Global, out: &mut Vec<u8>, spread: Option<Spread>) -> Result<(), Memory>
    ensures { OnOk result (out.new.items ≡ out.old.items ++ slowdown_cells spread) }
{
    match spread {
        Some(spread) => {
            push_hundredths(alloc, out, spread.mean)?;
            push_hundredths(alloc, out, spread.median)?;
            push_hundredths(alloc, out, spread.high)
        }
        None => {
            push_right(out, b"-")?;
            push_right(out, b"-")?;
            push_right(out, b"-")
        }
    }
}

/// Writes processor-seconds, and what share of the capacity they are.
pub(crate) fn push_use(
    alloc: Global,
    out: &mut Vec<u8>,
    capacity: u64,
    used: u64,
) -> Result<(), Memory>
    ensures { OnOk result (out.new.items ≡ out.old.items ++ use_cells capacity used) }
{
    push_number_cell(out, used)?;
    push_permille(alloc, out, thousandths(used, capacity))
}

/// Writes the columns of sums.
#[tactic(auto, unfolding(crate::specs::Groups::sums_cells))]
pub(crate) fn push_sums(
    alloc: Global,
    out: &mut Vec<u8>,
    capacity: u64,
    sums: Sums,
) -> Result<(), Memory>
    ensures { OnOk result (out.new.items ≡ out.old.items ++ sums_cells capacity sums) }
{
    push_number_cell(out, sums.jobs)?;
    push_number_cell(out, sums.ran)?;
    push_numbers(out, sums.wait)?;
    push_slowdowns(alloc, out, sums.slowdown)?;
    push_use(alloc, out, capacity, sums.used)?;
    push_text(out, b"\n")?;
    Ok(())
}

fn name_shown(name: &Option<Name>) -> &[u8]
    ensures { result.now ≡ name_shown name.now }
{
    match name {
        Some(name) => name.as_bytes(),
        None => b"(none)",
    }
}

#[tactic(auto, unfolding(crate::specs::Groups::group_line))]
fn push_group(
    alloc: Global,
    out: &mut Vec<u8>,
    capacity: u64,
    group: &GroupSums,
) -> Result<(), Memory>
    ensures { OnOk result (out.new.items ≡ out.old.items ++ group_line capacity group.now) }
{
    push_label(out, name_shown(&group.name))?;
    push_sums(alloc, out, capacity, group.sums)
}

fn push_lines(
    alloc: Global,
    out: &mut Vec<u8>,
    capacity: u64,
    groups: &[GroupSums],
) -> Result<(), Memory>
    ensures { OnOk result (out.new.items ≡ out.old.items ++ flat_map (group_line capacity) groups.now) }
{
    for group in groups {
        push_group(alloc, out, capacity, group)?;
    }
    Ok(())
}

/// Writes the titles of the columns of sums.
#[tactic(auto, unfolding(crate::specs::Groups::titles))]
pub(crate) fn push_titles(out: &mut Vec<u8>, title: &[u8]) -> Result<(), Memory>
    ensures { OnOk result (out.new.items ≡ out.old.items ++ titles title.now) }
{
    push_label(out, title)?;
    push_text(
        out,
        b"         JOBS          RAN    WAIT_MEAN  WAIT_MEDIAN    WAIT_95TH    SLOW_MEAN  SLOW_MEDIAN    SLOW_95TH  CPU_SECONDS          USE\n",
    )
}

/// Writes a line for each group below their titles, and an empty line above them.
#[tactic(auto, unfolding(crate::specs::Groups::groups_text))]
pub(crate) fn push_groups(
    alloc: Global,
    out: &mut Vec<u8>,
    title: &[u8],
    capacity: u64,
    groups: &[GroupSums],
) -> Result<(), Memory>
    ensures { OnOk result (out.new.items ≡ out.old.items ++ groups_text title.now capacity groups.now) }
{
    push_text(out, b"\n")?;
    push_titles(out, title)?;
    push_lines(alloc, out, capacity, groups)?;
    Ok(())
}
