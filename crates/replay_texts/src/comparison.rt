//! Two replays of one trace, side by side.

ghost use Rattle.std.specs.Prelude.{◌≡◌, ◌++◌, OnOk, flat_map};
ghost use Rattle.replay_texts.specs.Comparisons.{change_line, changes_text, comparison_text, count_rows, high_in, hundredths_cell, hundredths_row, known_cell, known_row, mean_in, median_in, row, share_of, share_row, slowdown_rows, use_rows, wait_rows};

use crate::cells::{push_hundredths, push_label, push_number_cell, push_permille, push_right};
use crate::summary::{Worked, capacity_of, seconds_of};
use crate::values::push_id;
use replay_report::{Change, Counts, Spread, thousandths};
use small_texts::memory_error::Memory;
use small_texts::pieces::push_text;
use std::alloc::Global;

fn push_row(out: &mut Vec<u8>, title: &[u8], before: u64, after: u64) -> Result<(), Memory>
    ensures { OnOk result (out.new.items ≡ out.old.items ++ row title.now before after) }
{
    push_label(out, title)?;
    push_number_cell(out, before)?;
    push_number_cell(out, after)?;
    push_text(out, b"\n")
}

fn push_known_cell(out: &mut Vec<u8>, number: Option<u64>) -> Result<(), Memory>
    ensures { OnOk result (out.new.items ≡ out.old.items ++ known_cell number) }
{
    match number {
        Some(number) => push_number_cell(out, number),
        None => push_right(out, b"-"),
    }
}

fn push_known_row(
    out: &mut Vec<u8>,
    title: &[u8],
    before: Option<u64>,
    after: Option<u64>,
) -> Result<(), Memory>
    ensures { OnOk result (out.new.items ≡ out.old.items ++ known_row title.now before after) }
{
    push_label(out, title)?;
    push_known_cell(out, before)?;
    push_known_cell(out, after)?;
    push_text(out, b"\n")
}

fn push_hundredths_cell(alloc: Global, out: &mut Vec<u8>, number: Option<u64>) -> Result<(), Memory>
    ensures { OnOk result (out.new.items ≡ out.old.items ++ hundredths_cell number) }
{
    match number {
        Some(number) => push_hundredths(alloc, out, number),
        None => push_right(out, b"-"),
    }
}

fn push_hundredths_row(
    alloc: Global,
    out: &mut Vec<u8>,
    title: &[u8],
    before: Option<u64>,
    after: Option<u64>,
) -> Result<(), Memory>
    ensures { OnOk result (out.new.items ≡ out.old.items ++ hundredths_row title.now before after) }
{
    push_label(out, title)?;
    push_hundredths_cell(alloc, out, before)?;
    push_hundredths_cell(alloc, out, after)?;
    push_text(out, b"\n")
}

fn push_share_row(
    alloc: Global,
    out: &mut Vec<u8>,
    title: &[u8],
    before: u64,
    after: u64,
) -> Result<(), Memory>
    ensures { OnOk result (out.new.items ≡ out.old.items ++ share_row title.now before after) }
{
    push_label(out, title)?;
    push_permille(alloc, out, before)?;
    push_permille(alloc, out, after)?;
    push_text(out, b"\n")
}

#[tactic(auto, unfolding(crate::specs::Comparisons::count_rows))]
fn push_counts(out: &mut Vec<u8>, before: Counts, after: Counts) -> Result<(), Memory>
    ensures { OnOk result (out.new.items ≡ out.old.items ++ count_rows before after) }
{
    push_row(out, b"ran", before.ran, after.ran)?;
    push_row(out, b"waiting", before.waits, after.waits)?;
    push_row(out, b"forgotten", before.forgotten, after.forgotten)?;
    push_row(out, b"refused", before.refused, after.refused)?;
    push_row(out, b"left out", before.left_out, after.left_out)?;
    Ok(())
}

fn mean_in(spread: Option<Spread>) -> Option<u64>
    ensures { result ≡ mean_in spread }
{
    spread.map(|one| one.mean)
}

fn median_in(spread: Option<Spread>) -> Option<u64>
    ensures { result ≡ median_in spread }
{
    spread.map(|one| one.median)
}

fn high_in(spread: Option<Spread>) -> Option<u64>
    ensures { result ≡ high_in spread }
{
    spread.map(|one| one.high)
}

#[tactic(auto, unfolding(crate::specs::Comparisons::wait_rows))]
fn push_waits(
    out: &mut Vec<u8>,
    before: Option<Spread>,
    after: Option<Spread>,
) -> Result<(), Memory>
    ensures { OnOk result (out.new.items ≡ out.old.items ++ wait_rows before after) }
{
    push_known_row(out, b"wait mean", mean_in(before), mean_in(after))?;
    push_known_row(out, b"wait median", median_in(before), median_in(after))?;
    push_known_row(out, b"wait 95th", high_in(before), high_in(after))?;
    Ok(())
}

fn push_slowdowns(
    alloc: Global,
    out: &mut Vec<u8>,
    before: Option<Spread>,
    after: Option<Spread>,
) -> Result<(), Memory>
    ensures { OnOk result (out.new.items ≡ out.old.items ++ slowdown_rows before after) }
{
    push_hundredths_row(
        alloc,
        out,
        b"slowdown mean",
        mean_in(before),
        mean_in(after),
    )?;
    push_hundredths_row(
        alloc,
        out,
        b"slowdown median",
        median_in(before),
        median_in(after),
    )?;
    push_hundredths_row(
        alloc,
        out,
        b"slowdown 95th",
        high_in(before),
        high_in(after),
    )?;
    Ok(())
}

// The share of its cluster's processors that a replay used.
fn share_of(worked: &Worked) -> u64
    ensures { result ≡ share_of worked.now }
{
    let seconds = seconds_of(worked.summary.reach);
    thousandths(
        worked.summary.sums.used,
        capacity_of(worked.processors, seconds),
    )
}

#[tactic(auto, unfolding(crate::specs::Comparisons::use_rows))]
fn push_uses(
    alloc: Global,
    out: &mut Vec<u8>,
    before: &Worked,
    after: &Worked,
) -> Result<(), Memory>
    ensures { OnOk result (out.new.items ≡ out.old.items ++ use_rows before.now after.now) }
{
    let (seconds, later_seconds) = (
        seconds_of(before.summary.reach),
        seconds_of(after.summary.reach),
    );
    push_row(out, b"seconds", seconds, later_seconds)?;
    push_row(out, b"processors", before.processors, after.processors)?;
    push_row(out, b"passes", before.passes, after.passes)?;
    push_row(
        out,
        b"cpu seconds",
        before.summary.sums.used,
        after.summary.sums.used,
    )?;
    push_share_row(alloc, out, b"use", share_of(before), share_of(after))?;
    Ok(())
}

#[tactic(auto, unfolding(crate::specs::Comparisons::change_line))]
fn push_change(out: &mut Vec<u8>, change: &Change) -> Result<(), Memory>
    ensures { OnOk result (out.new.items ≡ out.old.items ++ change_line change.now) }
{
    push_number_cell(out, change.before.wait)?;
    push_number_cell(out, change.after.wait)?;
    push_number_cell(out, change.before.start)?;
    push_number_cell(out, change.after.start)?;
    push_text(out, b" ")?;
    push_id(out, change.id)?;
    push_text(out, b"\n")?;
    Ok(())
}

fn push_change_lines(out: &mut Vec<u8>, changes: &[Change]) -> Result<(), Memory>
    ensures { OnOk result (out.new.items ≡ out.old.items ++ flat_map change_line changes.now) }
{
    for change in changes {
        push_change(out, change)?;
    }
    Ok(())
}

// Writes jobs below a title, and an empty line above it.
#[tactic(auto, unfolding(crate::specs::Comparisons::changes_text))]
fn push_changes(out: &mut Vec<u8>, title: &[u8], changes: &[Change]) -> Result<(), Memory>
    ensures { OnOk result (out.new.items ≡ out.old.items ++ changes_text title.now changes.now) }
{
    push_text(out, b"\n")?;
    push_text(out, title)?;
    push_text(
        out,
        b"\n  WAIT_BEFORE   WAIT_AFTER START_BEFORE  START_AFTER JOB\n",
    )?;
    push_change_lines(out, changes)?;
    Ok(())
}

/// Writes the sums of two replays of one trace side by side, and below them the jobs that wait less in the second, and those
/// that wait more, in the order that is given.
#[tactic(auto, unfolding(crate::specs::Comparisons::comparison_text))]
pub fn push_comparison(
    alloc: Global,
    out: &mut Vec<u8>,
    before: &Worked,
    after: &Worked,
    less: &[Change],
    more: &[Change],
) -> Result<(), Memory>
    ensures { OnOk result (out.new.items ≡ out.old.items ++ comparison_text before.now after.now less.now more.now) }
{
    push_text(out, b"                           BEFORE        AFTER\n")?;
    push_counts(out, before.summary.counts, after.summary.counts)?;
    push_waits(out, before.summary.sums.wait, after.summary.sums.wait)?;
    push_slowdowns(
        alloc,
        out,
        before.summary.sums.slowdown,
        after.summary.sums.slowdown,
    )?;
    push_uses(alloc, out, before, after)?;
    push_changes(out, b"Jobs that wait less", less)?;
    push_changes(out, b"Jobs that wait more", more)?;
    Ok(())
}
