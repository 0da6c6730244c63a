//! The bars of a node.

ghost use Rattle.std.specs.Prelude.{◌≡◌, ◌++◌, ◌+◌, ◌<◌, ◌≤◌, ◌^◌, OnOk, flat_map, length, option_copied, slice_get};
ghost use Rattle.replay_picture.specs.Bars.{Drawn, bar_text, drawn_of_part, drawn_text, group_begin, has_room, label_text, lane_offset, lanes_behind_part, parts_text, run_rect, run_text, stay_of};
ghost use Rattle.replay_picture.specs.Lanes.{runs};
ghost use Rattle.replay_picture.specs.Shapes.{title_text};

use crate::data::{NodePart, Period, PictureBar};
use crate::lanes::{Lane, Stay, lanes_drawn, take_lanes};
use crate::runs::{LaneRun, runs};
use crate::scale::x_of;
use crate::shapes::{Rect, push_rect, push_title, push_words};
use small_texts::memory_error::Memory;
use small_texts::pieces::{push_labelled, push_text};
use std::alloc::Global;

/// The row of a node: where it begins, how high it is in tenths of a unit, and how many lanes share that.
#[derive(Clone, Copy)]
pub(crate) struct Row {
    pub(crate) top: u32,
    pub(crate) height: u16,
    pub(crate) processors: u32,
}

/// Where a bar stands.
#[tactic(auto, unfolding(crate::specs::Bars::stay_of))]
pub(crate) fn stay_of(period: &Period, bar: &PictureBar) -> Stay
    ensures is { result ≡ stay_of period.now bar.now }
    ensures left { result.left < 2 ^ 60 }
    ensures right { result.right < 2 ^ 60 }
{
    let left = x_of(period, bar.start.get());
    Stay {
        start: bar.start.get(),
        end: bar.end.get(),
        left,
        right: x_of(period, bar.end.get()).max(left + 5),
    }
}

#[tactic(auto, using(crate::proofs::Sizes::lanes_fit, crate::proofs::Sizes::quotient_fits), unfolding(crate::specs::Bars::lane_offset))]
fn lane_offset(row: Row, lane: u64) -> u64
    requires { lane ≤ 2 ^ 32 }
    ensures is { result ≡ lane_offset row lane }
    ensures small { result < 2 ^ 60 }
{
    lane * u64::from(row.height) / u64::from(row.processors).max(1)
}

#[tactic(auto, unfolding(crate::specs::Bars::run_rect))]
fn run_rect(row: Row, stay: Stay, run: LaneRun) -> Rect
    requires left { stay.left < 2 ^ 60 }
    requires right { stay.right < 2 ^ 60 }
    ensures is { result ≡ run_rect row stay run }
    ensures x { result.x < 2 ^ 60 }
    ensures width { result.width < 2 ^ 60 }
    ensures y { result.y < 2 ^ 61 }
    ensures height { result.height < 2 ^ 60 }
{
    let above = lane_offset(row, u64::from(run.first));
    let below = lane_offset(row, u64::from(run.last) + 1);
    Rect {
        x: stay.left,
        y: u64::from(row.top) + above,
        width: stay.right.saturating_sub(stay.left),
        height: below.saturating_sub(above).max(1),
    }
}

fn has_room(rect: Rect, label: &[u8]) -> bool
    ensures { result ≡ has_room rect label.now }
{
    label.len() as u64 <= rect.width.saturating_sub(30) / 60 && rect.height >= 90
}

#[tactic(auto, unfolding(crate::specs::Bars::label_text))]
fn push_label(out: &mut Vec<u8>, rect: Rect, label: &[u8]) -> Result<(), Memory>
    requires x { rect.x < 2 ^ 60 }
    requires width { rect.width < 2 ^ 60 }
    requires y { rect.y < 2 ^ 61 }
    requires height { rect.height < 2 ^ 60 }
    ensures { OnOk result (out.new.items ≡ out.old.items ++ label_text rect label.now) }
{
    if !has_room(rect, label) {
        return Ok(());
    }
    let x = rect.x + rect.width / 2;
    let y = rect.y + rect.height / 2 + 30;
    push_words(out, x, y, label)
}

fn push_run(
    out: &mut Vec<u8>,
    row: Row,
    stay: Stay,
    label: &[u8],
    run: LaneRun,
) -> Result<(), Memory>
    requires left { stay.left < 2 ^ 60 }
    requires right { stay.right < 2 ^ 60 }
    ensures { OnOk result (out.new.items ≡ out.old.items ++ run_text row stay label.now run) }
{
    let rect = run_rect(row, stay, run);
    push_rect(out, rect)?;
    push_label(out, rect, label)
}

fn push_runs(
    out: &mut Vec<u8>,
    row: Row,
    stay: Stay,
    label: &[u8],
    found: &[LaneRun],
) -> Result<(), Memory>
    requires left { stay.left < 2 ^ 60 }
    requires right { stay.right < 2 ^ 60 }
    ensures { OnOk result (out.new.items ≡ out.old.items ++ flat_map (run_text row stay label.now) found.now) }
{
    for run in found {
        push_run(out, row, stay, label, *run)?;
    }
    Ok(())
}

/// Begins what has the colour of a group.
#[tactic(auto, unfolding(crate::specs::Bars::group_begin))]
pub(crate) fn push_group(out: &mut Vec<u8>, group: u32) -> Result<(), Memory>
    ensures { OnOk result (out.new.items ≡ out.old.items ++ group_begin group) }
{
    push_labelled(out, b"<g class='c", u64::from(group.min(11)))?;
    push_text(out, b"'>")
}

// Writes a bar that is drawn in these lanes.
#[tactic(auto, unfolding(crate::specs::Bars::bar_text))]
fn push_bar(
    alloc: Global,
    out: &mut Vec<u8>,
    row: Row,
    period: &Period,
    bar: &PictureBar,
    places: &[u32],
) -> Result<(), Memory>
    ensures { OnOk result (out.new.items
        ≡ out.old.items ++ bar_text row period.now (record { bar = bar.now; places = places.now })) }
{
    let found = runs(alloc, places)?;
    push_group(out, bar.group)?;
    push_title(out, bar.title.as_slice())?;
    push_runs(
        out,
        row,
        stay_of(period, bar),
        bar.label.as_slice(),
        found.as_slice(),
    )?;
    push_text(out, b"</g>\n")
}

// Writes it where there are any.
fn push_drawn(
    alloc: Global,
    out: &mut Vec<u8>,
    row: Row,
    period: &Period,
    bar: &PictureBar,
    places: &[u32],
) -> Result<(), Memory>
    ensures { OnOk result (out.new.items
        ≡ out.old.items ++ drawn_text row period.now (record { bar = bar.now; places = places.now })) }
{
    if places.is_empty() {
        return Ok(());
    }
    push_bar(alloc, out, row, period, bar, places)
}

// The bar at a place, if there is one.
fn bar_at(bars: &[PictureBar], place: usize) -> Option<&PictureBar>
    ensures { option_copied result ≡ slice_get bars.now place }
{
    bars.get(place)
}

// Draws a part of a node.
fn push_part(
    alloc: Global,
    out: &mut Vec<u8>,
    row: Row,
    period: &Period,
    bars: &[PictureBar],
    lanes: &mut [Lane],
    part: NodePart,
) -> Result<(), Memory>
    requires { length lanes.old < 2 ^ 32 }
    ensures text { OnOk result (out.new.items
        ≡ out.old.items ++ flat_map (drawn_text row period.now) (drawn_of_part period.now bars.now lanes.old part)) }
    ensures lanes { OnOk result (lanes.new ≡ lanes_behind_part period.now bars.now lanes.old part) }
{
    let Some(bar) = bar_at(bars, part.bar) else {
        return Ok(());
    };
    let stay = stay_of(period, bar);
    let places = lanes_drawn(alloc, stay, part.processors, lanes)?;
    take_lanes(stay, part.processors, lanes);
    push_drawn(alloc, out, row, period, bar, places.as_slice())
}

/// Draws all parts of a node, in their order. Each costs a walk over the node's lanes.
pub(crate) fn push_parts(
    alloc: Global,
    out: &mut Vec<u8>,
    row: Row,
    period: &Period,
    bars: &[PictureBar],
    lanes: &mut [Lane],
    parts: &[NodePart],
) -> Result<(), Memory>
    requires { length lanes.old < 2 ^ 32 }
    ensures { OnOk result (out.new.items ≡ out.old.items ++ parts_text row period.now bars.now lanes.old parts.now) }
{
    for part in parts {
        push_part(alloc, out, row, period, bars, lanes, *part)?;
    }
    Ok(())
}
