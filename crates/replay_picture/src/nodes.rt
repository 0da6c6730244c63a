//! The rows of the nodes.

ghost use Rattle.std.specs.Prelude.{◌≡◌, ◌++◌, ◌+◌, ◌-◌, ◌*◌, ◌<◌, ◌≤◌, ◌^◌, OnOk, flat_map, length};
ghost use Rattle.replay_picture.specs.Nodes.{ground_text, name_text, node_text, nodes_text, shade_text, shades_text};
ghost use Rattle.replay_picture.specs.Scale.{bar_height};

use crate::bars::{Row, push_parts};
use crate::data::{Period, PictureBar, PictureNode, Shade};
use crate::lanes::free_lanes;
use crate::scale::{PLOT_LEFT, PLOT_WIDTH, x_of};
use crate::shapes::{Rect, push_rect, push_title, push_words};
use small_texts::memory_error::Memory;
use small_texts::pieces::push_text;
use std::alloc::Global;

// The ground of a row, over all the time.
#[tactic(auto, unfolding(crate::specs::Nodes::ground_text, crate::specs::Scale::plot_left, crate::specs::Scale::plot_width))]
fn push_ground(out: &mut Vec<u8>, row: Row, name: &[u8]) -> Result<(), Memory>
    ensures { OnOk result (out.new.items ≡ out.old.items ++ ground_text row name.now) }
{
    push_text(out, b"<g class='r'>")?;
    push_title(out, name)?;
    push_rect(
        out,
        Rect {
            x: PLOT_LEFT,
            y: u64::from(row.top),
            width: PLOT_WIDTH,
            height: u64::from(row.height),
        },
    )?;
    push_text(out, b"</g>\n")?;
    Ok(())
}

fn push_shade(out: &mut Vec<u8>, row: Row, period: &Period, shade: &Shade) -> Result<(), Memory>
    ensures { OnOk result (out.new.items ≡ out.old.items ++ shade_text row period.now shade.now) }
{
    let from = x_of(period, shade.from.get());
    push_rect(
        out,
        Rect {
            x: from,
            y: u64::from(row.top),
            width: x_of(period, shade.until.get()).saturating_sub(from),
            height: u64::from(row.height),
        },
    )
}

fn push_all_shades(
    out: &mut Vec<u8>,
    row: Row,
    period: &Period,
    shades: &[Shade],
) -> Result<(), Memory>
    ensures { OnOk result (out.new.items ≡ out.old.items ++ flat_map (shade_text row period.now) shades.now) }
{
    for shade in shades {
        push_shade(out, row, period, shade)?;
    }
    Ok(())
}

#[tactic(auto, unfolding(crate::specs::Nodes::shades_text))]
fn push_shades(out: &mut Vec<u8>, row: Row, period: &Period, shades: &[Shade]) -> Result<(), Memory>
    ensures { OnOk result (out.new.items ≡ out.old.items ++ shades_text row period.now shades.now) }
{
    push_text(out, b"<g class='s'>")?;
    push_all_shades(out, row, period, shades)?;
    push_text(out, b"</g>\n")
}

// The name left of a row, where the row is high enough.
#[tactic(auto, unfolding(crate::specs::Nodes::name_text, crate::specs::Scale::plot_left))]
fn push_name(out: &mut Vec<u8>, row: Row, name: &[u8]) -> Result<(), Memory>
    ensures { OnOk result (out.new.items ≡ out.old.items ++ name_text row name.now) }
{
    if row.height < 70 {
        return Ok(());
    }
    push_text(out, b"<g class='n'>")?;
    push_words(
        out,
        PLOT_LEFT - 40,
        u64::from(row.top) + u64::from(row.height) / 2 + 40,
        name,
    )?;
    push_text(out, b"</g>\n")?;
    Ok(())
}

#[tactic(auto, unfolding(crate::specs::Nodes::node_text))]
fn push_node(
    alloc: Global,
    out: &mut Vec<u8>,
    row: Row,
    period: &Period,
    bars: &[PictureBar],
    node: &PictureNode,
) -> Result<(), Memory>
    requires { row.processors ≡ node.now.processors }
    ensures { OnOk result (out.new.items ≡ out.old.items ++ node_text row period.now bars.now node.now) }
{
    let mut lanes = free_lanes(alloc, node.processors)?;
    push_ground(out, row, node.name.as_slice())?;
    push_shades(out, row, period, node.shades.as_slice())?;
    push_parts(
        alloc,
        out,
        row,
        period,
        bars,
        lanes.as_mut_slice(),
        node.parts.as_slice(),
    )?;
    push_name(out, row, node.name.as_slice())
}

/// Writes the rows of nodes, each so high, below one another.
pub(crate) fn push_nodes(
    alloc: Global,
    out: &mut Vec<u8>,
    period: &Period,
    bars: &[PictureBar],
    height: u16,
    top: u32,
    nodes: &[PictureNode],
) -> Result<(), Memory>
    requires height { (20 ≤ height) × (height ≤ 400) }
    requires room { top + 400 * length nodes.now < 2 ^ 32 }
    ensures { OnOk result (out.new.items ≡ out.old.items ++ nodes_text period.now bars.now height top nodes.now) }
{
    let mut top = top;
    for node in nodes {
        let row = Row {
            top,
            height: height - 10,
            processors: node.processors,
        };
        push_node(alloc, out, row, period, bars, node)?;
        top += u32::from(height);
    }
    Ok(())
}
