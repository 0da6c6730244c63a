//! The text of a picture.

ghost use Rattle.std.specs.Prelude.{◌≡◌, ◌++◌, ◌≤◌, IfOk, OnOk, length, take};
ghost use Rattle.replay_picture.specs.Picture.{head_text, picture_text, style};
ghost use Rattle.replay_picture.specs.Scale.{most_nodes};

use crate::axis::push_axis;
use crate::data::{Picture, PictureNode};
use crate::legend::push_legend;
use crate::nodes::push_nodes;
use crate::scale::{MOST_NODES, ROWS_TOP, picture_height, row_height};
use crate::waiting::push_waiting;
use small_texts::memory_error::Memory;
use small_texts::pieces::{push_labelled, push_text};
use std::alloc::Global;

#[tactic(auto, unfolding(crate::specs::Picture::style))]
fn push_style(out: &mut Vec<u8>) -> Result<(), Memory>
    ensures { OnOk result (out.new.items ≡ out.old.items ++ style) }
{
    push_text(
        out,
        b"<style>text{font-family:sans-serif;font-size:110px;fill:#222}g rect{stroke:#fff;stroke-width:2}",
    )?;
    push_text(
        out,
        b".r rect{fill:#eee;stroke:none}.s rect{fill:#bbb;stroke:none}.n text{text-anchor:end}",
    )?;
    push_text(
        out,
        b".a text{text-anchor:middle;font-size:100px}.a path{stroke:#222;stroke-opacity:.25;stroke-width:6}",
    )?;
    push_text(out, b".w{fill:#ccd6e4;stroke:#345;stroke-width:8}")?;
    push_text(
        out,
        b".c0{fill:#4e79a7}.c1{fill:#f28e2b}.c2{fill:#59a14f}.c3{fill:#e15759}.c4{fill:#76b7b2}.c5{fill:#edc948}",
    )?;
    push_text(
        out,
        b".c6{fill:#b07aa1}.c7{fill:#ff9da7}.c8{fill:#9c755f}.c9{fill:#86bcb6}.c10{fill:#d37295}.c11{fill:#8a8a8a}",
    )?;
    push_text(
        out,
        b"g[class^=c] text{text-anchor:middle;font-size:90px;fill:#fff}</style>\n",
    )
}

// The size, and how things look.
#[tactic(auto, unfolding(crate::specs::Picture::head_text))]
fn push_head(out: &mut Vec<u8>, height: u64) -> Result<(), Memory>
    ensures { OnOk result (out.new.items ≡ out.old.items ++ head_text height) }
{
    push_labelled(
        out,
        b"<svg xmlns='http://www.w3.org/2000/svg' width='1200' height='",
        height / 10,
    )?;
    push_labelled(out, b"' viewBox='0 0 12000 ", height)?;
    push_text(out, b"'>\n")?;
    push_style(out)?;
    push_labelled(out, b"<rect width='12000' height='", height)?;
    push_text(out, b"' fill='#fff'/>\n")?;
    Ok(())
}

// The nodes that are drawn.
#[tactic(auto, using(crate::proofs::Taking::take_few), unfolding(crate::specs::Scale::most_nodes))]
fn drawn_nodes(nodes: &[PictureNode]) -> &[PictureNode]
    ensures is { result.now ≡ take most_nodes nodes.now }
    ensures few { length result.now ≤ 10_000 }
{
    &nodes[..nodes.len().min(MOST_NODES)]
}

/// The text of an SVG file: the legend, nodes over time with a bar for each run in lanes of processors, an axis, and how many
/// jobs wait. It is 1,200 units wide and as high as its rows need. Linear in the parts, times the processors of their nodes.
/// A bar is half a unit wide at least, and where runs are too short to tell apart only the first of them is drawn in a lane.
/// Nodes are named where a row is 8 units high, which is up to 120 of them; else a pointer that rests on one tells its name.
#[tactic(auto, unfolding(crate::specs::Picture::picture_text, crate::specs::Scale::rows_top))]
pub fn picture(alloc: Global, picture: &Picture) -> Result<Vec<u8>, Memory>
    ensures { IfOk result (λ text. text.items ≡ picture_text picture.now) }
{
    let mut out = Vec::new(alloc);
    let nodes = drawn_nodes(picture.nodes.as_slice());
    let count = nodes.len() as u16;
    let height = row_height(count);
    push_head(&mut out, picture_height(count))?;
    push_legend(&mut out, picture.groups.as_slice())?;
    push_nodes(
        alloc,
        &mut out,
        &picture.period,
        picture.bars.as_slice(),
        height,
        600,
        nodes,
    )?;
    push_waiting(&mut out, count, &picture.period, picture.waiting.as_slice())?;
    push_axis(&mut out, count, &picture.period)?;
    push_text(&mut out, b"</svg>\n")?;
    Ok(out)
}
