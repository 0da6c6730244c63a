//! What a picture shows, by the lines of a case:
//!
//!     period FIRST LAST               its time, in seconds since 1970
//!     group NAME                      one more group
//!     bar GROUP START END LABEL TITLE one more run
//!     node NAME PROCESSORS            one more node
//!     part BAR PROCESSORS             what a run holds of the last node
//!     shade FROM UNTIL                a time in which that is shaded
//!     waiting MOMENT JOBS             how many jobs wait from then on

use plain_data::items::Items;
use plain_data::seconds::Second;
use replay_picture::{NodePart, Period, Picture, PictureBar, PictureNode, Shade, WaitingStep};
use std::alloc::Global;
use table_lines::answer::Unanswered;
use table_lines::fields::{narrow_number, number, parts};

// A node as far as its lines came.
#[derive(Drop)]
struct NodeScene {
    name: Items<u8>,
    processors: u32,
    parts: Vec<NodePart>,
    shades: Vec<Shade>,
}

// What was said so far.
#[derive(Drop)]
struct Scene {
    period: Period,
    groups: Vec<Items<u8>>,
    nodes: Vec<NodeScene>,
    bars: Vec<PictureBar>,
    waiting: Vec<WaitingStep>,
}

fn second(text: &[u8]) -> Result<Second, Unanswered> {
    Second::try_new(number(text)?).ok_or(Unanswered::Arguments)
}

fn text_of(alloc: Global, text: &[u8]) -> Result<Items<u8>, Unanswered> {
    Ok(Items::from_vec(Vec::from_slice(alloc, text)?))
}

// The two words of a line that has two.
fn two<'a>(fields: &[&'a [u8]]) -> Result<(&'a [u8], &'a [u8]), Unanswered> {
    match fields {
        [one, other] => Ok((*one, *other)),
        _ => Err(Unanswered::Arguments),
    }
}

fn set_period(scene: &mut Scene, fields: &[&[u8]]) -> Result<(), Unanswered> {
    let (first, last) = two(fields)?;
    scene.period = Period {
        first: second(first)?,
        last: second(last)?,
    };
    Ok(())
}

fn push_group(alloc: Global, scene: &mut Scene, fields: &[&[u8]]) -> Result<(), Unanswered> {
    let [name] = fields else {
        return Err(Unanswered::Arguments);
    };
    scene.groups.push(text_of(alloc, name)?)?;
    Ok(())
}

fn push_bar(alloc: Global, scene: &mut Scene, fields: &[&[u8]]) -> Result<(), Unanswered> {
    let [group, start, end, label, title] = fields else {
        return Err(Unanswered::Arguments);
    };
    let bar = PictureBar {
        label: text_of(alloc, label)?,
        title: text_of(alloc, title)?,
        group: narrow_number(group)?,
        start: second(start)?,
        end: second(end)?,
    };
    scene.bars.push(bar)?;
    Ok(())
}

fn push_node(alloc: Global, scene: &mut Scene, fields: &[&[u8]]) -> Result<(), Unanswered> {
    let (name, processors) = two(fields)?;
    let node = NodeScene {
        name: text_of(alloc, name)?,
        processors: narrow_number(processors)?,
        parts: Vec::new(alloc),
        shades: Vec::new(alloc),
    };
    scene.nodes.push(node)?;
    Ok(())
}

fn push_part(scene: &mut Scene, fields: &[&[u8]]) -> Result<(), Unanswered> {
    let (bar, processors) = two(fields)?;
    let part = NodePart {
        bar: narrow_number(bar)? as usize,
        processors: narrow_number(processors)?,
    };
    let Some(node) = scene.nodes.last_mut() else {
        return Err(Unanswered::Arguments);
    };
    node.parts.push(part)?;
    Ok(())
}

fn push_shade(scene: &mut Scene, fields: &[&[u8]]) -> Result<(), Unanswered> {
    let (from, until) = two(fields)?;
    let shade = Shade {
        from: second(from)?,
        until: second(until)?,
    };
    let Some(node) = scene.nodes.last_mut() else {
        return Err(Unanswered::Arguments);
    };
    node.shades.push(shade)?;
    Ok(())
}

fn push_waiting(scene: &mut Scene, fields: &[&[u8]]) -> Result<(), Unanswered> {
    let (moment, jobs) = two(fields)?;
    let step = WaitingStep {
        moment: second(moment)?,
        jobs: narrow_number(jobs)?,
    };
    scene.waiting.push(step)?;
    Ok(())
}

// Takes a line that begins with this word.
fn take(alloc: Global, scene: &mut Scene, word: &[u8], fields: &[&[u8]]) -> Result<(), Unanswered> {
    match word {
        b"period" => set_period(scene, fields),
        b"group" => push_group(alloc, scene, fields),
        b"bar" => push_bar(alloc, scene, fields),
        b"node" => push_node(alloc, scene, fields),
        b"part" => push_part(scene, fields),
        b"shade" => push_shade(scene, fields),
        b"waiting" => push_waiting(scene, fields),
        _ => Err(Unanswered::Arguments),
    }
}

fn take_line(alloc: Global, scene: &mut Scene, line: &[u8]) -> Result<(), Unanswered> {
    let words = parts(alloc, line, b' ')?;
    match words.as_slice() {
        [word, fields @ ..] => take(alloc, scene, word, fields),
        [] => Ok(()),
    }
}

fn nodes_of(alloc: Global, nodes: Vec<NodeScene>) -> Result<Vec<PictureNode>, Unanswered> {
    let mut all = Vec::new(alloc);
    for node in nodes {
        all.push(PictureNode {
            name: node.name,
            processors: node.processors,
            parts: Items::from_vec(node.parts),
            shades: Items::from_vec(node.shades),
        })?;
    }
    Ok(all)
}

/// What the lines of a case say.
pub fn scene_in(alloc: Global, file: &[u8]) -> Result<Picture, Unanswered> {
    let mut scene = Scene {
        period: Period {
            first: second(b"0")?,
            last: second(b"0")?,
        },
        groups: Vec::new(alloc),
        nodes: Vec::new(alloc),
        bars: Vec::new(alloc),
        waiting: Vec::new(alloc),
    };
    for line in &parts(alloc, file, b'\n')? {
        if !line.is_empty() {
            take_line(alloc, &mut scene, line)?;
        }
    }
    Ok(Picture {
        period: scene.period,
        groups: Items::from_vec(scene.groups),
        nodes: Items::from_vec(nodes_of(alloc, scene.nodes)?),
        bars: Items::from_vec(scene.bars),
        waiting: Items::from_vec(scene.waiting),
    })
}
