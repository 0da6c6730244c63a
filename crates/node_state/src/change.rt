//! What a change does to a node.

ghost use Rattle.std.specs.Prelude.{◌≡◌, ◌↔◌, IsFalse};
ghost use Rattle.node_state.specs.Nodes;

use crate::record::{DownBy, NodeChange, NodeRecord};
use request_data::report::Heard;

// What may change of a node.
#[derive(Clone, Copy, PartialEq)]
struct Standing {
    down: DownBy,
    drain: bool,
    empty: bool,
    heard: Option<Heard>,
}

fn standing_of(node: &NodeRecord) -> Standing
    ensures down { result.down ≡ node.now.down }
    ensures drain { result.drain ≡ node.now.drain }
    ensures empty { result.empty ≡ node.now.empty }
    ensures heard { result.heard ≡ node.now.heard }
{
    Standing {
        down: node.down,
        drain: node.drain,
        empty: node.empty,
        heard: node.heard,
    }
}

/// Changes the node, and tells whether it is another one than before.
pub(crate) fn apply(node: &mut NodeRecord, change: NodeChange) -> bool
    ensures changed { node.new ≡ Nodes.changed change node.old }
    ensures same { IsFalse result ↔ (node.new ≡ node.old) }
{
    let before = standing_of(node);
    alter(node, change);
    standing_of(node) != before
}

fn alter(node: &mut NodeRecord, change: NodeChange)
    ensures { node.new ≡ Nodes.changed change node.old }
{
    match change {
        NodeChange::Silent => fall_silent(node),
        NodeChange::Down => set_down(node),
        NodeChange::Drain => node.drain = true,
        NodeChange::Resume => resume(node),
        NodeChange::Heard { heard, empty } => {
            note(node, empty);
            node.heard = Some(heard);
        }
    }
}

fn fall_silent(node: &mut NodeRecord)
    ensures { node.new ≡ Nodes.silent node.old node.old.down }
{
    if node.down == DownBy::No {
        node.down = DownBy::Silent;
    }
}

fn set_down(node: &mut NodeRecord)
    ensures { node.new ≡ Nodes.set_down node.old node.old.down }
{
    if node.down != DownBy::Set {
        node.down = DownBy::Set;
        node.empty = false;
    }
}

fn down_after_set(node: &NodeRecord) -> DownBy
    ensures { result ≡ Nodes.down_after_set node.now }
{
    if node.heard.is_none() || node.empty {
        DownBy::No
    } else {
        DownBy::Silent
    }
}

fn resume(node: &mut NodeRecord)
    ensures { node.new ≡ Nodes.resumed node.old node.old.down }
{
    if node.down == DownBy::Set {
        node.down = down_after_set(node);
        node.empty = false;
    }
    node.drain = false;
}

// Notes what a report says of running starts.
fn note(node: &mut NodeRecord, empty: bool)
    ensures { node.new ≡ Nodes.noted node.old empty node.old.down }
{
    match node.down {
        DownBy::No => {}
        DownBy::Silent => {
            if empty {
                node.down = DownBy::No;
            }
        }
        DownBy::Set => node.empty |= empty,
    }
}
