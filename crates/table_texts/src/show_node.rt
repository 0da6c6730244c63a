//! The line of a node that scontrol(1) shows.

ghost use Rattle.std.specs.Prelude.{◌≡◌, ◌++◌, OnOk};
ghost use Rattle.table_texts.specs.ShowNode.{group_word, report_text, node_pairs, standing_pairs, node_line};

use crate::values::{push_names_or_null, push_pair};
use reply_data::view::{NodeGroup, NodeRow};
use request_data::report::Heard;
use small_texts::memory_error::Memory;
use small_texts::pieces::{push_labelled, push_number, push_text};

/// Writes the line of a node. Linear in the text.
#[tactic(auto, unfolding(crate::specs::ShowNode::node_line))]
pub fn push_node_line(out: &mut Vec<u8>, row: &NodeRow) -> Result<(), Memory>
    ensures { OnOk result (out.new.items ≡ out.old.items ++ node_line row.now) }
{
    push_node_pairs(out, row)?;
    push_standing_pairs(out, row)?;
    push_text(out, b"\n")
}

#[tactic(auto, unfolding(crate::specs::ShowNode::node_pairs))]
fn push_node_pairs(out: &mut Vec<u8>, row: &NodeRow) -> Result<(), Memory>
    ensures { OnOk result (out.new.items ≡ out.old.items ++ node_pairs row.now) }
{
    push_pair(out, b"NodeName=", row.name.as_bytes())?;
    push_labelled(out, b" CPUAlloc=", row.held)?;
    push_labelled(out, b" CPUTot=", row.cpus)?;
    push_labelled(out, b" RealMemory=", row.mem)?;
    push_labelled(out, b" AllocMem=", row.held_mem)?;
    Ok(())
}

#[tactic(auto, unfolding(crate::specs::ShowNode::standing_pairs))]
fn push_standing_pairs(out: &mut Vec<u8>, row: &NodeRow) -> Result<(), Memory>
    ensures { OnOk result (out.new.items ≡ out.old.items ++ standing_pairs row.now) }
{
    push_pair(out, b" State=", word(row.group))?;
    push_labelled(out, b" Weight=", row.weight)?;
    push_text(out, b" Features=")?;
    push_names_or_null(out, row.features.as_slice())?;
    push_text(out, b" LastReport=")?;
    push_report(out, row.heard)?;
    Ok(())
}

fn push_report(out: &mut Vec<u8>, heard: Option<Heard>) -> Result<(), Memory>
    ensures { OnOk result (out.new.items ≡ out.old.items ++ report_text heard) }
{
    match heard {
        Some(heard) => {
            push_number(out, heard.boot)?;
            push_labelled(out, b".", heard.number)
        }
        None => push_text(out, b"(null)"),
    }
}

fn word(group: NodeGroup) -> &'static [u8]
    ensures { result.now ≡ group_word group }
{
    match group {
        NodeGroup::Down => b"DOWN",
        NodeGroup::Draining => b"DRAINING",
        NodeGroup::Drained => b"DRAINED",
        NodeGroup::Allocated => b"ALLOCATED",
        NodeGroup::Mixed => b"MIXED",
        NodeGroup::Idle => b"IDLE",
    }
}
