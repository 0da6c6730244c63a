//! The line of a partition that scontrol(1) shows.

ghost use Rattle.std.specs.Prelude.{◌≡◌, ◌++◌, OnOk};
ghost use Rattle.table_texts.specs.ShowPartition.{yes_or_no, state_word, limit_or_null, most_text, name_pairs, limit_pairs, rank_pairs, partition_line};

use crate::columns::push_limit;
use crate::values::{push_hosts_or_null, push_pair};
use plain_data::conf::PartState;
use plain_data::limit::Limit;
use reply_data::view::PartRow;
use small_texts::memory_error::Memory;
use small_texts::pieces::{push_labelled, push_number, push_text};
use std::alloc::Global;

/// Writes the line of a partition. Linear in the text, but for the names of its nodes, which are sorted.
#[tactic(auto, unfolding(crate::specs::ShowPartition::partition_line))]
pub fn push_partition_line(alloc: Global, out: &mut Vec<u8>, row: &PartRow) -> Result<(), Memory>
    ensures { OnOk result (out.new.items ≡ out.old.items ++ partition_line row.now) }
{
    push_name_pairs(out, row)?;
    push_limit_pairs(out, row)?;
    push_rank_pairs(alloc, out, row)?;
    push_text(out, b"\n")
}

#[tactic(auto, unfolding(crate::specs::ShowPartition::name_pairs))]
fn push_name_pairs(out: &mut Vec<u8>, row: &PartRow) -> Result<(), Memory>
    ensures { OnOk result (out.new.items ≡ out.old.items ++ name_pairs row.now) }
{
    push_pair(out, b"PartitionName=", row.name.as_bytes())?;
    push_pair(out, b" Default=", answer(row.is_default))?;
    push_pair(out, b" State=", word(row.state))?;
    Ok(())
}

#[tactic(auto, unfolding(crate::specs::ShowPartition::limit_pairs))]
fn push_limit_pairs(out: &mut Vec<u8>, row: &PartRow) -> Result<(), Memory>
    ensures { OnOk result (out.new.items ≡ out.old.items ++ limit_pairs row.now) }
{
    push_text(out, b" MaxTime=")?;
    push_limit(out, row.max_time)?;
    push_text(out, b" DefaultTime=")?;
    push_limit_or_null(out, row.default_time)?;
    push_labelled(out, b" MinNodes=", u64::from(row.min_nodes))?;
    push_text(out, b" MaxNodes=")?;
    push_most(out, row.max_nodes)?;
    Ok(())
}

#[tactic(auto, unfolding(crate::specs::ShowPartition::rank_pairs))]
fn push_rank_pairs(alloc: Global, out: &mut Vec<u8>, row: &PartRow) -> Result<(), Memory>
    ensures { OnOk result (out.new.items ≡ out.old.items ++ rank_pairs row.now) }
{
    push_labelled(out, b" PriorityTier=", row.tier)?;
    push_labelled(out, b" PriorityJobFactor=", row.factor)?;
    push_text(out, b" Nodes=")?;
    push_hosts_or_null(alloc, out, row.nodes.as_slice())?;
    push_labelled(out, b" TotalCPUs=", row.cpus)?;
    Ok(())
}

fn push_limit_or_null(out: &mut Vec<u8>, limit: Option<Limit>) -> Result<(), Memory>
    ensures { OnOk result (out.new.items ≡ out.old.items ++ limit_or_null limit) }
{
    match limit {
        Some(limit) => push_limit(out, limit),
        None => push_text(out, b"(null)"),
    }
}

fn push_most(out: &mut Vec<u8>, most: Option<u32>) -> Result<(), Memory>
    ensures { OnOk result (out.new.items ≡ out.old.items ++ most_text most) }
{
    match most {
        Some(most) => push_number(out, u64::from(most)),
        None => push_text(out, b"UNLIMITED"),
    }
}

fn answer(holds: bool) -> &'static [u8]
    ensures { result.now ≡ yes_or_no holds }
{
    if holds { b"YES" } else { b"NO" }
}

fn word(state: PartState) -> &'static [u8]
    ensures { result.now ≡ state_word state }
{
    match state {
        PartState::Up => b"UP",
        PartState::Down => b"DOWN",
        PartState::Drain => b"DRAIN",
        PartState::Inactive => b"INACTIVE",
    }
}
