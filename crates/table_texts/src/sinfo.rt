//! The lines of sinfo(1).

ghost use Rattle.std.specs.Prelude.{◌≡◌, ◌≤◌, ◌++◌, flat_map, length, decimal, OnOk};
ghost use Rattle.host_lists.specs.Folding.{folded};
ghost use Rattle.table_texts.specs.Field.{cell, left_cell};
ghost use Rattle.table_texts.specs.Sinfo.{sinfo_text, sinfo_titles, sinfo_row, state_line, starred, longest_text, avail_text, group_code};

use crate::field::{push_cell, push_left_cell};
use host_lists::folding::fold_hosts;
use itoa::Buffer;
use plain_data::conf::PartState;
use plain_data::limit::Limit;
use plain_data::print_elapsed;
use reply_data::view::{NodeGroup, Row, StateRow, View};
use small_texts::memory_error::Memory;
use small_texts::name::Name;
use small_texts::pieces::push_text;
use std::alloc::Global;

/// Writes a line for each row, with titles above them where they are wanted.
pub fn push_sinfo(alloc: Global, out: &mut Vec<u8>, titles: bool, view: &View) -> Result<(), Memory>
    ensures { OnOk result (out.new.items ≡ out.old.items ++ sinfo_text titles view.now) }
{
    if titles {
        push_titles(out)?;
    }
    push_rows(alloc, out, view.rows.as_slice())
}

fn push_rows(alloc: Global, out: &mut Vec<u8>, rows: &[Row]) -> Result<(), Memory>
    ensures { OnOk result (out.new.items ≡ out.old.items ++ flat_map sinfo_row rows.now) }
{
    for row in rows {
        if let Row::States(states) = row {
            push_states(alloc, out, states)?;
        }
    }
    Ok(())
}

fn push_titles(out: &mut Vec<u8>) -> Result<(), Memory>
    ensures { OnOk result (out.new.items ≡ out.old.items ++ sinfo_titles) }
{
    push_left_cell(out, 9, b"PARTITION")?;
    push_cell(out, 5, b"AVAIL")?;
    push_cell(out, 10, b"TIMELIMIT")?;
    push_cell(out, 6, b"NODES")?;
    push_cell(out, 6, b"STATE")?;
    push_text(out, b"NODELIST\n")?;
    Ok(())
}

fn push_states(alloc: Global, out: &mut Vec<u8>, row: &StateRow) -> Result<(), Memory>
    ensures { OnOk result (out.new.items ≡ out.old.items ++ state_line row.now) }
{
    push_partition(alloc, out, row.is_default, &row.partition)?;
    push_cell(out, 5, avail(row.state))?;
    push_longest(out, row.limit)?;
    push_count(out, row.nodes.as_slice())?;
    push_cell(out, 6, code(row.group))?;
    push_names(alloc, out, row.nodes.as_slice())?;
    push_text(out, b"\n")?;
    Ok(())
}

/// Writes the names, folded. It sorts them, which takes memory beside `out`.
pub fn push_names(alloc: Global, out: &mut Vec<u8>, names: &[Name]) -> Result<(), Memory>
    ensures { OnOk result (out.new.items ≡ out.old.items ++ folded names.now) }
{
    push_text(out, fold_hosts(alloc, names)?.as_slice())
}

fn push_partition(
    alloc: Global,
    out: &mut Vec<u8>,
    is_default: bool,
    name: &Name,
) -> Result<(), Memory>
    ensures { OnOk result (out.new.items ≡ out.old.items ++ left_cell 9 (starred is_default name.now)) }
{
    if !is_default {
        return push_left_cell(out, 9, name.as_bytes());
    }
    let mut starred = Vec::from_slice(alloc, name.as_bytes())?;
    starred.push(b'*')?;
    push_left_cell(out, 9, starred.as_slice())
}

fn push_longest(out: &mut Vec<u8>, limit: Limit) -> Result<(), Memory>
    ensures { OnOk result (out.new.items ≡ out.old.items ++ cell 10 (longest_text limit)) }
{
    match &limit {
        Limit::Unlimited => push_cell(out, 10, b"infinite"),
        Limit::Minutes(minutes) => {
            let mut text = [0; 32];
            let len = print_elapsed(minutes.get() * 60, &mut text);
            push_cell(out, 10, &text[..len])
        }
    }
}

fn push_count(out: &mut Vec<u8>, names: &[Name]) -> Result<(), Memory>
    ensures { OnOk result (out.new.items ≡ out.old.items ++ cell 6 (decimal (length names.now))) }
{
    let mut buffer = Buffer::new();
    push_cell(out, 6, buffer.format(names.len() as u64).as_bytes())
}

fn avail(state: PartState) -> &'static [u8]
    ensures { result.now ≡ avail_text state }
{
    match state {
        PartState::Up => b"up",
        PartState::Down => b"down",
        PartState::Drain => b"drain",
        PartState::Inactive => b"inact",
    }
}

fn code(group: NodeGroup) -> &'static [u8]
    ensures { result.now ≡ group_code group }
{
    match group {
        NodeGroup::Down => b"down",
        NodeGroup::Draining => b"drng",
        NodeGroup::Drained => b"drain",
        NodeGroup::Allocated => b"alloc",
        NodeGroup::Mixed => b"mix",
        NodeGroup::Idle => b"idle",
    }
}
