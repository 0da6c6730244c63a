//! The lines of sprio(1).

ghost use Rattle.std.specs.Prelude.{◌≡◌, ◌++◌, flat_map, OnOk};
ghost use Rattle.table_texts.specs.Field.{cell};
ghost use Rattle.table_texts.specs.Squeue.{id_of};
ghost use Rattle.table_texts.specs.Sprio.{sprio_text, sprio_titles, sprio_row, priority_line, job_cells, number_cell, nice_end, nice_text};

use crate::columns::push_id;
use crate::field::{push_cell, push_field};
use itoa::Buffer;
use plain_data::nice::Nice;
use reply_data::priority::PriorityRow;
use reply_data::view::{Row, View};
use small_texts::memory_error::Memory;
use small_texts::pieces::{push_labelled, push_number, push_text};

/// Writes a line for each row, with titles above them where they are wanted.
pub fn push_sprio(out: &mut Vec<u8>, titles: bool, view: &View) -> Result<(), Memory>
    ensures { OnOk result (out.new.items ≡ out.old.items ++ sprio_text titles view.now) }
{
    if titles {
        push_titles(out)?;
    }
    push_rows(out, view.rows.as_slice())
}

fn push_rows(out: &mut Vec<u8>, rows: &[Row]) -> Result<(), Memory>
    ensures { OnOk result (out.new.items ≡ out.old.items ++ flat_map sprio_row rows.now) }
{
    let mut room = Vec::new(*out.allocator());
    for row in rows {
        if let Row::Priority(priority) = row {
            push_priority(out, &mut room, priority)?;
        }
    }
    Ok(())
}

fn push_titles(out: &mut Vec<u8>) -> Result<(), Memory>
    ensures { OnOk result (out.new.items ≡ out.old.items ++ sprio_titles) }
{
    push_cell(out, 18, b"JOBID")?;
    push_cell(out, 9, b"PARTITION")?;
    push_cell(out, 8, b"USER")?;
    push_cell(out, 10, b"PRIORITY")?;
    push_cell(out, 10, b"AGE")?;
    push_cell(out, 10, b"FAIRSHARE")?;
    push_cell(out, 10, b"JOBSIZE")?;
    push_cell(out, 10, b"PARTITION")?;
    push_cell(out, 10, b"QOS")?;
    push_last(out, b"NICE")?;
    Ok(())
}

#[tactic(auto, unfolding(crate::specs::Sprio::nice_end))]
fn push_last(out: &mut Vec<u8>, title: &[u8]) -> Result<(), Memory>
    ensures { OnOk result (out.new.items ≡ out.old.items ++ nice_end title.now) }
{
    push_field(out, 11, true, title)?;
    push_text(out, b"\n")
}

// `room` is for what a column tells, so that no memory is taken for each.
#[tactic(auto, unfolding(crate::specs::Sprio::priority_line))]
fn push_priority(out: &mut Vec<u8>, room: &mut Vec<u8>, row: &PriorityRow) -> Result<(), Memory>
    ensures { OnOk result (out.new.items ≡ out.old.items ++ priority_line row.now) }
{
    push_job(out, room, row)?;
    let parts = &row.parts;
    push_numbers(
        out,
        &[
            u64::from(parts.sum),
            parts.age,
            parts.fair_share,
            parts.job_size,
            parts.partition,
            parts.qos,
        ],
    )?;
    push_nice(out, room, parts.nice)
}

fn push_job(out: &mut Vec<u8>, room: &mut Vec<u8>, row: &PriorityRow) -> Result<(), Memory>
    ensures { OnOk result (out.new.items ≡ out.old.items
        ++ job_cells (id_of row.now.id row.now.array row.now.index) row.now.partition row.now.user) }
{
    push_id_cell(out, room, row.id, row.array, row.index)?;
    push_cell(out, 9, row.partition.as_bytes())?;
    push_cell(out, 8, row.user.as_bytes())
}

fn push_id_cell(
    out: &mut Vec<u8>,
    room: &mut Vec<u8>,
    id: u32,
    array: Option<u32>,
    index: Option<u32>,
) -> Result<(), Memory>
    ensures { OnOk result (out.new.items ≡ out.old.items ++ cell 18 (id_of id array index)) }
{
    room.clear();
    push_id(room, id, array, index)?;
    push_cell(out, 18, room.as_slice())
}

fn push_numbers(out: &mut Vec<u8>, numbers: &[u64]) -> Result<(), Memory>
    ensures { OnOk result (out.new.items ≡ out.old.items ++ flat_map number_cell numbers.now) }
{
    for number in numbers {
        push_number_cell(out, *number)?;
    }
    Ok(())
}

fn push_number_cell(out: &mut Vec<u8>, number: u64) -> Result<(), Memory>
    ensures { OnOk result (out.new.items ≡ out.old.items ++ number_cell number) }
{
    let mut buffer = Buffer::new();
    push_cell(out, 10, buffer.format(number).as_bytes())
}

fn push_nice(out: &mut Vec<u8>, room: &mut Vec<u8>, nice: Nice) -> Result<(), Memory>
    ensures { OnOk result (out.new.items ≡ out.old.items ++ nice_end (nice_text nice)) }
{
    room.clear();
    push_nice_number(room, nice)?;
    push_last(out, room.as_slice())
}

/// Writes a nice value.
pub fn push_nice_number(out: &mut Vec<u8>, nice: Nice) -> Result<(), Memory>
    ensures { OnOk result (out.new.items ≡ out.old.items ++ nice_text nice) }
{
    match nice {
        Nice::Lower(number) => push_number(out, number.get()),
        Nice::Raise(number) => push_labelled(out, b"-", number.get()),
    }
}
