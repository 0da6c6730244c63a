//! The lines of scontrol(1): "show".

ghost use Rattle.std.specs.Prelude.{◌≡◌, ◌++◌, flat_map, OnOk};
ghost use Rattle.table_texts.specs.Show.{record_line, show_text};

use crate::show_job::push_job_line;
use crate::show_node::push_node_line;
use crate::show_partition::push_partition_line;
use crate::show_reservation::push_reservation_line;
use reply_data::view::{Row, View};
use small_texts::memory_error::Memory;
use std::alloc::Global;

/// Writes a line for each record.
pub fn push_show(alloc: Global, out: &mut Vec<u8>, view: &View) -> Result<(), Memory>
    ensures { OnOk result (out.new.items ≡ out.old.items ++ show_text view.now) }
{
    push_records(alloc, out, view.rows.as_slice())
}

fn push_records(alloc: Global, out: &mut Vec<u8>, rows: &[Row]) -> Result<(), Memory>
    ensures { OnOk result (out.new.items ≡ out.old.items ++ flat_map record_line rows.now) }
{
    for row in rows {
        push_record(alloc, out, row)?;
    }
    Ok(())
}

fn push_record(alloc: Global, out: &mut Vec<u8>, row: &Row) -> Result<(), Memory>
    ensures { OnOk result (out.new.items ≡ out.old.items ++ record_line row.now) }
{
    match row {
        Row::Job(job) => push_job_line(alloc, out, job),
        Row::Node(node) => push_node_line(out, node),
        Row::Partition(partition) => push_partition_line(alloc, out, partition),
        Row::Reservation(reservation) => push_reservation_line(alloc, out, reservation),
        Row::States(_) | Row::Priority(_) => Ok(()),
    }
}
