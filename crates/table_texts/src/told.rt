//! What the columns of squeue(1) tell of a job.

ghost use Rattle.std.specs.Prelude.{◌≡◌, ◌≤◌, ◌++◌, OnOk, decimal, length, replicate};
ghost use Rattle.std.specs.Str.{byte};
ghost use Rattle.host_lists.specs.Folding.{folded};
ghost use Rattle.plain_data.specs.Elapsed.{elapsed_text};
ghost use Rattle.table_texts.specs.Field.{field};
ghost use Rattle.table_texts.specs.Squeue.{id_of, limit_of, place_of, start_of, told, written};

use crate::columns::{push_elapsed, push_moment, push_reason, push_task, state_code, state_word};
use crate::field::put_field;
use host_lists::folding::fold_hosts;
use itoa::Buffer;
use plain_data::limit::Limit;
use plain_data::print_elapsed;
use plain_data::ranged::LongRanged;
use plain_data::seconds::{FOREVER, Second};
use reply_data::view::JobRow;
use request_data::query::JobColumn;
use request_data::state::Reason;
use small_texts::memory_error::Memory;
use small_texts::pieces::{push_number, push_text};
use std::alloc::Global;

// What a column tells, before it is written.
#[derive(Clone, Copy)]
enum Content<'a> {
    Text(&'a [u8]),
    Number(u64),
    // A task of an array, by the array's number and its index.
    Task(u32, u32),
    // A length of time, in seconds.
    Elapsed(LongRanged<0, FOREVER>),
    Moment(Second),
    Reason(Reason),
    // The names of the nodes of this row.
    Nodes(&'a JobRow),
}

// What the column tells. It copies no text.
#[tactic(auto, unfolding(crate::specs::Squeue::told))]
fn content_of(row: &JobRow, column: JobColumn) -> Content<'_>
    ensures { written result ≡ told row.now column }
{
    match column {
        JobColumn::Id => id_content(row.id, row.array, row.index),
        JobColumn::Partition => Content::Text(row.partition.as_bytes()),
        JobColumn::JobName => Content::Text(row.name.as_bytes()),
        JobColumn::User => Content::Text(row.user.as_bytes()),
        JobColumn::Account => Content::Text(row.account.as_bytes()),
        JobColumn::Qos => Content::Text(row.qos.as_bytes()),
        JobColumn::Code => Content::Text(state_code(row.state)),
        JobColumn::State => Content::Text(state_word(row.state)),
        JobColumn::Time => Content::Elapsed(row.elapsed),
        JobColumn::Nodes => Content::Number(row.nodes),
        JobColumn::Place => place_content(row),
        JobColumn::Start => start_content(row.start),
        JobColumn::Priority => Content::Number(u64::from(row.priority)),
        JobColumn::Limit => limit_content(row.limit),
        JobColumn::Cpus => Content::Number(row.cpus),
    }
}

// The job's number; a task of an array is named by the array and its index.
fn id_content(id: u32, array: Option<u32>, index: Option<u32>) -> Content<'static>
    ensures { written result ≡ id_of id array index }
{
    match (array, index) {
        (Some(array), Some(index)) => Content::Task(array, index),
        _ => Content::Number(u64::from(id)),
    }
}

fn place_content(row: &JobRow) -> Content<'_>
    ensures { written result ≡ place_of row.now.reason row.now.node_names }
{
    match row.reason {
        Some(reason) => Content::Reason(reason),
        None => Content::Nodes(row),
    }
}

fn start_content(start: Option<Second>) -> Content<'static>
    ensures { written result ≡ start_of start }
{
    match start {
        Some(start) => Content::Moment(start),
        None => Content::Text(b"N/A"),
    }
}

fn limit_content(limit: Limit) -> Content<'static>
    ensures { written result ≡ limit_of limit }
{
    match limit {
        Limit::Unlimited => Content::Text(b"UNLIMITED"),
        Limit::Minutes(minutes) => Content::Elapsed(LongRanged::new(minutes.get() * 60)),
    }
}

// The names of nodes take memory beside `out` while they are folded.
fn push_content(alloc: Global, out: &mut Vec<u8>, content: &Content) -> Result<(), Memory>
    ensures { OnOk result (out.new.items ≡ out.old.items ++ written content.now) }
{
    match content {
        Content::Text(text) => push_text(out, text),
        Content::Number(number) => push_number(out, *number),
        Content::Task(array, index) => push_task(out, *array, *index),
        Content::Elapsed(seconds) => push_elapsed(out, seconds.get()),
        Content::Moment(second) => push_moment(out, *second),
        Content::Reason(reason) => push_reason(out, *reason),
        Content::Nodes(row) => push_hosts(alloc, out, row),
    }
}

fn push_hosts(alloc: Global, out: &mut Vec<u8>, row: &JobRow) -> Result<(), Memory>
    ensures { OnOk result (out.new.items ≡ out.old.items ++ folded row.now.node_names) }
{
    let hosts = fold_hosts(alloc, row.node_names.as_slice())?;
    push_text(out, hosts.as_slice())
}

/// Writes what the column tells of a job. The names of its nodes take memory beside `out` while they are folded.
pub fn push_told(
    alloc: Global,
    out: &mut Vec<u8>,
    row: &JobRow,
    column: JobColumn,
) -> Result<(), Memory>
    ensures { OnOk result (out.new.items ≡ out.old.items ++ told row.now column) }
{
    push_content(alloc, out, &content_of(row, column))
}

fn put_number(blanks: &mut [u8], dot: bool, number: u64)
    requires { blanks.old ≡ replicate (length blanks.old) (byte " ") }
    ensures { blanks.new ≡ field (length blanks.old) dot (decimal number) }
{
    let mut buffer = Buffer::new();
    put_field(blanks, dot, buffer.format(number).as_bytes());
}

fn put_elapsed(blanks: &mut [u8], dot: bool, seconds: u64)
    requires blanks { blanks.old ≡ replicate (length blanks.old) (byte " ") }
    requires small { seconds ≤ FOREVER }
    ensures { blanks.new ≡ field (length blanks.old) dot (elapsed_text seconds) }
{
    let mut text = [0; 32];
    let len = print_elapsed(seconds, &mut text);
    put_field(blanks, dot, &text[..len]);
}

fn put_content(
    alloc: Global,
    room: &mut Vec<u8>,
    blanks: &mut [u8],
    dot: bool,
    content: &Content,
) -> Result<(), Memory>
    requires { blanks.old ≡ replicate (length blanks.old) (byte " ") }
    ensures { OnOk result (blanks.new ≡ field (length blanks.old) dot (written content.now)) }
{
    match content {
        Content::Text(text) => put_field(blanks, dot, text),
        Content::Number(number) => put_number(blanks, dot, *number),
        Content::Elapsed(seconds) => put_elapsed(blanks, dot, seconds.get()),
        _ => {
            room.clear();
            push_content(alloc, room, content)?;
            put_field(blanks, dot, room.as_slice());
        }
    }
    Ok(())
}

/// Writes what the column tells of a job over blanks, as a field of their width. `room` is for what has to be written before it is
/// padded, so that no memory is taken for each.
pub fn put_told(
    alloc: Global,
    room: &mut Vec<u8>,
    blanks: &mut [u8],
    dot: bool,
    row: &JobRow,
    column: JobColumn,
) -> Result<(), Memory>
    requires { blanks.old ≡ replicate (length blanks.old) (byte " ") }
    ensures { OnOk result (blanks.new ≡ field (length blanks.old) dot (told row.now column)) }
{
    put_content(alloc, room, blanks, dot, &content_of(row, column))
}
