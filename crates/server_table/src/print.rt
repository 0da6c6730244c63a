// What a server came to, as lines.

use crate::alone::Work;
use crate::replies::{Reply, all_replies, replies_in};
use crate::running::Left;
use ctl_desk::book::Book;
use ctl_server::{ServeEnd, WorkerEnd};
use percent_encoding::{AsciiSet, CONTROLS, percent_encode};
use request_data::request::Request;
use slurm_net::{MemDoor, MemHost};
use std::alloc::{AllocError, Global};

fn escaped() -> AsciiSet {
    CONTROLS.add(b'%')
}

// A line behind the mark. One that doesn't end has `!` behind the mark.
fn push_line(out: &mut String, mark: &str, line: &[u8]) -> Result<(), AllocError> {
    out.push_str(mark)?;
    let whole = line.strip_suffix(b"\n");
    if whole.is_none() {
        out.push_str("!")?;
    }
    out.push_str(" ")?;
    percent_encode(whole.unwrap_or(line), escaped()).append_to(out)?;
    out.push_str("\n")
}

fn push_lines(out: &mut String, mark: &str, text: &[u8]) -> Result<(), AllocError> {
    for line in text.split_inclusive(|byte| *byte == b'\n') {
        push_line(out, mark, line)?;
    }
    Ok(())
}

// The status and the text of each reply.
fn push_replies(out: &mut String, replies: &[Reply]) -> Result<(), AllocError> {
    for reply in replies {
        let status = reply.status;
        writeln!(out, "& {status}")?;
        push_lines(out, "&", reply.text.as_slice())?;
    }
    Ok(())
}

// The replies of each connection of a door, in order.
fn push_door(alloc: Global, out: &mut String, door: &MemDoor) -> Result<(), AllocError> {
    for session in door.sessions() {
        out.push_str("connection\n")?;
        let replies = replies_in(alloc, session.link.taken())?;
        push_replies(out, replies.as_slice())?;
    }
    Ok(())
}

// The replies at each door, in order.
fn push_doors(alloc: Global, out: &mut String, host: &MemHost) -> Result<(), AllocError> {
    let mut number = 0u64;
    for door in host.closed() {
        number = number.saturating_add(1);
        writeln!(out, "door {number}")?;
        push_door(alloc, out, door)?;
    }
    Ok(())
}

// How many shutdowns were accepted.
fn shutdowns(book: &Book) -> usize {
    book.entries()
        .iter()
        .filter(|entry| matches!(&entry.request, Request::Shutdown))
        .count()
}

// How the server ended, and what its book has.
fn push_end(out: &mut String, end: &ServeEnd) -> Result<(), AllocError> {
    match end {
        ServeEnd::Shut(book) => {
            let accepted = shutdowns(book);
            let jobs = book.ctl().jobs().len();
            writeln!(out, "shut: accepted {accepted} jobs {jobs}")
        }
        ServeEnd::DoorFault => out.push_str("door fault\n"),
        ServeEnd::WriteFault => out.push_str("write fault\n"),
        ServeEnd::Memory => out.push_str("memory\n"),
    }
}

// Why a worker ended.
fn push_worker_end(out: &mut String, end: WorkerEnd) -> Result<(), AllocError> {
    out.push_str(match end {
        WorkerEnd::Shut => "worker: shut\n",
        WorkerEnd::DoorFault => "worker: door fault\n",
        WorkerEnd::Memory => "worker: memory\n",
    })
}

/// The connections of a worker's door, the replies of each behind `&`, and why the worker ended.
pub fn push_work(alloc: Global, out: &mut String, work: &Work) -> Result<(), AllocError> {
    push_door(alloc, out, &work.door)?;
    push_worker_end(out, work.end)
}

/// The output behind `>`; each door and its connections, and behind `&` the status and the lines of each reply; or the
/// replies of all doors together; how the server ended; and whether a gate gave up waiting, or was told another point.
pub fn push_left(
    alloc: Global,
    out: &mut String,
    left: &Left,
    together: bool,
) -> Result<(), AllocError> {
    push_lines(out, ">", left.output.taken())?;
    if together {
        let replies = all_replies(alloc, &left.host)?;
        push_replies(out, replies.as_slice())?;
    } else {
        push_doors(alloc, out, &left.host)?;
    }
    push_end(out, &left.end)?;
    if left.gave_up {
        out.push_str("a gate gave up\n")?;
    }
    if left.misled {
        out.push_str("a gate was told another point\n")?;
    }
    Ok(())
}
