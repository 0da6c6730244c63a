// Servers over hosts in memory.

ghost use Rattle.std.specs.Prelude.{◌≡◌, ◌+◌, ◌≤◌, All, IfOk, IfSome, vec_len};
ghost use Rattle.slurm_net.specs.MemHost.{IsUnusedDoor};
ghost use Rattle.slurm_net.specs.Unused.{IsUnused};

use crate::case::{Case, Coming, DoorCase};
use crate::cluster::new_book;
use crate::gates::{Board, gates_of};
use ctl_server::{ServeEnd, serve};
use slurm_io::MemLink;
use slurm_net::{MemClock, MemDoor, MemHost};
use std::alloc::{AllocError, Global};
use std::sync::Wait;
use std::thread::Threads;

/// The port that is told on the output.
const PORT: u16 = 7777;

/// How many bytes a read gives and a write takes at most.
const MOST: u32 = 64;

/// What a server leaves.
#[derive(Drop)]
pub struct Left {
    pub end: ServeEnd,
    pub output: MemLink,
    pub host: MemHost,
    /// Whether some gate has given up waiting.
    pub gave_up: bool,
    /// Whether some gate was told a point at which its part isn't.
    pub misled: bool,
}

// A connection as it comes.
fn link_of(alloc: Global, coming: &Coming) -> Result<MemLink, AllocError>
    ensures { IfOk result IsUnused }
{
    let bytes = Vec::from_slice(alloc, coming.sent.as_slice())?;
    let reads = Vec::from_slice(alloc, coming.failing_reads.as_slice())?;
    let writes = Vec::from_slice(alloc, coming.failing_writes.as_slice())?;
    Ok(MemLink::new(alloc, bytes, MOST, reads, writes))
}

// What comes to a door at one look.
fn coming_of(alloc: Global, coming: &Option<Coming>) -> Result<Option<MemLink>, AllocError>
    ensures { IfOk result (λ link. IfSome link IsUnused) }
{
    match coming {
        Some(coming) => Ok(Some(link_of(alloc, coming)?)),
        None => Ok(None),
    }
}

// What comes to a door.
fn links_of(alloc: Global, comes: &[Option<Coming>]) -> Result<Vec<Option<MemLink>>, AllocError>
    ensures { IfOk result (λ links. All (λ link. IfSome link IsUnused) links.items) }
{
    let mut links = Vec::new(alloc);
    for coming in comes.iter() {
        links.push(coming_of(alloc, coming)?)?;
    }
    Ok(links)
}

/// A door of a case, at which nobody was yet.
pub fn door_of(alloc: Global, door: &DoorCase) -> Result<MemDoor, AllocError>
    ensures { IfOk result IsUnusedDoor }
{
    let failing = Vec::from_slice(alloc, door.failing.as_slice())?;
    let links = links_of(alloc, door.comes.as_slice())?;
    MemDoor::new(alloc, links, failing)
}

fn doors_of(alloc: Global, doors: &[DoorCase]) -> Result<Vec<MemDoor>, AllocError>
    ensures { IfOk result (λ made. All IsUnusedDoor made.items) }
{
    let mut made = Vec::new(alloc);
    for door in doors.iter() {
        made.push(door_of(alloc, door)?)?;
    }
    Ok(made)
}

fn host_of(alloc: Global, case: &Case) -> Result<MemHost, AllocError> {
    let failing = Vec::from_slice(alloc, case.failing_calls.as_slice())?;
    let doors = doors_of(alloc, case.doors.as_slice())?;
    Ok(MemHost::new(alloc, doors, Vec::new(alloc), failing))
}

fn output_of(alloc: Global, case: &Case) -> Result<MemLink, AllocError> {
    let failing = Vec::from_slice(alloc, case.failing_writes.as_slice())?;
    Ok(MemLink::new(alloc, Vec::new(alloc), MOST, Vec::new(alloc), failing))
}

/// Runs the server of a case, with a worker for each door. None where there isn't a door, or there are more than a server
/// has workers.
pub fn run_case<R: Threads + Wait + Sync>(
    rt: &R,
    alloc: Global,
    case: &Case,
) -> Result<Option<Left>, AllocError> {
    let doors = case.doors.len();
    if doors == 0 || doors > 64 {
        return Ok(None);
    }
    let workers = doors as u32;
    let board = Board::new(alloc)?;
    let gates = gates_of(alloc, workers, case.steps.as_slice(), &board)?;
    let mut host = host_of(alloc, case)?;
    let mut output = output_of(alloc, case)?;
    let mut clock = MemClock::new(case.first, case.later);
    let Some(book) = new_book(alloc) else {
        return Ok(None);
    };
    let end = serve(
        rt,
        alloc,
        book,
        PORT,
        workers,
        &mut host,
        &mut output,
        &mut clock,
        gates,
    );
    Ok(Some(Left {
        end,
        output,
        host,
        gave_up: board.gave_up(),
        misled: board.misled(),
    }))
}
