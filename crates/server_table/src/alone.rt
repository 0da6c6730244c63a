// A worker by itself, at a door in memory.

use crate::case::Case;
use crate::cluster::new_book;
use crate::running::door_of;
use ctl_desk::own_desk::own_desk;
use ctl_server::{WorkerEnd, worker};
use resource_profile::start;
use slurm_net::{MemClock, MemDoor, NoGate};
use std::alloc::{AllocError, Global};
use std::sync::Wait;

/// What a worker leaves.
#[derive(Drop)]
pub struct Work {
    pub end: WorkerEnd,
    pub door: MemDoor,
}

/// Lets a worker work at the first door of a case, and at a desk that nobody else asks. None where there is no door.
pub fn work_alone<R: Wait>(rt: &R, alloc: Global, case: &Case) -> Result<Option<Work>, AllocError> {
    let Some(first) = case.doors.first() else {
        return Ok(None);
    };
    let mut door = door_of(alloc, first)?;
    let Some(book) = new_book(alloc) else {
        return Ok(None);
    };
    let mut desk = own_desk(book);
    let mut clock = MemClock::new(case.first, case.later);
    let end = worker(
        rt,
        alloc,
        &mut door,
        &mut desk,
        &mut clock,
        &mut NoGate,
        &mut start(),
    );
    Ok(Some(Work { end, door }))
}
