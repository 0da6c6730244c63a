// The system's files as a shelf: the edge that is trusted.
ghost use Rattle.std.specs.Prelude.{◌≡◌, ◌≤◌, length, IfOk, None};

use crate::copy::copy_front;
use crate::shelf::PIECE_LEN;
use crate::system::{MOST_TRIES, is_interrupted};
use crate::{Failed, Shelf};
use std::fs::File;
use std::io;
use std::io::{Read, Seek, SeekFrom};
use std::rt::Files;

/// The system's files as a shelf. Each read opens the file that is named, so it gives what stands there at that call;
/// what has no offsets, such as a pipe, is a fault. A read that a signal interrupts (`ErrorKind::Interrupted`) is tried
/// again, up to 1,024 times in all; each other error, and the last interruption, is a fault.
#[derive(Drop)]
pub struct FileShelf<R> {
    pub runtime: R,
    /// How many reads failed, up to the greatest `u64`.
    pub faults: u64,
}

impl<R> FileShelf<R> {
    pub fn new(runtime: R) -> Self
        ensures runtime { result.runtime ≡ runtime }
        ensures faults { result.faults ≡ 0 }
    {
        FileShelf { runtime, faults: 0 }
    }
}

impl<R: Files> Shelf for FileShelf<R> {
    ghost files = { λ shelf. None };

    ghost shelf_faults = { λ shelf. shelf.faults };

    // std doesn't say that a read leaves the rest of its buffer, so the bytes come through a buffer of the shelf's own.
    fn read_at(&mut self, name: &str, offset: u64, into: &mut [u8]) -> Result<usize, Failed> {
        let mut piece = [0; PIECE_LEN];
        let room = into.len().min(PIECE_LEN);
        match read_through(&self.runtime, name, offset, &mut piece[..room]) {
            Ok(count) => Ok(copy_front(&piece[..count], into)),
            Err(Failed) => {
                self.faults = self.faults.saturating_add(1);
                Err(Failed)
            }
        }
    }
}

// Opens the file and reads once.
fn open_and_read<R: Files>(files: &R, name: &str, offset: u64, into: &mut [u8]) -> io::Result<usize>
    ensures { IfOk result (λ n. n ≤ length into.new) }
{
    let mut file = File::open(files, name)?;
    file.seek(SeekFrom::Start(offset))?;
    file.read(into)
}

// Opens and reads, again where a signal interrupts.
fn read_through<R: Files>(
    files: &R,
    name: &str,
    offset: u64,
    into: &mut [u8],
) -> Result<usize, Failed>
    ensures { IfOk result (λ n. n ≤ length into.new) }
{
    for _ in 0..MOST_TRIES {
        match open_and_read(files, name, offset, into) {
            Ok(count) => return Ok(count),
            Err(error) if is_interrupted(&error) => {}
            Err(_) => return Err(Failed),
        }
    }
    Err(Failed)
}
