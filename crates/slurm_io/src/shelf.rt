// Files, by their names.
ghost use Rattle.std.specs.Prelude.{◌≡◌, ℕ, ◌+◌, ◌++◌, ◌≤◌, min, List, length, take, vec_len, Option, Some, IfSome, IsSomeAnd, IfOk};
ghost use Rattle.slurm_io.specs.Faults.{CountsFault};
ghost use Rattle.slurm_io.specs.Shelf.{ShelfFile, ReadsFile, KeepsRest, bytes_named};
ghost use Rattle.slurm_io.specs.ShelfRefusal.{CountsReading};

use crate::Failed;
use std::alloc::{AllocError, Global};

/// The most bytes of a file that are read at once.
pub(crate) const PIECE_LEN: usize = 65_536;

/// Where files are read (own).
pub trait Shelf {
    /// The files that there are, where the shelf tells them.
    ghost files: { Self → Option (List ShelfFile) };

    /// How many reads failed, up to the greatest `u64`.
    ghost shelf_faults: { Self → ℕ };

    /// Reads some bytes of a file, from the offset on, to the front of `into` and answers how many. 0 for a buffer that
    /// isn't empty is the end of the file. A file that is missing is a failed read. Reading changes no file.
    fn read_at(&mut self, name: &str, offset: u64, into: &mut [u8]) -> Result<usize, Failed>
        ensures bound { IfOk result (λ n. n ≤ length into.new) }
        ensures bytes { ReadsFile (files self.old) name.now offset result into.new }
        ensures rest { KeepsRest into.old into.new result }
        ensures faults { CountsFault (shelf_faults self.old) (shelf_faults self.new) result }
        ensures kept { files self.new ≡ files self.old };
}

impl<Q: Shelf> Shelf for &mut Q {
    ghost files = { λ shelf. Q.files shelf.now };

    ghost shelf_faults = { λ shelf. Q.shelf_faults shelf.now };

    fn read_at(&mut self, name: &str, offset: u64, into: &mut [u8]) -> Result<usize, Failed> {
        Shelf::read_at(&mut **self, name, offset, into)
    }
}

/// Why a file was not read (own).
#[derive(Clone, Copy, Debug, PartialEq, Eq)]
pub enum ShelfRefusal {
    /// A read of the shelf failed, which has counted it: there is no such file, or it can't be read.
    Failed,
    /// There wasn't memory enough.
    Memory,
}

impl From<Failed> for ShelfRefusal {
    ghost use Rattle.std.specs.Prelude.{◌≡◌};
    ghost use Rattle.slurm_io.specs.declared.shelf.ShelfRefusal.TheVariants.{Failed};

    ghost from_gives = { λ _ e. e ≡ Failed };

    fn from(_failed: Failed) -> ShelfRefusal {
        ShelfRefusal::Failed
    }
}

impl From<AllocError> for ShelfRefusal {
    ghost use Rattle.std.specs.Prelude.{◌≡◌};
    ghost use Rattle.slurm_io.specs.declared.shelf.ShelfRefusal.TheVariants.{Memory};

    ghost from_gives = { λ _ e. e ≡ Memory };

    fn from(_error: AllocError) -> ShelfRefusal {
        ShelfRefusal::Memory
    }
}

// How many bytes to ask for where so many and one more are wanted.
fn room_for(left: u64) -> usize
    ensures { result ≡ min (left + 1) PIECE_LEN }
{
    left.saturating_add(1).min(PIECE_LEN as u64) as usize
}

// Reads a file once, from behind the bytes that are there on, adds what came to them and answers how many came.
fn read_more<Q: Shelf>(
    shelf: &mut Q,
    name: &str,
    bytes: &mut Vec<u8>,
    piece: &mut [u8],
) -> Result<usize, ShelfRefusal>
    ensures bound { IfOk result (λ count. count ≤ length piece.new) }
    ensures added { IfOk result (λ count. bytes.new.items ≡ bytes.old.items ++ take count piece.new) }
    ensures len { IfOk result (λ count. vec_len bytes.new ≡ vec_len bytes.old + count) }
    ensures read { ReadsFile (Q.files shelf.old) name.now (length bytes.old.items) result piece.new }
    ensures faults { CountsReading (Q.shelf_faults shelf.old) (Q.shelf_faults shelf.new) result }
    ensures kept { Q.files shelf.new ≡ Q.files shelf.old }
{
    let count = shelf.read_at(name, bytes.len() as u64, piece)?;
    bytes.extend_from_slice(piece.split_at(count).0)?;
    Ok(count)
}

/// The bytes of a file (own): all of them where there are at most `most`, and else the first `most + 1`, so that a
/// file that is too long is told by the length of what was read and not read to its end. It asks for at most 64 KiB at
/// a time, and until nothing comes.
pub fn read_file<Q: Shelf>(
    alloc: Global,
    shelf: &mut Q,
    name: &str,
    most: u64,
) -> Result<Vec<u8>, ShelfRefusal>
    ensures read { IfSome (Q.files shelf.old) (λ files. IfOk result (λ bytes.
        IsSomeAnd (bytes_named files name.now) (λ file. bytes.items ≡ take (most + 1) file))) }

    // A file of no more than `most` bytes comes whole.
    ensures whole { IfSome (Q.files shelf.old) (λ files. IfOk result (λ bytes.
        vec_len bytes ≤ most → bytes_named files name.now ≡ Some bytes.items)) }
    ensures small { IfOk result (λ bytes. vec_len bytes ≤ most + 1) }
    ensures faults { CountsReading (Q.shelf_faults shelf.old) (Q.shelf_faults shelf.new) result }
    ensures kept { Q.files shelf.new ≡ Q.files shelf.old }
{
    let mut piece = [0; PIECE_LEN];
    let mut bytes = Vec::new(alloc);
    while bytes.len() as u64 <= most {
        let room = room_for(most - bytes.len() as u64);
        let count = read_more(shelf, name, &mut bytes, &mut piece[..room])?;
        if count == 0 {
            return Ok(bytes);
        }
    }
    Ok(bytes)
}
