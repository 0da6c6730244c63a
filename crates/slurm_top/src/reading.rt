//! A script, as it is read.

ghost use Rattle.std.specs.Prelude.{◌≡◌, ◌<◌, ◌≤◌, length, vec_len, IfOk, IfSome};
ghost use Rattle.std.specs.Io.KnownBytes.{ReadConsumes};
ghost use Rattle.slurm_io.specs.Faults.{CountsFault};
ghost use Rattle.slurm_client.specs.Reading.{WritesStay};
ghost use Rattle.slurm_top.specs.Places.{told_place};
ghost use Rattle.slurm_top.specs.Scripts.{Brings, IsFileRead, IsInputRead, IsReading};

use crate::place::Place;
use crate::refusal::{LONGEST_SCRIPT, ScriptRefusal};
use slurm_io::{Failed, Link, Shelf, ShelfRefusal, read_file};
use std::alloc::Global;

/// The most bytes of the input that are read at once.
const PIECE_LEN: usize = 4096;

// Reads a file, or so much of it that it is seen to be too long.
fn read_named<Q: Shelf>(alloc: Global, shelf: &mut Q, name: &str) -> Result<Vec<u8>, ScriptRefusal>
    ensures read { IsFileRead (Q.files shelf.old) name.now (Q.shelf_faults shelf.old) (Q.shelf_faults shelf.new) result }
    ensures kept { Q.files shelf.new ≡ Q.files shelf.old }
{
    match read_file(alloc, shelf, name, LONGEST_SCRIPT as u64) {
        Ok(script) => {
            if script.len() <= LONGEST_SCRIPT {
                Ok(script)
            } else {
                Err(ScriptRefusal::TooLong)
            }
        }
        Err(ShelfRefusal::Failed) => Err(ScriptRefusal::ReadFault),
        Err(ShelfRefusal::Memory) => Err(ScriptRefusal::Memory),
    }
}

// Reads some bytes to the front of the buffer.
fn read_some<L: Link>(own: &mut L, into: &mut [u8]) -> Result<usize, Failed>
    ensures bound { IfOk result (λ n. n ≤ length into.new) }
    ensures bytes { ReadConsumes (L.wire own.old).left (L.wire own.new).left result into.new }
    ensures faults { CountsFault (L.wire own.old).reads (L.wire own.new).reads result }
    ensures writes { WritesStay (L.wire own.old) (L.wire own.new) }
{
    own.read(into)
}

// Reads once, puts what came behind the bytes that are there, and answers how many came.
fn read_more<L: Link>(
    own: &mut L,
    bytes: &mut Vec<u8>,
    piece: &mut [u8],
) -> Result<usize, ScriptRefusal>
    requires { 0 < length piece.old }
    ensures brings { Brings (L.wire own.old) (L.wire own.new)
        bytes.old.items bytes.new.items (length piece.old) result }
    ensures writes { WritesStay (L.wire own.old) (L.wire own.new) }
{
    match read_some(own, piece) {
        Err(Failed) => Err(ScriptRefusal::ReadFault),
        Ok(count) => match bytes.extend_from_slice(piece.split_at(count).0) {
            Ok(()) => Ok(count),
            Err(_) => Err(ScriptRefusal::Memory),
        },
    }
}

// Reads all of the input, or one byte more than a script may have.
fn read_input<L: Link>(alloc: Global, own: &mut L) -> Result<Vec<u8>, ScriptRefusal>
    ensures read { IsInputRead (L.wire own.old) (L.wire own.new) result }
    ensures writes { WritesStay (L.wire own.old) (L.wire own.new) }
{
    let mut piece = [0; PIECE_LEN];
    let mut bytes = Vec::new(alloc);
    while bytes.len() <= LONGEST_SCRIPT {
        let room = (LONGEST_SCRIPT + 1 - bytes.len()).min(PIECE_LEN);
        match read_more(own, &mut bytes, &mut piece[..room]) {
            Ok(0) => return Ok(bytes),
            Ok(_) => {}
            Err(refusal) => return Err(refusal),
        }
    }
    Err(ScriptRefusal::TooLong)
}

/// Reads the script that is at a place, and no more than one byte beyond the longest one that a server takes.
pub(crate) fn read_script<Q: Shelf, L: Link>(
    alloc: Global,
    place: Place<'_>,
    shelf: &mut Q,
    own: &mut L,
) -> Result<Option<Vec<u8>>, ScriptRefusal>
    ensures read { IsReading (told_place place.entry)
        (record { files = Q.files shelf.old; faults = Q.shelf_faults shelf.old; wire = L.wire own.old })
        (record { files = Q.files shelf.new; faults = Q.shelf_faults shelf.new; wire = L.wire own.new }) result }
    ensures short { IfOk result (λ script. IfSome script (λ bytes. length bytes.items ≤ LONGEST_SCRIPT)) }
{
    match place {
        Place::Nowhere => Ok(None),
        Place::File(name) => {
            let script = read_named(alloc, shelf, name)?;
            Ok(Some(script))
        }
        Place::Input => {
            let script = read_input(alloc, own)?;
            Ok(Some(script))
        }
    }
}
