//! One reply frame, as it is read off a link.

ghost use Rattle.std.specs.Prelude.{◌≡◌, ◌≤◌, ◌<◌, IfOk, length, vec_len};
ghost use Rattle.std.specs.Io.KnownBytes.{ReadConsumes};
ghost use Rattle.slurm_io.specs.Faults.{CountsFault};
ghost use Rattle.slurm_client.specs.Reading.{Brings, IsFilled, IsFrameRead, WritesStay};

use block_frame::{LENGTH_SIZE, REPLY_HEAD, announced, replies_say_their_end};
use slurm_io::{Failed, Link};
use std::alloc::Global;

/// The most bytes that are read at once.
const PIECE_LEN: usize = 4096;

/// Why no frame was read.
#[derive(Clone, Copy, Debug, PartialEq, Eq)]
pub enum Unread {
    /// The input ended before the frame's end, or the frame's length is below that of a reply's.
    Bad,
    ReadFault,
    Memory,
}

// Reads some bytes to the front of the buffer.
fn read_some<L: Link>(link: &mut L, into: &mut [u8]) -> Result<usize, Failed>
    ensures bound { IfOk result (λ n. n ≤ length into.new) }
    ensures bytes { ReadConsumes (L.wire link.old).left (L.wire link.new).left result into.new }
    ensures faults { CountsFault (L.wire link.old).reads (L.wire link.new).reads result }
    ensures writes { WritesStay (L.wire link.old) (L.wire link.new) }
{
    link.read(into)
}

// Reads once, and puts what came behind the bytes that are there.
fn read_more<L: Link>(link: &mut L, bytes: &mut Vec<u8>, piece: &mut [u8]) -> Result<(), Unread>
    requires { 0 < length piece.old }
    ensures brings { Brings (L.wire link.old) (L.wire link.new)
        bytes.old.items bytes.new.items (length piece.old) result }
    ensures writes { WritesStay (L.wire link.old) (L.wire link.new) }
{
    match read_some(link, piece) {
        Err(Failed) => Err(Unread::ReadFault),
        Ok(0) => Err(Unread::Bad),
        Ok(count) => match bytes.extend_from_slice(piece.split_at(count).0) {
            Ok(()) => Ok(()),
            Err(_) => Err(Unread::Memory),
        },
    }
}

// Reads until there are so many bytes, and not one more.
fn read_up_to<L: Link>(link: &mut L, bytes: &mut Vec<u8>, want: usize) -> Result<(), Unread>
    requires { vec_len bytes.old ≤ want }
    ensures filled { IsFilled (L.wire link.old) (L.wire link.new) bytes.old.items bytes.new.items want result }
    ensures writes { WritesStay (L.wire link.old) (L.wire link.new) }
{
    let mut piece = [0; PIECE_LEN];
    while bytes.len() < want {
        let room = (want - bytes.len()).min(PIECE_LEN);
        read_more(link, bytes, &mut piece[..room])?;
    }
    Ok(())
}

/// Reads one frame, with its length, and no byte behind it: the four bytes of the length first, and then so many. A
/// length below 9 ends it at once. Memory is taken for the bytes that came, however great the length is.
pub fn read_frame<L: Link>(alloc: Global, link: &mut L) -> Result<Vec<u8>, Unread>
    ensures read { IsFrameRead (L.wire link.old) (L.wire link.new) result }
    ensures writes { WritesStay (L.wire link.old) (L.wire link.new) }
{
    replies_say_their_end();
    let mut frame = Vec::new(alloc);
    read_up_to(link, &mut frame, LENGTH_SIZE)?;
    let len = announced(frame.as_slice());
    if len < REPLY_HEAD {
        return Err(Unread::Bad);
    }
    read_up_to(link, &mut frame, LENGTH_SIZE + len)?;
    Ok(frame)
}
