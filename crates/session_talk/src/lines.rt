//! The lines of an input.

ghost use Rattle.std.specs.Prelude.{◌≡◌, ◌≤◌, [], length, position, IfOk};
ghost use Rattle.std.specs.List.{position_or_len};
ghost use Rattle.block_frame.specs.LineFeeds.{is_line_feed};
ghost use Rattle.session_talk.specs.Lines.{IsBrought, IsCut, IsFound, without_return};

use bytes::BytesMut;
use slurm_io::{Failed, Source};
use small_texts::memory_error::Memory;
use std::alloc::Global;

/// The most bytes of a line, but for those that came with its last ones (own).
pub const LONGEST_LINE: usize = 65_536;

/// How many bytes one read asks for.
const PIECE_LEN: usize = 4096;

/// What the next line of an input is.
#[derive(Drop)]
pub enum Found {
    Line(Vec<u8>),
    /// The input ended within it.
    Last(Vec<u8>),
    End,
    TooLong,
    ReadFault,
    Memory,
}

// What one read brought, behind the beginning of a line.
#[derive(Clone, Copy)]
enum Brought {
    Whole,
    More,
    End,
    ReadFault,
    Memory,
}

// Where the first LF stands.
fn place_of_feed(text: &[u8]) -> Option<usize>
    ensures { result ≡ position is_line_feed text.now }
{
    text.iter().position(|b| *b == b'\n')
}

// How long the first line of a text is, without its LF.
fn line_len(text: &[u8]) -> usize
    ensures value { result ≡ position_or_len is_line_feed text.now }
    ensures bound { result ≤ length text.now }
{
    match place_of_feed(text) {
        Some(place) => place,
        None => text.len(),
    }
}

// Moves what is pending behind the beginning of a line, up to an LF where there is one, which goes. Whether there was.
fn cut(pending: &mut BytesMut, line: &mut Vec<u8>) -> Result<bool, Memory>
    ensures { IfOk result (λ found. IsCut pending.old.items pending.new.items line.old.items line.new.items found) }
{
    let len = line_len(pending.as_slice());
    line.extend_from_slice(pending.as_slice().split_at(len).0)?;
    if len < pending.len() {
        pending.advance(len + 1);
        Ok(true)
    } else {
        pending.advance(len);
        Ok(false)
    }
}

// A line without the CR at its end.
fn without_return(line: Vec<u8>) -> Vec<u8>
    ensures { result.items ≡ without_return line.items }
{
    let mut line = line;
    if let Some(last) = line.last()
        && *last == b'\r'
    {
        line.pop();
    }
    line
}

// Reads once behind the beginning of a line, where nothing is pending.
fn read_on<S: Source>(source: &mut S, pending: &mut BytesMut, line: &mut Vec<u8>) -> Brought
    requires { pending.old.items ≡ [] }
    ensures { IsBrought (S.left source.old) (S.left source.new) (S.read_faults source.old) (S.read_faults source.new)
        pending.new.items line.old.items line.new.items result }
{
    let mut piece = [0; PIECE_LEN];
    let count = match source.read(&mut piece) {
        Ok(0) => return Brought::End,
        Ok(count) => count,
        Err(Failed) => return Brought::ReadFault,
    };
    if pending.extend_from_slice(piece.split_at(count).0).is_err() {
        return Brought::Memory;
    }
    match cut(pending, line) {
        Ok(true) => Brought::Whole,
        Ok(false) => Brought::More,
        Err(Memory) => Brought::Memory,
    }
}

/// The next line, of what is pending and what is read then. Linear in it.
pub fn next_line<S: Source>(alloc: Global, source: &mut S, pending: &mut BytesMut) -> Found
    ensures { IsFound (S.left source.old) (S.left source.new) (S.read_faults source.old) (S.read_faults source.new)
        pending.old.items pending.new.items result }
{
    let mut line = Vec::new(alloc);
    match cut(pending, &mut line) {
        Ok(true) => return Found::Line(without_return(line)),
        Ok(false) => {}
        Err(Memory) => return Found::Memory,
    }
    while line.len() <= LONGEST_LINE {
        match read_on(source, pending, &mut line) {
            Brought::Whole => return Found::Line(without_return(line)),
            Brought::More => {}
            Brought::End if line.is_empty() => return Found::End,
            Brought::End => return Found::Last(without_return(line)),
            Brought::ReadFault => return Found::ReadFault,
            Brought::Memory => return Found::Memory,
        }
    }
    Found::TooLong
}
