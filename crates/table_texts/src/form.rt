//! Lines that are filled in: what the lines of a format share is written once, with blanks in place of what columns tell.

ghost use Rattle.std.specs.Prelude.{◌≡◌, ◌≤◌, ◌+◌, ◌++◌, true, All, IfOk, OnOk, drop, flat_map, length, take};
ghost use Rattle.table_texts.specs.Squeue.{blank, is_fixed, piece_text, told};

use crate::field::push_field;
use crate::told::put_told;
use reply_data::view::JobRow;
use request_data::query::Piece;
use small_texts::memory_error::Memory;
use std::alloc::Global;

/// The pieces of a line.
#[derive(Drop)]
pub struct Form<'a> {
    /// Those before the first column that has no width.
    pub fixed: &'a [Piece],
    /// The same with blanks in place of what columns tell.
    pub blank: Vec<u8>,
    /// The first column that has no width, and what follows it.
    pub rest: &'a [Piece],
}

// Whether the piece takes as many bytes in each line.
fn is_fixed(piece: &Piece) -> bool
    ensures { result ≡ is_fixed piece.now }
{
    !matches!(piece, Piece::Column { width: None, .. })
}

// How many pieces stand before the first column that has no width.
fn count_fixed(pieces: &[Piece]) -> usize
    ensures within { result ≤ length pieces.now }
    ensures fixed { All (λ piece. is_fixed piece ≡ true) (take result pieces.now) }
{
    let mut count = 0;
    for piece in pieces {
        if !is_fixed(piece) {
            return count;
        }
        count += 1;
    }
    count
}

fn push_blank(out: &mut Vec<u8>, piece: Piece) -> Result<(), Memory>
    ensures { OnOk result (out.new.items ≡ out.old.items ++ blank piece) }
{
    match piece {
        Piece::Plain(byte) => out.push(byte)?,
        Piece::Column { width: None, .. } => (),
        Piece::Column {
            width: Some(width),
            dot,
            ..
        } => push_field(out, width.get() as usize, dot, b"")?,
    }
    Ok(())
}

fn blank_line(alloc: Global, pieces: &[Piece]) -> Result<Vec<u8>, Memory>
    ensures { IfOk result (λ line. line.items ≡ flat_map blank pieces.now) }
{
    let mut line = Vec::new(alloc);
    for piece in pieces {
        push_blank(&mut line, *piece)?;
    }
    Ok(line)
}

/// The form of lines of these pieces.
pub fn form_of(alloc: Global, pieces: &[Piece]) -> Result<Form<'_>, Memory>
    ensures pieces { IfOk result (λ form. form.fixed.now ++ form.rest.now ≡ pieces.now) }
    ensures fixed { IfOk result (λ form. All (λ piece. is_fixed piece ≡ true) form.fixed.now) }
    ensures blank { IfOk result (λ form. form.blank.items ≡ flat_map blank form.fixed.now) }
{
    let (fixed, rest) = pieces.split_at(count_fixed(pieces));
    Ok(Form {
        fixed,
        blank: blank_line(alloc, fixed)?,
        rest,
    })
}

// Fills in what a piece tells that stands at a place of the line, and answers where it ends.
fn fill_piece(
    alloc: Global,
    room: &mut Vec<u8>,
    line: &mut [u8],
    at: usize,
    piece: Piece,
    row: &JobRow,
) -> Result<usize, Memory>
    requires fixed { is_fixed piece ≡ true }
    requires within { at + length (blank piece) ≤ length line.old }
    requires blank { take (length (blank piece)) (drop at line.old) ≡ blank piece }
    ensures end { IfOk result (λ end. end ≡ at + length (blank piece)) }
    ensures line { OnOk result (line.new ≡ take at line.old ++ piece_text (told row.now) piece
        ++ drop (at + length (blank piece)) line.old) }
{
    let Piece::Column {
        column,
        width: Some(width),
        dot,
    } = piece
    else {
        return Ok(at + 1);
    };
    let end = at + width.get() as usize;
    put_told(alloc, room, &mut line[at..end], dot, row, column)?;
    Ok(end)
}

/// Fills in what the columns tell of a job. `room` is for what has to be written before it is padded, so that no memory
/// is taken for each.
pub fn fill_line(
    alloc: Global,
    room: &mut Vec<u8>,
    line: &mut [u8],
    pieces: &[Piece],
    row: &JobRow,
) -> Result<(), Memory>
    requires fixed { All (λ piece. is_fixed piece ≡ true) pieces.now }
    requires blank { line.old ≡ flat_map blank pieces.now }
    ensures { OnOk result (line.new ≡ flat_map (piece_text (told row.now)) pieces.now) }
{
    let mut at = 0;
    for piece in pieces {
        at = fill_piece(alloc, room, line, at, *piece, row)?;
    }
    Ok(())
}
