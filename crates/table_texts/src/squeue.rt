//! The lines of squeue(1).

ghost use Rattle.std.specs.Prelude.{◌≡◌, ◌++◌, true, All, flat_map, OnOk};
ghost use Rattle.table_texts.specs.Squeue.{squeue_text, lines_of, line, row_line, piece_text, blank, is_fixed, told, title};

use crate::columns::title;
use crate::field::push_field;
use crate::form::{Form, fill_line, form_of};
use crate::told::push_told;
use operands::format::usual_format;
use reply_data::view::{JobRow, Row, View};
use request_data::query::{JobQuery, Piece};
use small_texts::memory_error::Memory;
use small_texts::pieces::push_text;
use std::alloc::Global;

/// Writes a line for each row in the format of the query, with titles above them where they are wanted.
pub fn push_view(
    alloc: Global,
    out: &mut Vec<u8>,
    query: &JobQuery,
    view: &View,
) -> Result<(), Memory>
    ensures { OnOk result (out.new.items ≡ out.old.items ++ squeue_text query.now view.now) }
{
    match &query.format {
        Some(pieces) => push_lines(alloc, out, query.titles, pieces.as_slice(), view),
        None => {
            let pieces = usual_format(alloc, query.starts)?;
            push_lines(alloc, out, query.titles, pieces.as_slice(), view)
        }
    }
}

fn push_lines(
    alloc: Global,
    out: &mut Vec<u8>,
    titles: bool,
    pieces: &[Piece],
    view: &View,
) -> Result<(), Memory>
    ensures { OnOk result (out.new.items ≡ out.old.items ++ lines_of titles pieces.now view.now) }
{
    if titles {
        push_titles(out, pieces)?;
    }
    push_rows(alloc, out, pieces, view.rows.as_slice())
}

fn push_rows(alloc: Global, out: &mut Vec<u8>, pieces: &[Piece], rows: &[Row]) -> Result<(), Memory>
    ensures { OnOk result (out.new.items ≡ out.old.items ++ flat_map (row_line pieces.now) rows.now) }
{
    let form = form_of(alloc, pieces)?;
    let mut room = Vec::new(alloc);
    for row in rows {
        if let Row::Job(job) = row {
            push_job(alloc, out, &mut room, &form, job)?;
        }
    }
    Ok(())
}

#[tactic(auto, unfolding(crate::specs::Squeue::line))]
fn push_titles(out: &mut Vec<u8>, pieces: &[Piece]) -> Result<(), Memory>
    ensures { OnOk result (out.new.items ≡ out.old.items ++ line title pieces.now) }
{
    for piece in pieces {
        push_title(out, *piece)?;
    }
    push_text(out, b"\n")
}

fn push_title(out: &mut Vec<u8>, piece: Piece) -> Result<(), Memory>
    ensures { OnOk result (out.new.items ≡ out.old.items ++ piece_text title piece) }
{
    match piece {
        Piece::Plain(byte) => out.push(byte)?,
        Piece::Column {
            column,
            width: None,
            ..
        } => push_text(out, title(column))?,
        Piece::Column {
            column,
            width: Some(width),
            dot,
        } => push_field(out, width.get() as usize, dot, title(column))?,
    }
    Ok(())
}

// Writes the line of a job: a copy of the form's, which is filled in, and what follows.
#[tactic(auto, unfolding(crate::specs::Squeue::line))]
fn push_job(
    alloc: Global,
    out: &mut Vec<u8>,
    room: &mut Vec<u8>,
    form: &Form,
    row: &JobRow,
) -> Result<(), Memory>
    requires fixed { All (λ piece. is_fixed piece ≡ true) form.now.fixed.now }
    requires blank { form.now.blank.items ≡ flat_map blank form.now.fixed.now }
    ensures { OnOk result (out.new.items
        ≡ out.old.items ++ line (told row.now) (form.now.fixed.now ++ form.now.rest.now)) }
{
    let start = out.len();
    push_text(out, form.blank.as_slice())?;
    fill_line(alloc, room, &mut out[start..], form.fixed, row)?;
    push_pieces(alloc, out, room, form.rest, row)?;
    out.push(b'\n')?;
    Ok(())
}

fn push_pieces(
    alloc: Global,
    out: &mut Vec<u8>,
    room: &mut Vec<u8>,
    pieces: &[Piece],
    row: &JobRow,
) -> Result<(), Memory>
    ensures { OnOk result (out.new.items ≡ out.old.items ++ flat_map (piece_text (told row.now)) pieces.now) }
{
    for piece in pieces {
        push_piece(alloc, out, room, *piece, row)?;
    }
    Ok(())
}

fn push_piece(
    alloc: Global,
    out: &mut Vec<u8>,
    room: &mut Vec<u8>,
    piece: Piece,
    row: &JobRow,
) -> Result<(), Memory>
    ensures { OnOk result (out.new.items ≡ out.old.items ++ piece_text (told row.now) piece) }
{
    match piece {
        Piece::Plain(byte) => out.push(byte)?,
        Piece::Column {
            column,
            width: None,
            ..
        } => push_told(alloc, out, row, column)?,
        Piece::Column {
            column,
            width: Some(width),
            dot,
        } => {
            room.clear();
            push_told(alloc, room, row, column)?;
            push_field(out, width.get() as usize, dot, room.as_slice())?;
        }
    }
    Ok(())
}
