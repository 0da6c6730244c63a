//! Fields of a fixed width.

ghost use Rattle.std.specs.Prelude.{◌≡◌, ◌≤◌, ◌++◌, OnOk, length, replicate};
ghost use Rattle.std.specs.Str.{byte};
ghost use Rattle.table_texts.specs.Field.{field, cell, left_cell};

use small_texts::memory_error::Memory;
use small_texts::pieces::push_text;

// What blanks are taken from.
const BLANKS: &[u8] = b"                                                                ";

// Writes so many blanks.
fn push_blanks(out: &mut Vec<u8>, count: usize) -> Result<(), Memory>
    ensures { OnOk result (out.new.items ≡ out.old.items ++ replicate count (byte " ")) }
{
    let mut left = count;
    while left > BLANKS.len() {
        push_text(out, BLANKS)?;
        left -= BLANKS.len();
    }
    push_text(out, &BLANKS[..left])?;
    Ok(())
}

/// Writes the text cut to `width` bytes and padded with blanks, on the left where `dot` says so. "--format" of squeue(1).
#[tactic(auto, unfolding(crate::specs::Field::field))]
pub fn push_field(out: &mut Vec<u8>, width: usize, dot: bool, text: &[u8]) -> Result<(), Memory>
    ensures { OnOk result (out.new.items ≡ out.old.items ++ field width dot text.now) }
{
    let text = &text[..text.len().min(width)];
    let blanks = width - text.len();
    if dot {
        push_blanks(out, blanks)?;
        push_text(out, text)
    } else {
        push_text(out, text)?;
        push_blanks(out, blanks)
    }
}

/// Writes the text over blanks as a field of their width.
#[tactic(auto, unfolding(crate::specs::Field::field))]
pub fn put_field(blanks: &mut [u8], dot: bool, text: &[u8])
    requires { blanks.old ≡ replicate (length blanks.old) (byte " ") }
    ensures { blanks.new ≡ field (length blanks.old) dot text.now }
{
    let text = &text[..text.len().min(blanks.len())];
    let from = if dot { blanks.len() - text.len() } else { 0 };
    blanks[from..from + text.len()].copy_from_slice(text);
}

/// Writes the text with the padding on the left, and a blank behind it.
#[tactic(auto, unfolding(crate::specs::Field::cell))]
pub fn push_cell(out: &mut Vec<u8>, width: usize, text: &[u8]) -> Result<(), Memory>
    ensures { OnOk result (out.new.items ≡ out.old.items ++ cell width text.now) }
{
    push_field(out, width, true, text)?;
    push_text(out, b" ")
}

/// Writes the text with the padding on the right, and a blank behind it.
#[tactic(auto, unfolding(crate::specs::Field::left_cell))]
pub fn push_left_cell(out: &mut Vec<u8>, width: usize, text: &[u8]) -> Result<(), Memory>
    ensures { OnOk result (out.new.items ≡ out.old.items ++ left_cell width text.now) }
{
    push_field(out, width, false, text)?;
    push_text(out, b" ")
}
