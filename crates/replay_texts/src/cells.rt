//! Columns of tables, as wide as they should be.

ghost use Rattle.std.specs.Prelude.{◌≡◌, ◌-◌, ◌++◌, OnOk, replicate};
ghost use Rattle.std.specs.Str.{byte};
ghost use Rattle.replay_texts.specs.Cells.{hundredths, label, number_cell, permille, right};

use itoa::Buffer;
use small_texts::digits::to_two_digits;
use small_texts::memory_error::Memory;
use small_texts::pieces::{push_number, push_text};
use std::alloc::Global;

/// How wide the first column is.
const LABEL: usize = 20;

/// How wide the others are.
const CELL: usize = 12;

#[tactic(auto, using(crate::proofs::Blanks::replicate_more))]
fn push_blanks(out: &mut Vec<u8>, count: usize) -> Result<(), Memory>
    ensures { OnOk result (out.new.items ≡ out.old.items ++ replicate count (byte " ")) }
{
    for _ in 0..count {
        out.push(b' ')?;
    }
    Ok(())
}

/// Writes the text, with blanks behind it up to the width of the first column.
#[tactic(auto, unfolding(crate::specs::Cells::label))]
pub(crate) fn push_label(out: &mut Vec<u8>, text: &[u8]) -> Result<(), Memory>
    ensures { OnOk result (out.new.items ≡ out.old.items ++ label text.now) }
{
    push_text(out, text)?;
    push_blanks(out, LABEL.saturating_sub(text.len()))
}

/// Writes a blank, and then the text with blanks before it up to the width of a column.
#[tactic(auto, unfolding(crate::specs::Cells::right))]
pub(crate) fn push_right(out: &mut Vec<u8>, text: &[u8]) -> Result<(), Memory>
    ensures { OnOk result (out.new.items ≡ out.old.items ++ right text.now) }
{
    push_text(out, b" ")?;
    push_blanks(out, CELL.saturating_sub(text.len()))?;
    push_text(out, text)
}

/// The same of a number.
pub(crate) fn push_number_cell(out: &mut Vec<u8>, number: u64) -> Result<(), Memory>
    ensures { OnOk result (out.new.items ≡ out.old.items ++ number_cell number) }
{
    let mut buffer = Buffer::new();
    push_right(out, buffer.format(number).as_bytes())
}

/// The same of hundredths, with a point before the last two digits.
pub(crate) fn push_hundredths(alloc: Global, out: &mut Vec<u8>, number: u64) -> Result<(), Memory>
    ensures { OnOk result (out.new.items ≡ out.old.items ++ right (hundredths number)) }
{
    let mut text = Vec::new(alloc);
    push_number(&mut text, number / 100)?;
    push_text(&mut text, b".")?;
    push_text(&mut text, &to_two_digits(number % 100))?;
    push_right(out, text.as_slice())
}

/// The same of thousandths, as percents with a point before the last digit.
pub(crate) fn push_permille(alloc: Global, out: &mut Vec<u8>, number: u64) -> Result<(), Memory>
    ensures { OnOk result (out.new.items ≡ out.old.items ++ right (permille number)) }
{
    let mut text = Vec::new(alloc);
    push_number(&mut text, number / 10)?;
    push_text(&mut text, b".")?;
    push_number(&mut text, number % 10)?;
    push_text(&mut text, b"%")?;
    push_right(out, text.as_slice())
}
