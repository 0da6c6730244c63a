//! Logical lines: lines that a backslash at their end joins with the next one.

ghost use Rattle.std.specs.Prelude.{ℕ, ◌≡◌, ◌≤◌, ◌<◌, ◌+◌, ◌∷◌, ◌++◌, length, if◌then◌else◌, IfOk, IfSome, Some, option_map, option_copied, MatchOption};
ghost use Rattle.std.specs.Option.{option_len};
ghost use Rattle.std.specs.Str.{byte};
ghost use Rattle.small_texts.specs.Fields.{fields, fields_of_rest};
ghost use Rattle.conf_reader.specs.Lines.{ends_with, without_last, without_return, without_returns, joined, lines_of_rest, line_bytes, bytes_left};

use small_texts::fields::first_field;
use small_texts::memory_error::Memory;
use std::alloc::Global;

/// The text of a logical line.
#[derive(Drop)]
pub enum LineText<'a> {
    /// A line of the file as it stands there.
    Whole(&'a [u8]),
    /// Several lines, put together.
    Joined(Vec<u8>),
}

/// The first logical line of a text, and what follows it.
#[derive(Drop)]
pub struct FirstLine<'a> {
    pub text: LineText<'a>,
    /// How many lines of the file it takes.
    pub taken: usize,
    /// What follows; None where the text ended with the line.
    pub rest: Option<&'a [u8]>,
}

impl LineText<'_> {
    ghost use Rattle.std.specs.Prelude.{◌≡◌};
    ghost use Rattle.conf_reader.specs.Lines.{line_bytes};

    /// The bytes of the line, without its end.
    pub fn as_bytes(&self) -> &[u8]
        ensures { result.now ≡ line_bytes self.now }
    {
        match self {
            LineText::Whole(text) => text,
            LineText::Joined(text) => text.as_slice(),
        }
    }
}

// The line without a carriage return at its end.
#[tactic(auto, unfolding(crate::specs::Lines::without_return))]
fn without_return(line: &[u8]) -> &[u8]
    ensures value { result.now ≡ without_return line.now }
    ensures size { length result.now ≤ length line.now }
{
    match line.split_last() {
        Some((b'\r', front)) => front,
        _ => line,
    }
}

// What stands before a backslash at the line's end.
fn before_backslash(line: &[u8]) -> Option<&[u8]>
    ensures cut { option_copied result
        ≡ (if ends_with (byte "\\") line.now then Some (without_last line.now) else None) }
    ensures size { IfSome result (λ front. length front.now ≤ length line.now) }
{
    match line.split_last() {
        Some((b'\\', front)) => Some(front),
        _ => None,
    }
}

// The first line of a text, and what follows its line feed.
#[tactic(auto, using(crate::proofs::LineLemmas::first_of_more, crate::proofs::LineLemmas::last_line, crate::proofs::LineLemmas::last_len))]
fn cut_line(text: &[u8]) -> (&[u8], Option<&[u8]>)
    ensures cut { without_returns (fields (byte "\n") text.now)
        ≡ result.0.now ∷ without_returns (fields_of_rest (byte "\n") (option_copied result.1)) }
    ensures size { length result.0.now + bytes_left (option_copied result.1) ≤ length text.now }
{
    let (line, rest) = first_field(text, b'\n');
    match rest {
        Some(_) => (without_return(line), rest),
        None => (line, None),
    }
}

// The logical line that goes on behind a piece.
#[tactic(auto, using(crate::proofs::LineLemmas::join_more, crate::proofs::LineLemmas::join_last, crate::proofs::LineLemmas::join_end))]
fn join<'a>(alloc: Global, piece: &[u8], rest: Option<&'a [u8]>) -> Result<FirstLine<'a>, Memory>
    ensures cut { IfOk result (λ first. (number : ℕ)
        → joined number piece.now (lines_of_rest (number + 1) (option_copied rest.entry))
        ≡ record { number = number; text = line_bytes first.text }
        ∷ lines_of_rest (number + first.taken) (option_copied first.rest)) }
    ensures size { IfOk result (λ first. (1 ≤ first.taken)
        × (first.taken + bytes_left (option_copied first.rest) ≤ 1 + bytes_left (option_copied rest.entry))) }
    ensures fits { IfOk result (λ first.
        length (line_bytes first.text) ≤ length piece.now + bytes_left (option_copied rest.entry)) }
{
    let mut joined = Vec::from_slice(alloc, piece)?;
    let mut rest = rest;
    let mut taken = 1;
    while let Some(text) = rest {
        let (line, behind) = cut_line(text);
        rest = behind;
        taken += 1;
        match before_backslash(line) {
            Some(front) => joined.extend_from_slice(front)?,
            None => {
                joined.extend_from_slice(line)?;
                return Ok(FirstLine {
                    text: LineText::Joined(joined),
                    taken,
                    rest,
                });
            }
        }
    }
    Ok(FirstLine {
        text: LineText::Joined(joined),
        taken,
        rest: None,
    })
}

/// The first logical line of a text. A carriage return before a line feed is dropped, and a backslash at a line's end
/// joins the line with the next one, with nothing in between. Only joined lines are copied.
#[tactic(auto, using(crate::proofs::LineLemmas::whole_line, crate::proofs::LineLemmas::piece_of_line))]
pub fn first_line(alloc: Global, text: &[u8]) -> Result<FirstLine<'_>, Memory>
    ensures cut { IfOk result (λ first. (number : ℕ) → lines_of_rest number (Some text.now)
        ≡ record { number = number; text = line_bytes first.text }
        ∷ lines_of_rest (number + first.taken) (option_copied first.rest)) }
    ensures size { IfOk result (λ first. (1 ≤ first.taken)
        × (first.taken + bytes_left (option_copied first.rest) ≤ 1 + length text.now)) }
    ensures fits { IfOk result (λ first. length (line_bytes first.text) ≤ length text.now) }
{
    let (line, rest) = cut_line(text);
    match before_backslash(line) {
        Some(front) => join(alloc, front, rest),
        None => Ok(FirstLine {
            text: LineText::Whole(line),
            taken: 1,
            rest,
        }),
    }
}
