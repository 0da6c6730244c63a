//! Reads a format.

ghost use Rattle.std.specs.Prelude.{◌≡◌, ◌∷◌, ◌++◌, option_map, OnOk, IfOk, IsErrOf, None, Some};
ghost use Rattle.operands.specs.Format.{plain, column_of, width_of, column_behind, part_in, format_in, usual, usual_text};

use plain_data::items::Items;
use plain_data::ranged::Ranged;
use request_data::query::{JobColumn, Piece};
use small_texts::digits::{parse_number, split_digits};
use small_texts::fields::first_field;
use small_texts::memory_error;
use small_texts::memory_error::Memory;
use std::alloc::Global;
use std::error::Error;
use std::fmt;

/// Why a format isn't read.
#[derive(Clone, Copy, PartialEq, Eq, Debug)]
pub enum FormatRefusal {
    /// It is off the grammar of formats.
    BadFormat,
    /// Memory is wanting.
    Memory,
}

impl fmt::Display for FormatRefusal {
    ghost use Rattle.std.specs.Prelude.{Some};
    ghost use Rattle.operands.specs.Refusals.{format_message};

    ghost output = { λ refusal. Some (format_message refusal) };

    fn fmt<W: fmt::Write>(&self, f: &mut fmt::Formatter<W>) -> fmt::Result {
        f.write_str(match self {
            FormatRefusal::BadFormat => "bad format",
            FormatRefusal::Memory => "out of memory",
        })
    }
}

impl Error for FormatRefusal {}

impl From<Memory> for FormatRefusal {
    ghost use Rattle.std.specs.Prelude.{◌≡◌};
    ghost use Rattle.operands.specs.declared.format.FormatRefusal.TheVariants.{Memory};

    ghost from_gives = { λ _ e. e ≡ Memory };

    fn from(_error: memory_error::Memory) -> FormatRefusal {
        FormatRefusal::Memory
    }
}

/// The pieces of a format: a percent sign, an optional dot, an optional width from 1 to 1,024 and a letter are a
/// column, and each other byte stands for itself; `%%` isn't taken (own). Linear, with room for a piece a byte.
/// `--format` in squeue(1).
pub fn read_format(alloc: Global, text: &[u8]) -> Result<Items<Piece>, FormatRefusal>
    ensures good { IfOk result (λ pieces. format_in text.now ≡ Some pieces) }
    ensures bad { IsErrOf result FormatRefusal.BadFormat → format_in text.now ≡ None }
{
    read_pieces(alloc, text)?.ok_or(FormatRefusal::BadFormat)
}

/// The format of jobs, or of their expected starts, where no other is given.
pub fn usual_format(alloc: Global, starts: bool) -> Result<Items<Piece>, Memory>
    ensures { IfOk result (λ pieces. pieces ≡ usual starts) }
{
    Ok(read_pieces(alloc, usual_text(starts))?.unwrap())
}

fn usual_text(starts: bool) -> &'static [u8]
    ensures { result.now ≡ usual_text starts }
{
    if starts {
        b"%.18i %.9P %.8j %.8u %.2t %.19S %.6D %R"
    } else {
        b"%.18i %.9P %.8j %.8u %.2t %.10M %.6D %R"
    }
}

// The pieces of a format. None where it is off the grammar.
#[tactic(auto, using(crate::proofs::FormatLemmas::piece_steps), unfolding(crate::specs::Format::format_in))]
fn read_pieces(alloc: Global, text: &[u8]) -> Result<Option<Items<Piece>>, Memory>
    ensures { IfOk result (λ pieces. pieces ≡ format_in text.now) }
{
    let mut pieces = Vec::with_capacity(alloc, text.len())?;
    let (first, mut rest) = first_field(text, b'%');
    push_plain(&mut pieces, first)?;
    while let Some(parts) = rest {
        let (part, others) = first_field(parts, b'%');
        let Some((column, bytes)) = read_part(part) else {
            return Ok(None);
        };
        pieces.push(column)?;
        push_plain(&mut pieces, bytes)?;
        rest = others;
    }
    Ok(Some(Items::from_vec(pieces)))
}

// Appends bytes that stand for themselves.
fn push_plain(pieces: &mut Vec<Piece>, bytes: &[u8]) -> Result<(), Memory>
    ensures { OnOk result (pieces.new.items ≡ pieces.old.items ++ plain bytes.now) }
{
    Ok(pieces.extend(bytes.iter().map(|byte| Piece::Plain(*byte)))?)
}

// What follows a percent sign: a column, and bytes that stand for themselves.
#[tactic(auto, unfolding(crate::specs::Format::part_in))]
fn read_part(text: &[u8]) -> Option<(Piece, &[u8])>
    ensures { part_in text.now ≡ option_map (λ part. part.0 ∷ plain part.1.now) result }
{
    match text {
        [] => None,
        [b'.', text @ ..] => read_column(true, text),
        _ => read_column(false, text),
    }
}

// A column behind its dot, and the bytes that follow it.
#[tactic(auto, unfolding(crate::specs::Format::column_by))]
fn read_column(dot: bool, text: &[u8]) -> Option<(Piece, &[u8])>
    ensures { column_behind dot text.now ≡ option_map (λ part. part.0 ∷ plain part.1.now) result }
{
    let (digits, text) = split_digits(text);
    let width = read_width(digits)?;
    let (letter, bytes) = text.split_first()?;
    let column = column_of(*letter)?;
    Some((Piece::Column { column, width, dot }, bytes))
}

// The width that digits write, if there are any.
#[tactic(auto, unfolding(crate::specs::Format::width_of))]
fn read_width(digits: &[u8]) -> Option<Option<Ranged<1, 1024>>>
    ensures { result ≡ width_of digits.now }
{
    if digits.is_empty() {
        return Some(None);
    }
    let width = parse_number(digits, 10, 1024)?;
    if width >= 1 {
        Some(Some(Ranged::new(width)))
    } else {
        None
    }
}

// The column of a letter.
#[tactic(auto, unfolding(crate::specs::Format::column_of))]
fn column_of(letter: u8) -> Option<JobColumn>
    ensures { result ≡ column_of letter }
{
    match letter {
        b'i' => Some(JobColumn::Id),
        b'P' => Some(JobColumn::Partition),
        b'j' => Some(JobColumn::JobName),
        b'u' => Some(JobColumn::User),
        b'a' => Some(JobColumn::Account),
        b'q' => Some(JobColumn::Qos),
        b't' => Some(JobColumn::Code),
        b'T' => Some(JobColumn::State),
        b'M' => Some(JobColumn::Time),
        b'D' => Some(JobColumn::Nodes),
        b'R' => Some(JobColumn::Place),
        b'S' => Some(JobColumn::Start),
        b'Q' => Some(JobColumn::Priority),
        b'l' => Some(JobColumn::Limit),
        b'C' => Some(JobColumn::Cpus),
        _ => None,
    }
}
