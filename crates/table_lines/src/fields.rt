// Arguments that are numbers or lists.
ghost use Rattle.std.specs.Prelude.{◌≡◌, map, ok_or, IfOk, Some};
ghost use Rattle.small_texts.specs.Digits.{number_within};
ghost use Rattle.small_texts.specs.Fields.{fields};
ghost use Rattle.table_lines.specs.Fields.{listed};

use crate::answer::Unanswered;
use small_texts::digits::parse_number;
use std::alloc::Global;

/// No argument is longer.
pub const LONGEST: usize = 1_000_000;

/// A number of 64 bits.
pub fn number(text: &[u8]) -> Result<u64, Unanswered>
    ensures { result ≡ ok_or (number_within 20 18446744073709551615 text.now) Unanswered.Arguments }
{
    parse_number(text, 20, u64::MAX).ok_or(Unanswered::Arguments)
}

/// A number of 32 bits.
pub fn narrow_number(text: &[u8]) -> Result<u32, Unanswered>
    ensures { result ≡ ok_or (number_within 20 4294967295 text.now) Unanswered.Arguments }
{
    match parse_number(text, 20, 4294967295) {
        Some(number) => Ok(number as u32),
        None => Err(Unanswered::Arguments),
    }
}

/// The parts of a text with a mark between two.
pub fn parts<'a>(alloc: Global, text: &'a [u8], mark: u8) -> Result<Vec<&'a [u8]>, Unanswered>
    ensures { IfOk result (λ parts. map (λ part. part.now) parts.items ≡ fields mark text.now) }
{
    Ok(text.split(|byte| *byte == mark).collect(alloc)?)
}

/// Numbers of 32 bits with a mark between two; none of an empty text.
pub fn narrow_numbers(alloc: Global, text: &[u8], mark: u8) -> Result<Vec<u32>, Unanswered>
    ensures { IfOk result (λ numbers. map Some numbers.items
        ≡ map (λ part. number_within 20 4294967295 part) (listed mark text.now)) }
{
    let mut numbers = Vec::new(alloc);
    if !text.is_empty() {
        for part in &parts(alloc, text, mark)? {
            numbers.push(narrow_number(part)?)?;
        }
    }
    Ok(numbers)
}
