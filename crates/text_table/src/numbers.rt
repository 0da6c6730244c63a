// Arguments that are numbers.

use plain_data::ranged::{LongRanged, Ranged};
use table_lines::answer::Unanswered;
use table_lines::fields::{narrow_number, number};

/// A number of 32 bits, or `-`.
pub fn number_or_none(text: &[u8]) -> Result<Option<u32>, Unanswered> {
    if text == b"-".as_slice() {
        return Ok(None);
    }
    let number = narrow_number(text)?;
    Ok(Some(number))
}

/// A number within a range.
pub fn ranged<const LEAST: u32, const MOST: u32>(
    text: &[u8],
) -> Result<Ranged<LEAST, MOST>, Unanswered> {
    let number = number(text)?;
    Ranged::try_new(number).ok_or(Unanswered::Arguments)
}

/// A number within a range, whose end may be above what 32 bits hold.
pub fn long_ranged<const LEAST: u64, const MOST: u64>(
    text: &[u8],
) -> Result<LongRanged<LEAST, MOST>, Unanswered> {
    let number = number(text)?;
    LongRanged::try_new(number).ok_or(Unanswered::Arguments)
}
