//! Numbers.

ghost use Rattle.std.specs.Prelude.{◌≡◌};
ghost use Rattle.text_values.specs.Numbers.{number_in, u32_in};

use plain_data::ranged::{LongRanged, Ranged};
use small_texts::digits::parse_number;

/// A number of at most ten digits within its range.
#[tactic(auto, unfolding(crate::specs::Numbers::number_in))]
pub fn read_number<const LEAST: u32, const MOST: u32>(text: &[u8]) -> Option<Ranged<LEAST, MOST>>
    ensures { result ≡ number_in LEAST MOST text.now }
{
    let number = parse_number(text, 10, u64::from(MOST))?;
    if u64::from(LEAST) <= number {
        Some(Ranged::new(number))
    } else {
        None
    }
}

/// A number of at most ten digits within its range, whose end may be above what 32 bits hold.
#[tactic(auto, unfolding(crate::specs::Numbers::number_in))]
pub fn read_long_number<const LEAST: u64, const MOST: u64>(
    text: &[u8],
) -> Option<LongRanged<LEAST, MOST>>
    ensures { result ≡ number_in LEAST MOST text.now }
{
    let number = parse_number(text, 10, MOST)?;
    if LEAST <= number {
        Some(LongRanged::new(number))
    } else {
        None
    }
}

/// Any number that 32 bits hold, in at most ten digits.
pub fn read_u32(text: &[u8]) -> Option<u32>
    ensures { result ≡ u32_in text.now }
{
    let number = parse_number(text, 10, 4_294_967_295)?;
    Some(number as u32)
}
