//! The number that a script is drawn from, as a word names it.

ghost use Rattle.std.specs.Prelude.{◌≡◌};
ghost use Rattle.generator.specs.Generated.{number_of};

use small_texts::digits::parse_number;

// The greatest that follows another.
const GREATEST: u64 = 2_147_483_647;

/// The number that the word names: 1 to 10 digits, leading zeros among them (own). None of any other word.
pub fn read_number(word: &[u8]) -> Option<u32>
    ensures { result ≡ number_of word.now }
{
    match parse_number(word, 10, GREATEST) {
        Some(number) => Some(number as u32),
        None => None,
    }
}
