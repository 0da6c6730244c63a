//! Numbers.

ghost use Rattle.std.specs.Prelude.{◌≡◌, decimal};
ghost use Rattle.state_save.specs.Meanings.{u32_in, u64_in, ranged_in};
ghost use Rattle.state_save.specs.Fitting.{FitsU32, FitsU64, IsWithin};

use crate::word::Word;
use plain_data::ranged::{LongRanged, Ranged};
use small_texts::digits::parse_number;
use small_texts::memory_error::Memory;
use small_texts::pieces::push_number;
use std::alloc::Global;
use text_values::refusal::ValueRefusal;

/// A number that 32 bits hold, in at most twenty digits.
pub fn read_u32(text: &[u8]) -> Option<u32>
    ensures { result ≡ u32_in text.now }
{
    let number = parse_number(text, 20, 4_294_967_295)?;
    Some(number as u32)
}

/// A number that 64 bits hold, in at most twenty digits.
pub fn read_u64(text: &[u8]) -> Option<u64>
    ensures { result ≡ u64_in text.now }
{
    parse_number(text, 20, u64::MAX)
}

/// A number of a range, in at most twenty digits.
#[tactic(auto, unfolding(crate::specs::Meanings::ranged_in))]
pub fn read_ranged<const LEAST: u32, const MOST: u32>(text: &[u8]) -> Option<Ranged<LEAST, MOST>>
    ensures { result ≡ ranged_in LEAST MOST text.now }
{
    let number = parse_number(text, 20, u64::from(MOST))?;
    if u64::from(LEAST) <= number {
        Some(Ranged::new(number))
    } else {
        None
    }
}

// A number of a range whose end may be above what 32 bits hold, in at most twenty digits.
#[tactic(auto, unfolding(crate::specs::Meanings::ranged_in))]
fn read_long_ranged<const LEAST: u64, const MOST: u64>(
    text: &[u8],
) -> Option<LongRanged<LEAST, MOST>>
    ensures { result ≡ ranged_in LEAST MOST text.now }
{
    let number = parse_number(text, 20, MOST)?;
    if LEAST <= number {
        Some(LongRanged::new(number))
    } else {
        None
    }
}

impl Word for u32 {
    ghost text = { decimal };

    ghost meaning = { u32_in };

    ghost fits = { FitsU32 };

    fn push_word(&self, out: &mut Vec<u8>) -> Result<(), Memory> {
        push_number(out, u64::from(*self))
    }

    fn read_word(_alloc: Global, word: &[u8]) -> Result<u32, ValueRefusal> {
        read_u32(word).ok_or(ValueRefusal::BadValue)
    }

    #[tactic(auto, using(crate::proofs::Values::u32_sound))]
    fn tell_fits() {}
}

impl Word for u64 {
    ghost text = { decimal };

    ghost meaning = { u64_in };

    ghost fits = { FitsU64 };

    fn push_word(&self, out: &mut Vec<u8>) -> Result<(), Memory> {
        push_number(out, *self)
    }

    fn read_word(_alloc: Global, word: &[u8]) -> Result<u64, ValueRefusal> {
        read_u64(word).ok_or(ValueRefusal::BadValue)
    }

    #[tactic(auto, using(crate::proofs::Values::u64_sound))]
    fn tell_fits() {}
}

impl<const LEAST: u32, const MOST: u32> Word for Ranged<LEAST, MOST> {
    ghost text = { decimal };

    ghost meaning = { ranged_in LEAST MOST };

    ghost fits = { IsWithin LEAST MOST };

    fn push_word(&self, out: &mut Vec<u8>) -> Result<(), Memory> {
        push_number(out, self.get())
    }

    fn read_word(_alloc: Global, word: &[u8]) -> Result<Ranged<LEAST, MOST>, ValueRefusal> {
        read_ranged(word).ok_or(ValueRefusal::BadValue)
    }

    #[tactic(auto, using(crate::proofs::Values::ranged_sound))]
    fn tell_fits() {}
}

impl<const LEAST: u64, const MOST: u64> Word for LongRanged<LEAST, MOST> {
    ghost text = { decimal };

    ghost meaning = { ranged_in LEAST MOST };

    ghost fits = { IsWithin LEAST MOST };

    fn push_word(&self, out: &mut Vec<u8>) -> Result<(), Memory> {
        push_number(out, self.get())
    }

    fn read_word(_alloc: Global, word: &[u8]) -> Result<LongRanged<LEAST, MOST>, ValueRefusal> {
        read_long_ranged(word).ok_or(ValueRefusal::BadValue)
    }

    #[tactic(auto, using(crate::proofs::Values::ranged_sound))]
    fn tell_fits() {}
}
