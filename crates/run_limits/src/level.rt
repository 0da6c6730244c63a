//! The Level FS of an association.

ghost use Rattle.std.specs.Prelude.{◌<◌, ◌^◌};

use plain_data::Ratio;

// A fraction of numbers that can be compared.
#[derive(Clone, Copy, Debug)]
pub(crate) struct Fraction {
    pub(crate) ratio: Ratio,
    pub(crate) ghost num: { ratio.num < 2 ^ 60 },
    pub(crate) ghost den: { ratio.den < 2 ^ 68 },
    pub(crate) ghost positive: { 0 < ratio.den },
}

// Nothing of no shares, everything of no usage, else a fraction.
#[derive(Clone, Copy, Debug)]
pub(crate) enum LevelFs {
    Least,
    Fraction(Fraction),
    Top,
}
