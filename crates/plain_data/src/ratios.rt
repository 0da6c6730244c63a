//! Fractions, and shares of a weight.

ghost use Rattle.std.specs.Prelude.{◌≡◌, ◌<◌, ◌≤◌, ◌^◌};
ghost use Rattle.plain_data.specs.Ratios.{ratio_cmp, share_of};

use std::cmp::Ordering;

/// The fraction `num` / `den`.
#[derive(Clone, Copy, Debug)]
pub struct Ratio {
    pub num: u128,
    pub den: u128,
}

/// The order of two fractions.
pub fn compare(a: &Ratio, b: &Ratio) -> Ordering
    requires a_num { a.now.num < 2 ^ 60 }
    requires a_den { (0 < a.now.den) × (a.now.den < 2 ^ 68) }
    requires b_num { b.now.num < 2 ^ 60 }
    requires b_den { (0 < b.now.den) × (b.now.den < 2 ^ 68) }
    ensures { result ≡ ratio_cmp a.now b.now }
{
    (a.num * b.den).cmp(&(b.num * a.den))
}

/// The part of the weight that `num` of `den` are, rounded down: the terms of the multifactor priority.
pub fn scaled(weight: u32, num: u64, den: u64) -> u64
    requires { num ≤ den }
    ensures value { result ≡ share_of weight num den }
    ensures bound { result ≤ weight }
{
    if den == 0 {
        return 0;
    }
    (u128::from(weight) * u128::from(num) / u128::from(den)) as u64
}
