//! Numbers that keep a range.

ghost use Rattle.std.specs.Prelude.{◌≡◌, ◌≤◌, ◌↔◌, IsSome, IfSome};

use std::alloc::AllocError;
use std::marker::Model;

/// A number from `LEAST` to `MOST`, in four bytes. A contract sees it as the number (own).
#[derive(Drop, PartialEq, Eq, Debug)]
pub struct Ranged<const LEAST: u32, const MOST: u32> {
    number: u32,
}

impl<const LEAST: u32, const MOST: u32> Model for Ranged<LEAST, MOST> {
    ghost use Rattle.std.specs.Prelude.{ℕ, ◌≤◌};

    ghost Value = { ℕ };

    ghost view = { λ r. r.number };

    ghost invariant = { λ r. (LEAST ≤ r.number) × (r.number ≤ MOST) };

    ghost inverse = { λ n. record { number = n } };
}

impl<const LEAST: u32, const MOST: u32> Clone for Ranged<LEAST, MOST> {
    fn clone(&self) -> Result<Self, AllocError> {
        Ok(*self)
    }
}

impl<const LEAST: u32, const MOST: u32> Copy for Ranged<LEAST, MOST> {}

impl<const LEAST: u32, const MOST: u32> Ranged<LEAST, MOST> {
    /// This number, which the caller has seen to be in the range.
    pub fn new(number: u64) -> Self
        requires { (LEAST ≤ number) × (number ≤ MOST) }
        ensures { result ≡ number }
    {
        Ranged {
            number: number as u32,
        }
    }

    /// The number, where it is in the range: the test that `new` leaves to its caller.
    pub fn try_new(number: u64) -> Option<Self>
        ensures some { IsSome result ↔ ((LEAST ≤ number) × (number ≤ MOST)) }
        ensures value { IfSome result (λ ranged. ranged ≡ number) }
    {
        if u64::from(LEAST) <= number && number <= u64::from(MOST) {
            Some(Ranged {
                number: number as u32,
            })
        } else {
            None
        }
    }

    /// The number.
    pub fn get(&self) -> u64
        ensures value { result ≡ self.now }
        ensures range { (LEAST ≤ result) × (result ≤ MOST) }
    {
        u64::from(self.number)
    }
}

/// A number from `LEAST` to `MOST`, where `MOST` may be above what four bytes hold. A contract sees it as the number
/// (own).
#[derive(Drop, PartialEq, Eq, Debug)]
pub struct LongRanged<const LEAST: u64, const MOST: u64> {
    number: u64,
}

impl<const LEAST: u64, const MOST: u64> Model for LongRanged<LEAST, MOST> {
    ghost use Rattle.std.specs.Prelude.{ℕ, ◌≤◌};

    ghost Value = { ℕ };

    ghost view = { λ r. r.number };

    ghost invariant = { λ r. (LEAST ≤ r.number) × (r.number ≤ MOST) };

    ghost inverse = { λ n. record { number = n } };
}

impl<const LEAST: u64, const MOST: u64> Clone for LongRanged<LEAST, MOST> {
    fn clone(&self) -> Result<Self, AllocError> {
        Ok(*self)
    }
}

impl<const LEAST: u64, const MOST: u64> Copy for LongRanged<LEAST, MOST> {}

impl<const LEAST: u64, const MOST: u64> LongRanged<LEAST, MOST> {
    /// This number, which the caller has seen to be in the range.
    pub fn new(number: u64) -> Self
        requires { (LEAST ≤ number) × (number ≤ MOST) }
        ensures { result ≡ number }
    {
        LongRanged { number }
    }

    /// The number, where it is in the range: the test that `new` leaves to its caller.
    pub fn try_new(number: u64) -> Option<Self>
        ensures some { IsSome result ↔ ((LEAST ≤ number) × (number ≤ MOST)) }
        ensures value { IfSome result (λ ranged. ranged ≡ number) }
    {
        if LEAST <= number && number <= MOST {
            Some(LongRanged { number })
        } else {
            None
        }
    }

    /// The number.
    pub fn get(&self) -> u64
        ensures value { result ≡ self.now }
        ensures range { (LEAST ≤ result) × (result ≤ MOST) }
    {
        self.number
    }
}
