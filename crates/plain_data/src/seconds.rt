//! Seconds: those of requests, those that are printed, and those that the rules on plans name.

use crate::ranged::LongRanged;

/// The moment of a request, in seconds since 1970: the last one is in the year 9892 (own).
pub type Moment = LongRanged<0, 250000000000>;

/// A second that can be printed as a moment, in seconds since 1970: up to the end of the year 9999.
pub type Second = LongRanged<0, 253402300799>;

/// The second before which a reservation ends: at most 36,500 days after the last moment (own).
pub type ReservationEnd = LongRanged<0, 253153600000>;

/// The last second at which a start is tried (own): the last moment of a request, and the longest `bf_window` after it.
pub const LAST_START: u64 = 250_002_592_000;

/// The second at which what has no end is taken to end (own). No length of time is above it.
pub const FOREVER: u64 = 1_000_000_000_000;
