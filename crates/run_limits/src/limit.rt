//! A limit, and what is above it.

ghost use Rattle.std.specs.Prelude.{◌≡◌, ◌+◌};
ghost use Rattle.run_limits.specs.Limits.{is_above};

use plain_data::ranged::LongRanged;

/// A number of jobs or of processors, as the association file gives it. "Flat file" in sacctmgr(1).
pub type Limit = LongRanged<0, 9999999999>;

/// Whether so many and so many more are above a limit; without a limit they aren't.
pub fn is_above(limit: Option<Limit>, counted: u64, more: u64) -> bool
    ensures { result ≡ is_above limit (counted + more) }
{
    let Some(limit) = limit else {
        return false;
    };
    match counted.checked_add(more) {
        Some(sum) => limit.get() < sum,
        None => true,
    }
}
