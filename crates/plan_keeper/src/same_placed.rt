//! Whether two placements are one.

ghost use Rattle.std.specs.Prelude.{◌≡◌, ◌↔◌, true, option_copied};

use backfill_planner::{Placed, Share};

// Whether these are one part.
fn is_same_share(one: &Share, other: &Share) -> bool
    ensures { (result ≡ true) ↔ (one.now ≡ other.now) }
{
    one == other
}

// Whether these are the same parts, in one order.
fn are_same_shares(one: &[Share], other: &[Share]) -> bool
    ensures { (result ≡ true) ↔ (one.now ≡ other.now) }
{
    if one.len() != other.len() {
        return false;
    }
    for place in 0..one.len() {
        if !is_same_share(&one[place], &other[place]) {
            return false;
        }
    }
    true
}

// Whether these are one placement.
fn is_same_placed(one: &Placed, other: &Placed) -> bool
    ensures { (result ≡ true) ↔ (one.now ≡ other.now) }
{
    one.id == other.id
        && one.start == other.start
        && are_same_shares(one.parts.as_slice(), other.parts.as_slice())
}

/// Whether these are one placement, or both none. Linear in their parts.
pub fn is_same_placement(one: Option<&Placed>, other: &Option<Placed>) -> bool
    ensures { (result ≡ true) ↔ (option_copied one.entry ≡ other.now) }
{
    match one {
        Some(one) => match other {
            Some(other) => is_same_placed(one, other),
            None => false,
        },
        None => other.is_none(),
    }
}
