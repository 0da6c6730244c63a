//! The way up from an association to root.

ghost use Rattle.std.specs.Prelude.{◌≡◌, ◌<◌, ◌^◌, ℕ, length, Some};
ghost use Rattle.run_limits.specs.Accounts.{above};

use crate::record::AssocRecord;
use arrayvec::ArrayVec;

// How far up the tree goes at most.
const GREATEST_DEPTH: usize = 16;

/// The places on the way up to root from an association, which is the first of them.
#[tactic(auto, using(crate::proofs::Way::above_begins))]
pub fn way_up(records: &[AssocRecord], place: u32) -> ArrayVec<u32, GREATEST_DEPTH>
    ensures { result.items ≡ above records.now place }
{
    let mut places = ArrayVec::new();
    let mut next = Some(place);
    for _ in 0..GREATEST_DEPTH {
        let Some(place) = next else {
            return places;
        };
        let Some(assoc) = records.get(place as usize) else {
            return places;
        };
        places.push(place);
        next = assoc.conf.parent;
    }
    places
}
