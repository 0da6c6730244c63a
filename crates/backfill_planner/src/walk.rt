// The walk from the last of those that might go to the first: each is given back where the job still fits.
ghost use Rattle.std.specs.Prelude.{◌≡◌, ◌≤◌, [], IfOk, IfSome, length};
ghost use Rattle.std.specs.List.{flat_map};
ghost use Rattle.plain_data.specs.declared.seconds.TheConstants.{LAST_START};
ghost use Rattle.resource_profile.specs.Profiles.{AreWithin};
ghost use Rattle.resource_profile.specs.declared.Hold.{Hold as AHold};
ghost use Rattle.backfill_planner.specs.Placements.{IsOnRooms};
ghost use Rattle.backfill_planner.specs.Going as spec;
ghost use Rattle.backfill_planner.specs.Sufficing.{PickLaws};

use crate::fitting::give_back;
use crate::{Base, PlanJob};
use plain_data::items::Items;
use resource_profile::{Hold, Profile};
use small_texts::memory_error::Memory;
use std::alloc::Global;

// How many are given back by one test, at the most.
const MOST: u32 = 16;

// What these hold, one after the other.
fn all_holds(alloc: Global, going: &[Items<Hold>]) -> Result<Vec<Hold>, Memory>
    ensures { IfOk result (λ holds. holds.items ≡ flat_map (λ holds. holds) going.now) }
{
    let mut all = Vec::new(alloc);
    for holds in going {
        all.extend_from_slice(holds.as_slice())?;
    }
    Ok(all)
}

// The places of those that go, upwards: of all together, which suffice, each is given back, from the last to the first,
// where the rest still suffices. The profile holds what stays.
pub(crate) fn needed(
    alloc: Global,
    profile: &mut Profile,
    base: &Base,
    job: &PlanJob,
    going: &[Items<Hold>],
    count: u32,
    now: u64,
) -> Result<Vec<u32>, Memory>
    requires laws { PickLaws }
    requires count { count ≡ length going.now }
    requires rooms { profile.old.rooms ≡ base.now.rooms }
    requires holds { profile.old.holds ≡ base.now.holds }
    requires nodes { IsOnRooms base.now.rooms job.now }
    requires now { now ≤ LAST_START }
    requires within { AreWithin base.now.rooms (spec.held_without base.now.holds going.now []) }
    ensures { IfOk result (λ gone.
        gone.items ≡ spec.needed (spec.suffices base.now.rooms base.now.holds going.now job.now now) count []) }
{
    let mut gone = Vec::new(alloc);
    let mut first = count;
    let mut most = 1;
    while first > 0 {
        let low = first - first.min(most);
        let _ = profile.holds();
        let holds = all_holds(alloc, &going[low as usize..first as usize])?;
        if give_back(alloc, profile, base, job, &holds, now)? {
            first = low;
            most = (2 * most).min(MOST);
        } else if first - low > 1 {
            most = (first - low) / 2;
        } else {
            gone.push(low)?;
            first = low;
        }
    }
    gone.reverse();
    Ok(gone)
}
