//! Preemption: which of the running jobs that might go do go, so that a job that ranks higher can begin now.

ghost use Rattle.std.specs.Prelude.{◌≡◌, ◌≤◌, [], Some, None, IfOk, IfSome, IfNone, length};
ghost use Rattle.plain_data.specs.declared.seconds.TheConstants.{LAST_START};
ghost use Rattle.resource_profile.specs.Profiles.{AreWithin};
ghost use Rattle.backfill_planner.specs.Placements.{IsOnRooms};
ghost use Rattle.backfill_planner.specs.Going.{held_without, victims_of};

use crate::{Base, PlanJob};
use plain_data::items::Items;
use resource_profile::{Hold, Profile};
use small_texts::memory_error::Memory;
use std::alloc::Global;

/// The places of those among `going` that go for the job, upwards, where it fits at this very moment once they do.
/// `base` has the holds that stay, `going` those of each job that might go, the lowest in rank first; the base's horizon
/// means nothing here. As many of them, from the first on, are taken as suffice, and of these each is given back, from
/// the last to the first, where the rest still suffices (own); None where even all of them don't suffice. More than
/// 4,294,967,295 that might go are too many to keep.
///
/// It keeps one profile, to which holds are given back and from which they are taken again. A test looks once at each
/// of the job's nodes and at what begins or ends there in the job's time. Up to 16 are given back by one test: where v
/// of n go, these are about n / 16 + 20 v tests, and never more than 2 n.
pub fn victims(
    alloc: Global,
    job: &PlanJob,
    base: &Base,
    going: &[Items<Hold>],
    now: u64,
) -> Result<Option<Vec<u32>>, Memory>
    requires nodes { IsOnRooms base.now.rooms job.now }
    requires now { now ≤ LAST_START }
    requires within { AreWithin base.now.rooms (held_without base.now.holds going.now []) }
    ensures some { IfOk result (λ gone. IfSome gone (λ gone.
        victims_of base.now.rooms base.now.holds going.now job.now now ≡ Some gone.items)) }
    ensures none { IfOk result (λ gone. IfNone gone
        (victims_of base.now.rooms base.now.holds going.now job.now now ≡ None)) }
{
    crate::victim_laws::pick_laws();
    let Ok(count) = u32::try_from(going.len()) else {
        return Err(Memory);
    };
    let mut profile = Profile::with_holds(alloc, base.rooms.as_slice(), base.holds.as_slice())?;
    if !crate::fitting::fits(alloc, &profile, base, job, now)? {
        return Ok(None);
    }
    let gone = crate::walk::needed(alloc, &mut profile, base, job, going, count, now)?;
    Ok(Some(gone))
}
