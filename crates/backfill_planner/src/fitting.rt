// Whether the job fits beside what a profile holds, and what a profile holds given back and taken again.
ghost use Rattle.std.specs.Prelude.{◌≡◌, ◌≤◌, ◌++◌, ◌+◌, ℕ, IfOk, OnOk, is_some, sum_by};
ghost use Rattle.std.specs.Bool.{OnTrue, OnFalse};
ghost use Rattle.plain_data.specs.declared.seconds.TheConstants.{LAST_START};
ghost use Rattle.resource_profile.specs.Profiles.{AreWithin};
ghost use Rattle.resource_profile.specs.declared.Hold.{Hold as AHold};
ghost use Rattle.backfill_planner.specs.Placements.{IsOnRooms};
ghost use Rattle.backfill_planner.specs.Plans.{placement_at};
ghost use Rattle.backfill_planner.specs.Walking.{AreAlike, AreAmong};

use crate::{Base, PlanJob, place};
use resource_profile::{Hold, Profile, start};
use small_texts::memory_error::Memory;
use std::alloc::Global;

// Whether some set of the job's nodes fits it at the moment beside the profile's holds.
pub(crate) fn fits(
    alloc: Global,
    profile: &Profile,
    base: &Base,
    job: &PlanJob,
    now: u64,
) -> Result<bool, Memory>
    requires rooms { profile.now.rooms ≡ base.now.rooms }
    requires nodes { IsOnRooms base.now.rooms job.now }
    requires now { now ≤ LAST_START }
    ensures { IfOk result (λ fits. fits ≡ is_some (placement_at base.now.rooms profile.now.holds job.now now)) }
{
    let mut steps = start();
    let placed = place(alloc, profile, base, job, now, now, &mut steps)?;
    Ok(placed.is_some())
}

// Adds the holds.
fn add_holds(profile: &mut Profile, holds: &[Hold]) -> Result<(), Memory>
    requires { AreWithin profile.old.rooms (profile.old.holds ++ holds.now) }
    ensures rooms { profile.new.rooms ≡ profile.old.rooms }
    ensures holds { OnOk result (profile.new.holds ≡ profile.old.holds ++ holds.now) }
{
    for hold in holds {
        profile.hold(hold)?;
    }
    Ok(())
}

// Drops the holds.
fn drop_holds(profile: &mut Profile, holds: &[Hold])
    requires { AreAmong holds.now profile.old.holds }
    ensures rooms { profile.new.rooms ≡ profile.old.rooms }
    ensures holds { (amount : AHold → ℕ)
        → sum_by amount profile.old.holds ≡ sum_by amount holds.now + sum_by amount profile.new.holds }
{
    for hold in holds {
        profile.drop_hold(hold);
    }
}

// Gives the holds back where the job fits beside them too, and tells whether it does; else all stays held as it was.
pub(crate) fn give_back(
    alloc: Global,
    profile: &mut Profile,
    base: &Base,
    job: &PlanJob,
    holds: &[Hold],
    now: u64,
) -> Result<bool, Memory>
    requires rooms { profile.old.rooms ≡ base.now.rooms }
    requires nodes { IsOnRooms base.now.rooms job.now }
    requires now { now ≤ LAST_START }
    requires within { AreWithin base.now.rooms (profile.old.holds ++ holds.now) }
    ensures rooms { profile.new.rooms ≡ base.now.rooms }
    ensures fits { IfOk result (λ given.
        given ≡ is_some (placement_at base.now.rooms (profile.old.holds ++ holds.now) job.now now)) }
    ensures given { IfOk result (λ given. OnTrue given (profile.new.holds ≡ profile.old.holds ++ holds.now)) }
    ensures kept { IfOk result (λ given. OnFalse given (AreAlike profile.new.holds profile.old.holds)) }
{
    add_holds(profile, holds)?;
    if fits(alloc, profile, base, job, now)? {
        return Ok(true);
    }
    drop_holds(profile, holds);
    Ok(false)
}
