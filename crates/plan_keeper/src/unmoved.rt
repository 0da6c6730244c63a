//! Whether each job of a new list keeps what it had in an older plan: its start, or that it has none.

ghost use Rattle.std.specs.Prelude.{◌≡◌, ◌↔◌, ◌≤◌, ◌<◌, ◌+◌, Bool, true, length, slice_index_or, option_copied, IfOk, IfSome, All};
ghost use Rattle.plain_data.specs.declared.seconds.TheConstants.{LAST_START};
ghost use Rattle.resource_profile.specs.declared.Hold.{Hold as AHold};
ghost use Rattle.backfill_planner.specs.declared.job.Barred.{Barred as ATime};
ghost use Rattle.backfill_planner.specs.declared.job.PlanJob.{PlanJob as AJob};
ghost use Rattle.backfill_planner.specs.Placements.{IsOnRooms};
ghost use Rattle.backfill_planner.specs.Plans.{holds_of};
ghost use Rattle.backfill_planner.specs.Staying.{IsOutside};
ghost use Rattle.plan_keeper.specs.Steady.{IsSameFrom};
ghost use Rattle.plan_keeper.specs.Unmoved.{BeginAlike, CanStandStill, AreStanding, HasSamePlan};

use crate::laws::planner_laws;
use crate::same_job::{is_same_from, tell_ends_in_time, tell_windows};
use crate::same_plan::{are_same_holds, are_same_rooms};
use crate::staying::window_end;
use backfill_planner::{Barred, Base, Placed, PlanJob, Planned};
use plain_data::seconds::LAST_START;
use resource_profile::Hold;
use small_texts::memory_error::Memory;
use std::alloc::Global;

// How far the jobs of the new list keep what they had.
#[derive(Drop)]
struct Standing {
    // How many do.
    index: usize,
    // How many placements the first of them have, for each number of these.
    counts: Vec<usize>,
    // Whether nothing that is held so far ends behind the old horizon and up to the new one.
    is_quiet: bool,
}

// Whether the second is none of those after `last` and up to `hi`.
fn is_outside(second: u64, last: u64, hi: u64) -> bool
    ensures { result ≡ true → IsOutside last hi second }
{
    second <= last || hi < second
}

// Whether none of these ends after `last` and up to `hi`.
fn no_hold_ends(holds: &[Hold], last: u64, hi: u64) -> bool
    ensures { result ≡ true → All (λ (hold : AHold). IsOutside last hi hold.until) holds.now }
{
    for hold in holds {
        if !is_outside(hold.until, last, hi) {
            return false;
        }
    }
    true
}

// Whether none of these ends after `last` and up to `hi`.
fn no_time_ends(times: &[Barred], last: u64, hi: u64) -> bool
    ensures { result ≡ true → All (λ (time : ATime). IsOutside last hi time.until) times.now }
{
    for time in times {
        if !is_outside(time.until, last, hi) {
            return false;
        }
    }
    true
}

// Whether what the job holds, if it is placed, doesn't end after `last` and up to `hi`.
fn ends_outside(placed: Option<&Placed>, job: &PlanJob, last: u64, hi: u64) -> bool
    ensures { result ≡ true
        → All (λ (hold : AHold). IsOutside last hi hold.until) (holds_of job.now (option_copied placed.entry)) }
{
    match placed {
        Some(placed) => {
            placed.start <= LAST_START && is_outside(window_end(job, placed.start), last, hi)
        }
        None => true,
    }
}

// Whether the job keeps the start that it had, or stays without one.
fn stands(
    placed: Option<&Placed>,
    job: &PlanJob,
    is_quiet: bool,
    now: u64,
    last: u64,
    hi: u64,
) -> bool
    ensures { result ≡ true → CanStandStill (option_copied placed.entry) job.now is_quiet now last hi }
{
    match placed {
        Some(placed) => now <= placed.start && placed.start <= hi,
        None => is_quiet && no_time_ends(job.barred.as_slice(), last, hi),
    }
}

// Whether both plans begin with the same rooms and holds.
fn begin_alike(old: &Base, base: &Base) -> bool
    ensures { result ≡ true → BeginAlike old.now base.now }
{
    are_same_rooms(base.rooms.as_slice(), old.rooms.as_slice())
        && are_same_holds(base.holds.as_slice(), old.holds.as_slice())
}

// Before the first job.
fn first_standing(
    alloc: Global,
    old: &Planned,
    base: &Base,
    ranked: &[PlanJob],
    now: u64,
) -> Result<Standing, Memory>
    requires alike { BeginAlike old.now.base base.now }
    ensures { IfOk result (λ standing. AreStanding old.now base.now ranked.now now 0
        standing.index standing.counts.items standing.is_quiet) }
{
    let mut counts = Vec::with_capacity(alloc, ranked.len())?;
    counts.push(0)?;
    let last = old.base().horizon;
    Ok(Standing {
        index: 0,
        counts,
        is_quiet: now <= last && no_hold_ends(base.holds.as_slice(), last, base.horizon),
    })
}

// Whether the next job of the new list is the one at this place of the old list.
fn is_next(old: &[PlanJob], before: usize, ranked: &[PlanJob], index: usize, now: u64) -> bool
    requires { before < length old.now }
    ensures there { result ≡ true → index < length ranked.now }
    ensures is { result ≡ true → (d : AJob) → IsSameFrom now
        (slice_index_or old.now before d) (slice_index_or ranked.now index d) }
{
    index < ranked.len() && is_same_from(&old[before], &ranked[index], now)
}

// Whether it goes on so behind one job more of the old list: the next one of the new list is this job and keeps what it had,
// or this job isn't there any more and had no start.
fn pass(
    old: &Planned,
    before: usize,
    standing: &mut Standing,
    base: &Base,
    ranked: &[PlanJob],
    now: u64,
) -> Result<bool, Memory>
    requires alike { BeginAlike old.now.base base.now }
    requires later { old.now.moment ≤ now }
    requires there { before < length old.now.ranked }
    requires standing { AreStanding old.now base.now ranked.now now before
        standing.old.index standing.old.counts.items standing.old.is_quiet }
    ensures { IfOk result (λ stands. stands ≡ true → AreStanding old.now base.now ranked.now now (before + 1)
        standing.new.index standing.new.counts.items standing.new.is_quiet) }
{
    planner_laws();
    let placed = old.placement_of(before);
    if !is_next(old.ranked(), before, ranked, standing.index, now) {
        return Ok(placed.is_none());
    }
    let job = &ranked[standing.index];
    tell_ends_in_time(job);
    tell_windows(job);
    let last = old.base().horizon;
    let hi = base.horizon;
    if !stands(placed, job, standing.is_quiet, now, last, hi) {
        return Ok(false);
    }
    standing.is_quiet = standing.is_quiet && ends_outside(placed, job, last, hi);
    standing.counts.push(old.count_up_to(before))?;
    standing.index += 1;
    Ok(true)
}

// What stands once the old list is passed, where it all does.
fn pass_all(
    alloc: Global,
    old: &Planned,
    base: &Base,
    ranked: &[PlanJob],
    now: u64,
) -> Result<Option<Standing>, Memory>
    requires alike { BeginAlike old.now.base base.now }
    requires later { old.now.moment ≤ now }
    ensures { IfOk result (λ found. IfSome found (λ standing. AreStanding old.now base.now ranked.now now
        (length old.now.ranked) standing.index standing.counts.items standing.is_quiet)) }
{
    let mut standing = first_standing(alloc, old, base, ranked, now)?;
    for before in 0..old.ranked().len() {
        if !pass(old, before, &mut standing, base, ranked, now)? {
            return Ok(None);
        }
    }
    Ok(Some(standing))
}

/// How many placements the first jobs have, for each number of these, where both plans begin with the same and each job
/// keeps what it had in the old one: its start, or that it has none. Only such as had no start may have gone. Linear in the
/// rooms and holds of the base and the jobs, their nodes and times.
pub fn counts_where_all_stand(
    alloc: Global,
    old: &Planned,
    base: &Base,
    ranked: &[PlanJob],
    now: u64,
) -> Result<Option<Vec<usize>>, Memory>
    requires later { old.now.moment ≤ now }
    ensures { IfOk result (λ found. IfSome found (λ counts.
        HasSamePlan old.now base.now ranked.now now counts.items)) }
{
    if !begin_alike(old.base(), base) {
        return Ok(None);
    }
    match pass_all(alloc, old, base, ranked, now)? {
        Some(standing) => {
            if standing.index < ranked.len() {
                return Ok(None);
            }
            Ok(Some(standing.counts))
        }
        None => Ok(None),
    }
}
