// Plans of ranked jobs beside what is held.
ghost use Rattle.std.specs.Prelude.{◌≡◌, ◌<◌, length, All, IfOk};
ghost use Rattle.backfill_planner.specs.declared.job.PlanJob.{PlanJob};

use crate::jobs::jobs;
use crate::profiles::{held, rooms};
use backfill_planner::{Base, Placed, PlanJob, Planned, Share, plan as plan_jobs};
use plain_data::items::Items;
use plain_data::seconds::LAST_START;
use resource_profile::{NodeRoom, Profile, start};
use std::alloc::Global;
use table_lines::answer::{Unanswered, push};
use table_lines::fields::number;

// `NODE:TASKS/CPUS/MEM` for each part.
fn push_shares(out: &mut Vec<u8>, shares: &[Share]) -> Result<(), Unanswered> {
    for share in shares {
        let (node, tasks, cpus, mem) = (share.node, share.tasks, share.cpus, share.mem);
        push(out, &format_args!("{node}:{tasks}/{cpus}/{mem} "))?;
    }
    Ok(())
}

/// `ID@START`, and its parts, of each job that has a start, and then the steps.
pub fn plan_text(alloc: Global, placements: &[Placed], steps: u64) -> Result<Vec<u8>, Unanswered> {
    let mut out = Vec::new(alloc);
    for placed in placements {
        let (id, start) = (placed.id, placed.start);
        push(&mut out, &format_args!("{id}@{start} "))?;
        push_shares(&mut out, placed.parts.as_slice())?;
    }
    push(&mut out, &format_args!("in {steps}"))?;
    Ok(out)
}

/// What a plan begins with: the rooms with what the profile has of holds.
pub fn base(
    alloc: Global,
    rooms: Vec<NodeRoom>,
    profile: &Profile,
    horizon: u64,
) -> Result<Base, Unanswered>
    requires { profile.now.rooms ≡ rooms.items }
    ensures { IfOk result (λ base. base.rooms ≡ rooms.items) }
{
    if horizon > LAST_START {
        return Err(Unanswered::Arguments);
    }
    let holds = Vec::from_slice(alloc, profile.holds())?;
    Ok(Base {
        holds: Items::from_vec(holds),
        rooms: Items::from_vec(rooms),
        horizon,
    })
}

/// The plan of the jobs, in order of rank, and how many steps it took.
pub fn planned(
    alloc: Global,
    base: Base,
    ranked: Vec<PlanJob>,
    now: u64,
) -> Result<(Planned, u64), Unanswered>
    requires { All (λ (job : PlanJob). All (λ node. node < length base.rooms) job.nodes) ranked.items }
{
    let mut steps = start();
    let planned = plan_jobs(alloc, base, ranked, now, &mut steps)?;
    Ok((planned, steps.count()))
}

/// What the plan of a line begins with.
pub fn line_base(
    alloc: Global,
    rooms_text: &[u8],
    holds: &[u8],
    horizon: &[u8],
) -> Result<Base, Unanswered> {
    let horizon = number(horizon)?;
    let rooms = rooms(alloc, rooms_text)?;
    let profile = held(alloc, rooms.as_slice(), holds)?;
    base(alloc, rooms, &profile, horizon)
}

fn plan_from(alloc: Global, base: Base, jobs_text: &[u8], now: u64) -> Result<Vec<u8>, Unanswered> {
    let ranked = jobs(alloc, jobs_text, base.rooms.as_slice().len())?;
    let (planned, steps) = planned(alloc, base, ranked, now)?;
    plan_text(alloc, planned.placements(), steps)
}

/// The plan of the jobs of a line from the second `now` to the horizon. The words are the rooms, the horizon, `now`, the
/// jobs by rank, and what is held, if anything is.
pub fn plan(alloc: Global, words: &[&[u8]]) -> Result<Vec<u8>, Unanswered> {
    let (rooms_text, horizon, now, jobs_text, holds) = match *words {
        [rooms, horizon, now, jobs] => (rooms, horizon, now, jobs, b"".as_slice()),
        [rooms, horizon, now, jobs, holds] => (rooms, horizon, now, jobs, holds),
        _ => return Err(Unanswered::Arguments),
    };
    let now = number(now)?;
    let base = line_base(alloc, rooms_text, holds, horizon)?;
    plan_from(alloc, base, jobs_text, now)
}
