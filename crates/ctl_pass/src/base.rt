//! What a plan begins with.

ghost use Rattle.std.specs.Prelude.{◌≡◌, ◌≤◌, ◌++◌, All, IfOk, OnOk, length, flat_map, unwrap_or};
ghost use Rattle.job_table.specs.Awaiting.{ShowsAwaited, has_gone};
ghost use Rattle.job_table.specs.declared.record.JobRecord.{JobRecord};
ghost use Rattle.ctl_state.specs.Events.{those_left};
ghost use Rattle.ctl_state.specs.Soundness.{IsSound};
ghost use Rattle.ctl_state.specs.State.{state_of, last_moment};
ghost use Rattle.ctl_pass.specs.Limits;
ghost use Rattle.ctl_pass.specs.Readiness;

use crate::laws::what_a_pass_plans_is_sound;
use backfill_planner::Base;
use ctl_state::cluster::Cluster;
use ctl_state::holds::hold_end;
use ctl_state::planning::rooms_of;
use job_table::awaited::Awaited;
use job_table::jobs::has_gone;
use job_table::laws::who_is_awaited_stays;
use job_table::record::JobRecord;
use plain_data::CpuIds;
use plain_data::items::Items;
use resource_profile::Hold;
use small_texts::memory_error::Memory;
use std::alloc::Global;

fn count_of(cpus: &CpuIds) -> u32
    ensures { result ≡ length cpus.now }
{
    cpus.len() as u32
}

/// Adds what the job holds.
pub(crate) fn push_holds(now: u64, job: &JobRecord, holds: &mut Vec<Hold>) -> Result<(), Memory>
    requires started { unwrap_or job.now.started 0 ≤ last_moment }
    requires in_time { now ≤ last_moment }
    ensures { OnOk result (holds.new.items ≡ holds.old.items ++ Limits.holds_of_job now job.now) }
{
    let from = job.started.unwrap_or(0);
    let until = hold_end(now, job);
    for part in job.parts.as_slice() {
        holds.push(Hold {
            node: part.node,
            from,
            until,
            cpus: count_of(&part.cpus),
            mem: part.mem,
        })?;
    }
    Ok(())
}

// What those of the jobs hold that the first steps of a pass leave. One past its limit holds as long as one that
// completes.
fn holds_of(
    alloc: Global,
    age: u64,
    now: u64,
    awaited: &Awaited,
    jobs: &[JobRecord],
) -> Result<Vec<Hold>, Memory>
    requires started { All (λ (job : JobRecord). unwrap_or job.started 0 ≤ last_moment) jobs.now }
    requires in_time { now ≤ last_moment }
    ensures { IfOk result (λ holds. holds.items
        ≡ flat_map (Limits.holds_of_job now)
        (those_left (Limits.timed_out now) (has_gone age now awaited.now) jobs.now)) }
{
    let mut holds = Vec::new(alloc);
    for job in jobs {
        if !has_gone(age, now, awaited, job) {
            push_holds(now, job, &mut holds)?;
        }
    }
    Ok(holds)
}

/// What the plan of a pass begins with: the jobs are read as the pass's first steps leave them. Linear in nodes, jobs
/// and parts.
#[tactic(auto, unfolding(crate::specs::Readiness::base_of))]
pub(crate) fn base_of(
    alloc: Global,
    cluster: &Cluster,
    now: u64,
    awaited: &Awaited,
) -> Result<Base, Memory>
    requires sound { IsSound (state_of cluster.now) }
    requires raised { cluster.now.moment ≤ now }
    requires in_time { now ≤ last_moment }
    requires awaited { ShowsAwaited awaited.now cluster.now.jobs.records }
    ensures { IfOk result (λ base. base ≡ Readiness.base_of (Readiness.ready (state_of cluster.now) now) now) }
{
    what_a_pass_plans_is_sound();
    who_is_awaited_stays();
    let age = cluster.settings.min_job_age.get();
    let rooms = rooms_of(alloc, cluster.nodes.records())?;
    let holds = holds_of(alloc, age, now, awaited, cluster.jobs.records())?;
    Ok(Base {
        rooms: Items::from_vec(rooms),
        holds: Items::from_vec(holds),
        horizon: now + cluster.settings.bf_window.get() * 60,
    })
}
