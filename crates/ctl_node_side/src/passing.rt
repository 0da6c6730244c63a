//! A whole pass: it sees to the nodes that fall silent, and then plans and starts.

ghost use Rattle.std.specs.Prelude.{◌≡◌, ◌≢◌, ◌≤◌, ◌+◌, ◌<◌, ◌^◌, ℕ, true, false, IfOk, IfSome, OnErr, Some, length, option_copied};
ghost use Rattle.plain_data.specs.Rows.{has_id};
ghost use Rattle.resource_profile.specs.Counts.{IsTickedUpTo};
ghost use Rattle.ctl_state.specs.Index.{IsIndexed};
ghost use Rattle.ctl_state.specs.Soundness.{IsSound};
ghost use Rattle.ctl_state.specs.State.{state_of, last_moment};
ghost use Rattle.ctl_pass.specs.Passing as pass;
ghost use Rattle.ctl_pass.specs.Inputs.{input_of};
ghost use Rattle.ctl_node_side.specs.Passes.{IsPassedOver, pass_input, planned_by_pass};
ghost use Rattle.ctl_node_side.specs.Came.{Came, plan_made};
ghost use Rattle.ctl_node_side.specs.Silence.{any_silent, silent_at, silenced};

use crate::kept::{keep, put_back};
use crate::laws::{kept_jobs_are_put_back, silence_keeps_all_sound};
use crate::silence::{count_failing, fall_silent, silent_places};
use backfill_planner::Planned;
use ctl_pass::laws::{few_end, few_start_or_stay, there_are_few_jobs};
use ctl_pass::{Decided, act, decide, is_idle};
use ctl_state::cluster::Cluster;
use plain_data::NodePlaces;
use resource_profile::Steps;
use small_texts::memory_error::Memory;
use std::alloc::Global;

/// What comes of a pass that isn't refused for who asks it.
#[derive(Clone, Copy, Debug, PartialEq, Eq)]
pub enum PassOutcome {
    /// It would change nothing but the moment.
    Idle,
    /// It would change something, and the history has no room for that.
    Full,
    /// It has changed the cluster.
    Passed {
        /// How many jobs it took out of Running.
        ended: u32,
        started: u32,
        /// How many are planned and didn't start.
        planned: u32,
    },
}

/// A pass that isn't refused for who asks it.
#[derive(Drop)]
pub struct PassMade {
    pub outcome: PassOutcome,
    /// Its plan, over which a later one can be made; None where the history has no room.
    pub plan: Option<Planned>,
}

// Does what was decided, beside so many jobs that failed with their nodes.
fn finish(cluster: &mut Cluster, moment: u64, failed: u32, decided: Decided) -> PassMade
    requires sound { IsSound (state_of cluster.old) }
    requires raised { cluster.old.moment ≤ moment }
    requires in_time { moment ≤ last_moment }
    requires indexed { IsIndexed cluster.old }
    requires decided { pass.IsDecided (state_of cluster.old) moment decided }
    requires few { failed + decided.ended < 2 ^ 32 }
    ensures passed { result.outcome ≡ PassOutcome.Passed (failed + decided.ended)
        (length (pass.outcome (state_of cluster.old) moment).starts)
        (length (pass.outcome (state_of cluster.old) moment).stays) }
    ensures plan { result.plan ≡ Some (input_of (state_of cluster.old) moment) }
    ensures after { state_of cluster.new ≡ pass.pass_after (state_of cluster.old) moment }
    ensures indexed { IsIndexed cluster.new }
{
    few_start_or_stay();
    let ended = failed + decided.ended;
    let started = decided.starts.len() as u32;
    let planned = decided.stays.len() as u32;
    let plan = act(cluster, moment, decided);
    PassMade {
        outcome: PassOutcome::Passed {
            ended,
            started,
            planned,
        },
        plan: Some(plan),
    }
}

// A pass at a moment at which no node falls silent.
fn pass_heard<L>(
    alloc: Global,
    cluster: &mut Cluster,
    older: Option<&Planned>,
    moment: u64,
    room: bool,
    steps: &mut Steps<L>,
) -> Result<PassMade, Memory>
    requires sound { IsSound (state_of cluster.old) }
    requires raised { cluster.old.moment ≤ moment }
    requires in_time { moment ≤ last_moment }
    requires indexed { IsIndexed cluster.old }
    requires heard { any_silent (state_of cluster.old) moment ≡ false }
    ensures came { IfOk result (λ made. Came (state_of cluster.old) (state_of cluster.new) moment room made.outcome) }
    ensures plan { IfOk result (λ made. made.plan ≡ plan_made made.outcome (pass_input (state_of cluster.old) moment)) }
    ensures err { OnErr result (state_of cluster.new ≡ state_of cluster.old) }
    ensures steps { IsTickedUpTo (planned_by_pass (state_of cluster.old) moment) steps.old steps.new }
    ensures over { IfSome (option_copied older.entry) (λ old.
        IsPassedOver old (state_of cluster.old) moment steps.old steps.new) }
    ensures indexed { IsIndexed cluster.new }
{
    there_are_few_jobs();
    let decided = decide(alloc, cluster, older, moment, steps)?;
    if is_idle(cluster, moment, &decided) {
        return Ok(PassMade {
            outcome: PassOutcome::Idle,
            plan: Some(decided.planned),
        });
    }
    if !room {
        return Ok(PassMade {
            outcome: PassOutcome::Full,
            plan: None,
        });
    }
    Ok(finish(cluster, moment, 0, decided))
}

// A pass at a moment at which these nodes fall silent. What falls with them is put back where nothing comes of it.
fn pass_silenced<L>(
    alloc: Global,
    cluster: &mut Cluster,
    older: Option<&Planned>,
    moment: u64,
    silent: &NodePlaces,
    room: bool,
    steps: &mut Steps<L>,
) -> Result<PassMade, Memory>
    requires sound { IsSound (state_of cluster.old) }
    requires raised { cluster.old.moment ≤ moment }
    requires in_time { moment ≤ last_moment }
    requires indexed { IsIndexed cluster.old }
    requires places { (place : ℕ) → has_id silent.now place ≡ silent_at (state_of cluster.old) moment place }
    requires some { any_silent (state_of cluster.old) moment ≡ true }
    ensures came { IfOk result (λ made. Came (state_of cluster.old) (state_of cluster.new) moment room made.outcome) }
    ensures plan { IfOk result (λ made. made.plan ≡ plan_made made.outcome (pass_input (state_of cluster.old) moment)) }
    ensures err { OnErr result (state_of cluster.new ≡ state_of cluster.old) }
    ensures steps { IsTickedUpTo (planned_by_pass (state_of cluster.old) moment) steps.old steps.new }
    ensures over { IfSome (option_copied older.entry) (λ old.
        IsPassedOver old (state_of cluster.old) moment steps.old steps.new) }
    ensures indexed { IsIndexed cluster.new }
{
    silence_keeps_all_sound();
    kept_jobs_are_put_back();
    there_are_few_jobs();
    few_end();
    let before = keep(alloc, cluster, silent)?;
    let failed = count_failing(silent, cluster.jobs.records()) as u32;
    fall_silent(cluster, moment, silent);
    match decide(alloc, cluster, older, moment, steps) {
        Ok(decided) if room => Ok(finish(cluster, moment, failed, decided)),
        Ok(_) => {
            put_back(cluster, before);
            Ok(PassMade {
                outcome: PassOutcome::Full,
                plan: None,
            })
        }
        Err(memory) => {
            put_back(cluster, before);
            Err(memory)
        }
    }
}

/// A whole pass at its raised moment, where the history has room for it or not. Where no node falls silent it costs what
/// `ctl_pass::decide` and `act` cost, beside a look at each node; where some do it copies the jobs that hold something of
/// them too, and walks over all jobs once more. Its plan is made over an older one, if any; it counts at most a step for
/// each job that it plans, and over an older plan none for those which stand as they stood in it. SlurmdTimeout in slurm.conf(5).
pub fn pass<L>(
    alloc: Global,
    cluster: &mut Cluster,
    older: Option<&Planned>,
    moment: u64,
    room: bool,
    steps: &mut Steps<L>,
) -> Result<PassMade, Memory>
    requires sound { IsSound (state_of cluster.old) }
    requires raised { cluster.old.moment ≤ moment }
    requires in_time { moment ≤ last_moment }
    requires indexed { IsIndexed cluster.old }
    ensures came { IfOk result (λ made. Came (state_of cluster.old) (state_of cluster.new) moment room made.outcome) }
    ensures plan { IfOk result (λ made. made.plan ≡ plan_made made.outcome (pass_input (state_of cluster.old) moment)) }
    ensures err { OnErr result (state_of cluster.new ≡ state_of cluster.old) }
    ensures steps { IsTickedUpTo (planned_by_pass (state_of cluster.old) moment) steps.old steps.new }
    ensures over { IfSome (option_copied older.entry) (λ old.
        IsPassedOver old (state_of cluster.old) moment steps.old steps.new) }
    ensures indexed { IsIndexed cluster.new }
{
    let silent = silent_places(cluster, moment);
    if silent.is_empty() {
        pass_heard(alloc, cluster, older, moment, room, steps)
    } else {
        pass_silenced(alloc, cluster, older, moment, &silent, room, steps)
    }
}
