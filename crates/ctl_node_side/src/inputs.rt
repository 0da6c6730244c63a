//! What a whole pass plans, once it has seen to silent nodes.

ghost use Rattle.std.specs.Prelude.{◌≡◌, ◌≤◌, ℕ, true, false, IfOk, option_copied};
ghost use Rattle.plain_data.specs.Rows.{has_id};
ghost use Rattle.ctl_state.specs.Index.{IsIndexed};
ghost use Rattle.ctl_state.specs.Soundness.{IsSound};
ghost use Rattle.ctl_state.specs.State.{state_of, last_moment};
ghost use Rattle.ctl_node_side.specs.Passes.{pass_input};
ghost use Rattle.ctl_node_side.specs.Silence.{any_silent, silent_at};

use crate::kept::{keep, put_back};
use crate::laws::{kept_jobs_are_put_back, silence_keeps_all_sound};
use crate::silence::{fall_silent, silent_places};
use backfill_planner::Planned;
use ctl_pass::{PlanInput, plan_input};
use ctl_state::cluster::Cluster;
use plain_data::NodePlaces;
use small_texts::memory_error::Memory;
use std::alloc::Global;

// What a pass plans at a moment at which no node falls silent.
fn input_heard(
    alloc: Global,
    cluster: &Cluster,
    kept: Option<&Planned>,
    moment: u64,
) -> Result<PlanInput, Memory>
    requires sound { IsSound (state_of cluster.now) }
    requires raised { cluster.now.moment ≤ moment }
    requires in_time { moment ≤ last_moment }
    requires heard { any_silent (state_of cluster.now) moment ≡ false }
    ensures input { IfOk result (λ input. input.parts ≡ pass_input (state_of cluster.now) moment) }
    ensures kept { IfOk result (λ input. input.kept ≡ option_copied kept.entry) }
{
    plan_input(alloc, cluster, kept, moment)
}

// What a pass plans at a moment at which these nodes fall silent. What falls with them is put back.
fn input_silenced(
    alloc: Global,
    cluster: &mut Cluster,
    kept: Option<&Planned>,
    moment: u64,
    silent: &NodePlaces,
) -> Result<PlanInput, Memory>
    requires sound { IsSound (state_of cluster.old) }
    requires raised { cluster.old.moment ≤ moment }
    requires in_time { moment ≤ last_moment }
    requires indexed { IsIndexed cluster.old }
    requires places { (place : ℕ) → has_id silent.now place ≡ silent_at (state_of cluster.old) moment place }
    requires some { any_silent (state_of cluster.old) moment ≡ true }
    ensures input { IfOk result (λ input. input.parts ≡ pass_input (state_of cluster.old) moment) }
    ensures kept { IfOk result (λ input. input.kept ≡ option_copied kept.entry) }
    ensures stays { state_of cluster.new ≡ state_of cluster.old }
    ensures indexed { IsIndexed cluster.new }
{
    silence_keeps_all_sound();
    kept_jobs_are_put_back();
    let before = keep(alloc, cluster, silent)?;
    fall_silent(cluster, moment, silent);
    let input = plan_input(alloc, cluster, kept, moment);
    put_back(cluster, before);
    input
}

/// What a whole pass at its raised moment plans, with a copy of the plan that is kept; all stays as it was. Where no node falls silent it costs what `ctl_pass::plan_input` costs, beside a look at each node; where some
/// do it copies the jobs that hold something of them too, and walks over all jobs twice more.
pub fn input(
    alloc: Global,
    cluster: &mut Cluster,
    kept: Option<&Planned>,
    moment: u64,
) -> Result<PlanInput, Memory>
    requires sound { IsSound (state_of cluster.old) }
    requires raised { cluster.old.moment ≤ moment }
    requires in_time { moment ≤ last_moment }
    requires indexed { IsIndexed cluster.old }
    ensures input { IfOk result (λ input. input.parts ≡ pass_input (state_of cluster.old) moment) }
    ensures kept { IfOk result (λ input. input.kept ≡ option_copied kept.entry) }
    ensures stays { state_of cluster.new ≡ state_of cluster.old }
    ensures indexed { IsIndexed cluster.new }
{
    let silent = silent_places(cluster, moment);
    if silent.is_empty() {
        input_heard(alloc, cluster, kept, moment)
    } else {
        input_silenced(alloc, cluster, kept, moment, &silent)
    }
}
