//! What a pass would make its plan of.

ghost use Rattle.std.specs.Prelude.{◌≡◌, IfOk, option_copied};
ghost use Rattle.ctl_state.specs.Index.{IsIndexed};
ghost use Rattle.ctl_state.specs.Soundness.{IsSound};
ghost use Rattle.ctl_state.specs.State.{state_of};
ghost use Rattle.ctl_core.specs.Step.{input_at};

use crate::answering::LAST_MOMENT;
use backfill_planner::Planned;
use ctl_node_side::input;
use ctl_pass::PlanInput;
use ctl_state::cluster::Cluster;
use small_texts::memory_error::Memory;
use std::alloc::Global;

/// What a pass at a moment would make its plan of, with a copy of the plan that is kept.
pub(crate) fn find_input(
    alloc: Global,
    cluster: &mut Cluster,
    kept: Option<&Planned>,
    now: u64,
) -> Result<PlanInput, Memory>
    requires sound { IsSound (state_of cluster.old) }
    requires indexed { IsIndexed cluster.old }
    ensures input { IfOk result (λ input. input.parts ≡ input_at (state_of cluster.old) now) }
    ensures kept { IfOk result (λ input. input.kept ≡ option_copied kept.entry) }
    ensures stays { state_of cluster.new ≡ state_of cluster.old }
    ensures indexed { IsIndexed cluster.new }
{
    let moment = cluster.moment.max(now.min(LAST_MOMENT));
    input(alloc, cluster, kept, moment)
}
