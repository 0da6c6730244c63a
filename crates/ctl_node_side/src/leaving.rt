//! Jobs that leave a node: what they hold there is given back.

ghost use Rattle.std.specs.Prelude.{◌≡◌, ◌<◌, ◌≤◌, true, All, length, option_copied};
ghost use Rattle.std.specs.List.{HoldsAt};
ghost use Rattle.std.specs.Option.{option_to_list};
ghost use Rattle.node_state.specs.Held.{held_mem, holds_cpu};
ghost use Rattle.job_table.specs.Changes.{changed};
ghost use Rattle.job_table.specs.Usage.{Charges};
ghost use Rattle.job_table.specs.Walks.{map_at};
ghost use Rattle.ctl_state.specs.Index.{GivesParts};
ghost use Rattle.ctl_node_side.specs.Leaving.{AreOnNodes, ShowsJobs, part_dropped};

use crate::jobs::part_on;
use ctl_state::laws::the_index_shows_what_is_held;
use job_table::change::Change;
use job_table::jobs::Jobs;
use job_table::record::{JobRecord, Part};
use node_state::nodes::Nodes;
use request_data::state::JobState;

// The part that the job drops when it leaves the node.
fn part_dropped(node: u32, job: &JobRecord) -> Option<&Part>
    ensures { option_copied result ≡ part_dropped node job.now }
{
    match job.state {
        JobState::Completing(_) => part_on(node, job.parts.as_slice()),
        _ => None,
    }
}

// Gives back what the job drops when it leaves the node.
fn give_back(nodes: &mut Nodes, node: u32, job: &JobRecord)
    requires on { AreOnNodes (length nodes.old.records) job.now.parts }
    requires held { All (λ part. All (λ cpu. holds_cpu nodes.old.held part.node cpu ≡ true) part.cpus
        × part.mem ≤ held_mem nodes.old.held part.node) job.now.parts }
    ensures records { nodes.new.records ≡ nodes.old.records }
    ensures given { GivesParts nodes.old.held (option_to_list (part_dropped node job.now)) nodes.new.held }
{
    if let Some(part) = part_dropped(node, job) {
        nodes.give_back(part.node, &part.cpus, part.mem);
    }
}

/// The job at a place leaves the node, where it is completing. Linear in the job's parts; it takes no memory.
pub(crate) fn leave_node(nodes: &mut Nodes, jobs: &mut Jobs, place: usize, now: u64, node: u32)
    requires there { place < length jobs.old.records }
    requires on { HoldsAt (λ job. AreOnNodes (length nodes.old.records) job.parts) jobs.old.records place }
    requires shown { ShowsJobs nodes.old.held jobs.old.records }
    ensures jobs { jobs.new.records ≡ map_at place (changed (Change.DropPart node now)) jobs.old.records }
    ensures charges { Charges now jobs.old jobs.new }
    ensures nodes { nodes.new.records ≡ nodes.old.records }
    ensures shown { ShowsJobs nodes.new.held jobs.new.records }
{
    the_index_shows_what_is_held();
    give_back(nodes, node, &jobs.records()[place]);
    jobs.change_at(place, Change::DropPart { node, moment: now });
}
