//! Starts in place: due jobs take processors from the nodes' index, and run.

ghost use Rattle.std.specs.Prelude.{◌≡◌, ◌≢◌, ◌≤◌, [], All, AllPairs, fold, length, map, vec_capacity};
ghost use Rattle.backfill_planner.specs.declared.Share.{Share};
ghost use Rattle.node_state.specs.Held.{Takes};
ghost use Rattle.ctl_state.specs.Index.{IsIndexed, TakesParts};
ghost use Rattle.ctl_state.specs.State.{state_of};
ghost use Rattle.ctl_pass.specs.Awaiting.{IsPrepared, placements_of};
ghost use Rattle.ctl_pass.specs.Starting.{begun, begun_by};
ghost use Rattle.ctl_pass.specs.Taking.{AreDue, FitsShare, part_by, start_by, unplanned};

use crate::starts::DueStart;
use backfill_planner::Share;
use ctl_state::cluster::Cluster;
use ctl_state::laws::{
    others_wait_on, plans_keep_all_sound, taking_keeps_all_sound, the_index_shows_what_is_held,
    what_is_taken_is_counted,
};
use job_table::change::Change;
use job_table::jobs::Jobs;
use job_table::record::Part;
use node_state::nodes::Nodes;
use plain_data::items::Items;

// The part that a share becomes, which is held from then on.
fn take_part(nodes: &mut Nodes, share: &Share) -> Part
    requires { FitsShare nodes.old.records nodes.old.held share.now }
    ensures part { result ≡ part_by nodes.old.records nodes.old.held share.now }
    ensures held { Takes nodes.old.held result.node result.cpus result.mem nodes.new.held }
    ensures records { nodes.new.records ≡ nodes.old.records }
{
    Part {
        node: share.node,
        cpus: nodes.take_cpus(share.node, share.cpus, share.mem),
        mem: share.mem,
    }
}

// The parts that the shares become, which are held from then on; there is room for them.
fn take_parts(nodes: &mut Nodes, shares: &[Share], parts: &mut Vec<Part>)
    requires fits { All (FitsShare nodes.old.records nodes.old.held) shares.now }
    requires apart { AllPairs (λ (one other : Share). one.node ≢ other.node) shares.now }
    requires empty { parts.old.items ≡ [] }
    requires room { length shares.now ≤ vec_capacity parts.old }
    ensures parts { parts.new.items ≡ map (part_by nodes.old.records nodes.old.held) shares.now }
    ensures held { TakesParts nodes.old.held parts.new.items nodes.new.held }
    ensures records { nodes.new.records ≡ nodes.old.records }
{
    for share in shares {
        parts.push(take_part(nodes, share)).unwrap();
    }
}

// Starts one of the jobs.
fn begin_one(now: u64, nodes: &mut Nodes, jobs: &mut Jobs, mut start: DueStart)
    requires fits { All (FitsShare nodes.old.records nodes.old.held) start.placed.parts }
    requires apart { AllPairs (λ (one other : Share). one.node ≢ other.node) start.placed.parts }
    requires prepared { IsPrepared nodes.old.records start }
    ensures jobs { jobs.new.records
        ≡ begun now jobs.old.records (start_by nodes.old.records nodes.old.held start) }
    ensures usage { jobs.new.usage ≡ jobs.old.usage }
    ensures held { TakesParts nodes.old.held
        (map (part_by nodes.old.records nodes.old.held) start.placed.parts) nodes.new.held }
    ensures records { nodes.new.records ≡ nodes.old.records }
{
    take_parts(nodes, start.placed.parts.as_slice(), &mut start.parts);
    let change = Change::Start {
        moment: now,
        parts: Items::from_vec(start.parts),
        nodes: start.nodes,
    };
    jobs.change(start.placed.id, change);
}

/// Starts the jobs, each on the lowest processors that are free then: each part looks at its node's processors. It
/// takes no memory.
pub(crate) fn begin(now: u64, cluster: &mut Cluster, starts: Vec<DueStart>)
    requires due { AreDue (unplanned now (state_of cluster.old)) starts.items }
    requires indexed { IsIndexed cluster.old }
    ensures after { state_of cluster.new ≡ record (state_of cluster.old) {
      jobs = fold (begun_by cluster.old.nodes.records now) cluster.old.jobs.records (placements_of starts.items);
    } }
    ensures indexed { IsIndexed cluster.new }
{
    taking_keeps_all_sound();
    what_is_taken_is_counted();
    others_wait_on();
    plans_keep_all_sound();
    the_index_shows_what_is_held();
    for start in starts {
        begin_one(now, &mut cluster.nodes, &mut cluster.jobs, start);
    }
}
