//! What the parts of jobs hold of the nodes.

ghost use Rattle.std.specs.Prelude.{◌≡◌, ◌+◌, ◌<◌, ◌≤◌, ◌↔◌, IsTrue, IsSome, IfSome, All, length, map, true, [], ◌∷◌};
ghost use Rattle.std.specs.List.{HoldsAt};
ghost use Rattle.plain_data.specs.Rows.{has_id};
ghost use Rattle.node_state.specs.Held.{Takes, free_cpus, held_at, held_mem};
ghost use Rattle.ctl_state.specs.Holding.{parts_of};
ghost use Rattle.ctl_state.specs.Planning.{room_of};
ghost use Rattle.ctl_restore.specs.Steps.{Holds, IsFree};

use job_table::record::{JobRecord, Part};
use node_state::nodes::Nodes;
use plain_data::CpuIds;

// Whether each of the numbers is among the others.
fn are_among(ids: &CpuIds, others: &CpuIds) -> bool
    ensures { IsTrue result ↔ All (λ id. has_id others.now id ≡ true) ids.now }
{
    let mut rest = ids.copy();
    rest.remove_all(others);
    rest.is_empty()
}

// Takes a part of the node at its place, whose free processors are these.
fn take(nodes: &mut Nodes, part: &Part, free: &CpuIds)
    requires there { part.now.node < length nodes.old.records }
    requires free { HoldsAt (λ node. free.now ≡ free_cpus node (held_at nodes.old.held part.now.node))
        nodes.old.records part.now.node }
    requires mem { HoldsAt (λ node. held_mem nodes.old.held part.now.node + part.now.mem ≤ node.conf.mem)
        nodes.old.records part.now.node }
    requires cpus { All (λ id. has_id free.now id ≡ true) part.now.cpus }
    ensures held { Takes nodes.old.held part.now.node part.now.cpus part.now.mem nodes.new.held }
    ensures records { nodes.new.records ≡ nodes.old.records }
{
    let taken = nodes.take_cpus(part.node, free.len() as u32, part.mem);
    let mut rest = taken.copy();
    rest.remove_all(&part.cpus);
    nodes.give_back(part.node, &rest, 0);
}

// The free processors of the node of a part, where there is the node and what the part holds is free there. Linear in
// the node's processors.
fn free_for(nodes: &Nodes, part: &Part) -> Option<CpuIds>
    ensures some { IsSome result ↔ IsFree (map room_of nodes.now.records) nodes.now.held part.now }
    ensures free { IfSome result (λ free. HoldsAt (λ node. free ≡ free_cpus node (held_at nodes.now.held part.now.node))
        nodes.now.records part.now.node) }
    ensures cpus { IfSome result (λ free. All (λ id. has_id free id ≡ true) part.now.cpus) }
{
    let node = nodes.at(part.node)?;
    let most = node.conf.cpus.get() as u32;
    let held = nodes.held(part.node);
    let free = held.cpus.lowest_others(most, most);
    part.cpus.tell_rising();
    if are_among(&part.cpus, &free) && part.mem <= node.conf.mem.get() - held.mem {
        Some(free)
    } else {
        None
    }
}

// Takes a part, where there is its node and this has what it holds. Linear in the node's processors.
fn hold(nodes: &mut Nodes, part: &Part) -> bool
    ensures holds { Holds (map room_of nodes.old.records) nodes.old.held nodes.new.held (part.now ∷ []) result }
    ensures records { nodes.new.records ≡ nodes.old.records }
{
    let Some(free) = free_for(nodes, part) else {
        return false;
    };
    take(nodes, part, &free);
    true
}

fn hold_parts(nodes: &mut Nodes, parts: &[Part]) -> bool
    ensures holds { Holds (map room_of nodes.old.records) nodes.old.held nodes.new.held parts.now result }
    ensures records { nodes.new.records ≡ nodes.old.records }
{
    for part in parts {
        if !hold(nodes, part) {
            return false;
        }
    }
    true
}

/// Takes all that the jobs hold, where each processor is held once, and no more memory than there is. Linear in the
/// processors of the nodes of their parts; it takes no memory. Where it isn't so, some of it is taken.
pub fn hold_jobs(nodes: &mut Nodes, jobs: &[JobRecord]) -> bool
    ensures holds { Holds (map room_of nodes.old.records) nodes.old.held nodes.new.held (parts_of jobs.now) result }
    ensures records { nodes.new.records ≡ nodes.old.records }
{
    for job in jobs {
        if !hold_parts(nodes, job.parts.as_slice()) {
            return false;
        }
    }
    true
}
