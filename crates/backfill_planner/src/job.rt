ghost use Rattle.std.specs.Prelude.{◌≡◌, ◌≢◌, IfOk, AllPairs};
ghost use Rattle.backfill_planner.specs.Placements.{IsPlannable};

use crate::barred_list::BarredList;
use plain_data::NodePlaces;
use plain_data::mem_ask::MemAsk;
use plain_data::ranged::Ranged;
use resource_profile::Need;
use small_texts::memory_error::Memory;
use std::marker::Model;
use std::sync::ArcSlice;

/// Places of nodes among the rooms, each once: a list that jobs share, and that nothing changes once it is made. It may
/// be shared between threads too.
#[derive(Drop)]
pub struct NodeList {
    nodes: ArcSlice<u32>,
}

impl Model for NodeList {
    ghost use Rattle.std.specs.Prelude.{ℕ, ◌≢◌, List, AllPairs};
    ghost use Rattle.std.specs.Arc.{arc_slice_items};

    ghost Value = { List ℕ };

    ghost view = { λ list. arc_slice_items list.nodes };

    ghost invariant = { λ list. AllPairs (λ one other. one ≢ other) (arc_slice_items list.nodes) };
}

impl NodeList {
    /// These nodes. It takes memory for what counts those that share them, and copies none.
    pub fn from_vec(nodes: Vec<u32>) -> Result<Self, Memory>
        requires { AllPairs (λ one other. one ≢ other) nodes.items }
        ensures { IfOk result (λ list. list ≡ nodes.items) }
    {
        Ok(NodeList {
            nodes: ArcSlice::from_vec(nodes)?,
        })
    }

    /// An equal list, which shares the nodes with this one. Constant time; it copies no node and takes no memory, and
    /// is refused only where more lists share the nodes than can be counted.
    pub fn share(&self) -> Result<Self, Memory>
        ensures { IfOk result (λ list. list ≡ self.now) }
    {
        Ok(NodeList {
            nodes: self.nodes.clone()?,
        })
    }

    /// The nodes in order.
    pub fn as_slice(&self) -> &[u32]
        ensures nodes { result.now ≡ self.now }
        ensures once { AllPairs (λ one other. one ≢ other) result.now }
    {
        self.nodes.as_slice()
    }
}

/// Nodes that a job may not have from one second to before another: the seconds from its start to its end cross none of
/// these (own). What a reservation means to other jobs, "RESERVATIONS" in scontrol(1), comes to such a time.
#[derive(Drop, PartialEq)]
pub struct Barred {
    /// By their places among the rooms.
    pub nodes: NodePlaces,
    /// In seconds since 1970, as is `until`.
    pub from: u64,
    pub until: u64,
}

/// A job that is to be planned.
#[derive(Drop)]
pub struct PlanJob {
    pub id: u32,
    /// Its tasks, and how many nodes it takes. The first of `nodes` are the required ones.
    pub need: Need,
    pub cpus_per_task: Ranged<1, 1024>,
    /// The most tasks on one node.
    pub per_node: u32,
    pub mem_ask: MemAsk,
    /// Whether it takes whole nodes.
    pub exclusive: bool,
    /// The nodes that it may get, in the order in which they are chosen.
    pub nodes: NodeList,
    /// The times at which it may not have some of them. Where they are not kept by node, each costs a test for each node
    /// and second that are tried.
    pub barred: BarredList,
    /// Its limit; None where it has none.
    pub seconds: Option<Ranged<1, 3153600000>>,
}

impl PlanJob {
    /// An equal job, which shares the nodes and the times with this one. Constant time; it copies none of them.
    pub fn copy(&self) -> Result<PlanJob, Memory>
        ensures { IfOk result (λ job. job ≡ self.now) }
    {
        let nodes = self.nodes.share()?;
        let barred = self.barred.share()?;
        Ok(PlanJob {
            id: self.id,
            need: self.need,
            cpus_per_task: self.cpus_per_task,
            per_node: self.per_node,
            mem_ask: self.mem_ask,
            exclusive: self.exclusive,
            nodes,
            barred,
            seconds: self.seconds,
        })
    }

    /// It does nothing: its contract tells what the type keeps of every job, which the laws of plans ask for.
    pub fn tell_plannable(&self)
        ensures { IsPlannable self.now }
    {
        let _ = self.nodes.as_slice();
        let _ = self.cpus_per_task.get();
        if let Some(seconds) = self.seconds {
            let _ = seconds.get();
        }
    }
}
