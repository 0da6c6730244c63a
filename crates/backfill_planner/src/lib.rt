//! The plan: when, on which nodes and with which processors and megabytes each job of a ranked list can begin at the
//! earliest, beside what the running jobs and the jobs ranked above it hold.
#![tactic(auto)]

ghost use Rattle.std.specs.Prelude.{◌≡◌, IfOk};

use plain_data::items::Items;
use small_texts::memory_error::Memory;
use std::alloc::Global;

mod barred_list;
mod barred_times;
mod base;
mod empty_nodes;
mod fitting;
mod job;
pub mod laws;
mod lesser;
mod placing;
mod planned;
mod planning;
mod preempting;
mod seen;
mod stretches;
mod sweep;
pub mod victim_laws;
mod walk;

pub use barred_list::BarredList;
pub use base::Base;
pub use empty_nodes::fits_empty_nodes;
pub use job::{Barred, NodeList, PlanJob};
pub use placing::place;
pub use plain_data::mem_ask::MemAsk;
pub use planned::{Planned, plan};
pub use planning::Planning;
pub use preempting::victims;

/// A job's part on one node.
#[derive(Clone, Copy, Debug, PartialEq, Eq)]
pub struct Share {
    /// The node's place among the rooms.
    pub node: u32,
    pub tasks: u32,
    pub cpus: u32,
    /// In megabytes.
    pub mem: u64,
}

/// When and where a job is to begin.
#[derive(Drop)]
pub struct Placed {
    pub id: u32,
    /// In seconds since 1970.
    pub start: u64,
    /// In the order of the job's nodes.
    pub parts: Items<Share>,
}

impl Placed {
    /// An equal placement.
    pub fn copy(&self, alloc: Global) -> Result<Placed, Memory>
        ensures { IfOk result (λ placed. placed ≡ self.now) }
    {
        Ok(Placed {
            id: self.id,
            start: self.start,
            parts: Items::from_vec(Vec::from_slice(alloc, self.parts.as_slice())?),
        })
    }
}
