//! What is settled for a job.

ghost use Rattle.std.specs.Prelude.{◌≡◌, IfOk};

use plain_data::boxed::Boxed;
use plain_data::dependency::DepSpec;
use plain_data::features::FeatureExpr;
use plain_data::items::Items;
use plain_data::mem_ask::MemAsk;
use plain_data::ranged::Ranged;
use plain_data::seconds::Moment;
use small_texts::memory_error::Memory;
use small_texts::name::{JobName, Name};
use std::alloc::Global;
use std::marker::Model;
use std::sync::Arc;

/// What is settled for a job when it is handed in, and stays. The tasks of an array have all of it in common.
#[derive(Drop)]
pub struct Terms {
    pub name: JobName,
    /// The account to which it is charged.
    pub account: Name,
    /// The name of its quality of service.
    pub qos: Name,
    pub reservation: Option<Name>,
    pub tasks: Ranged<1, 1048576>,
    /// Processors for each task.
    pub cpus_per_task: Ranged<1, 1024>,
    /// How many tasks run on one node, at most.
    pub tasks_per_node: Option<Ranged<1, 1024>>,
    /// How many nodes it has, at least.
    pub min_nodes: Ranged<1, 1024>,
    /// How many nodes it has, at most.
    pub max_nodes: Option<Ranged<1, 1024>>,
    /// The memory that it takes.
    pub mem: MemAsk,
    /// Whether it has its nodes for itself.
    pub exclusive: bool,
    /// Whether it waits again where a node of it fails.
    pub requeue: bool,
    /// The second before which it doesn't start.
    pub begin: Option<Moment>,
    pub features: Option<Boxed<FeatureExpr>>,
    /// Nodes that it must have.
    pub required: Items<Name>,
    /// Nodes that it mustn't have.
    pub excluded: Items<Name>,
    /// How many tasks of its array hold processors at once, at most: the number after `%`.
    pub at_once: Option<Ranged<1, 4294967295>>,
    pub dependency: Option<Boxed<DepSpec>>,
    /// How many seconds its script takes, where nothing ends it before (own).
    pub run: Ranged<1, 2000000000>,
    /// The exit code of its script (own).
    pub exit: Ranged<0, 255>,
}

/// Settled terms that jobs share, and that nothing changes once they are made. A contract sees them as the terms. They
/// may be shared between threads too.
#[derive(Drop)]
pub struct SharedTerms {
    terms: Arc<Terms>,
}

impl Model for SharedTerms {
    ghost use Rattle.std.specs.Arc.{arc_value};
    ghost use Rattle.job_table.specs.declared.terms.Terms.{Terms};

    ghost Value = { Terms };

    ghost view = { λ shared. arc_value shared.terms };
}

impl SharedTerms {
    /// These terms. It takes memory for what counts those that share them, and copies nothing.
    pub fn of(alloc: Global, terms: Terms) -> Result<SharedTerms, Memory>
        ensures { IfOk result (λ shared. shared ≡ terms) }
    {
        Ok(SharedTerms {
            terms: Arc::new(alloc, terms)?,
        })
    }

    /// Equal terms, which these share. Constant time; it copies nothing and takes no memory, and is refused only where
    /// more jobs share the terms than can be counted.
    pub fn share(&self) -> Result<SharedTerms, Memory>
        ensures { IfOk result (λ shared. shared ≡ self.now) }
    {
        Ok(SharedTerms {
            terms: self.terms.clone()?,
        })
    }

    /// The terms.
    pub fn get(&self) -> &Terms
        ensures { result.now ≡ self.now }
    {
        &self.terms
    }
}
