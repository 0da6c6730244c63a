//! What a job asks for.

ghost use Rattle.std.specs.Prelude.{◌≡◌, IfOk};

use crate::Plain;
use crate::array::ArraySpec;
use crate::boxed::Boxed;
use crate::dependency::DepSpec;
use crate::features::FeatureExpr;
use crate::items::Items;
use crate::limit::Limit;
use crate::mem_ask::MemAsk;
use crate::nice::Nice;
use crate::ranged::Ranged;
use crate::seconds::Moment;
use small_texts::memory_error::Memory;
use small_texts::name::{JobName, Name};

/// What a submission asks for. Where a field is None, the submission doesn't say. sbatch(1).
#[derive(PartialEq, Debug, Drop)]
pub struct JobDesc {
    pub name: JobName,
    pub account: Option<Name>,
    pub partition: Option<Name>,
    pub qos: Option<Name>,
    pub reservation: Option<Name>,
    pub tasks: Ranged<1, 1048576>,
    /// Processors for each task.
    pub cpus_per_task: Ranged<1, 1024>,
    /// How many tasks run on one node, at most.
    pub tasks_per_node: Option<Ranged<1, 1024>>,
    /// How many nodes it has, at least.
    pub min_nodes: Ranged<1, 1024>,
    /// How many nodes it has, at most.
    pub max_nodes: Option<Ranged<1, 1024>>,
    pub mem_ask: Option<MemAsk>,
    /// How long it may run.
    pub limit: Option<Limit>,
    /// The second before which it doesn't start.
    pub begin: Option<Moment>,
    pub nice: Nice,
    /// Whether it has its nodes for itself.
    pub exclusive: bool,
    /// Whether it is held from the start.
    pub held: bool,
    /// Whether it waits again where a node of it fails.
    pub requeue: Option<bool>,
    /// Whether the answer is its number alone.
    pub parsable: bool,
    pub features: Option<Boxed<FeatureExpr>>,
    /// Nodes that it must have.
    pub required: Items<Name>,
    /// Nodes that it mustn't have.
    pub excluded: Items<Name>,
    pub array: Option<Boxed<ArraySpec>>,
    pub dependency: Option<Boxed<DepSpec>>,
    /// How many seconds its script takes, where nothing ends it before (own).
    pub run: Ranged<1, 2000000000>,
    /// The exit code of its script (own).
    pub exit: Ranged<0, 255>,
}

impl JobDesc {
    /// An equal description.
    pub fn copy(&self) -> Result<JobDesc, Memory>
        ensures { IfOk result (λ desc. desc ≡ self.now) }
    {
        Ok(JobDesc {
            name: self.name.copy()?,
            account: self.account.copy()?,
            partition: self.partition.copy()?,
            qos: self.qos.copy()?,
            reservation: self.reservation.copy()?,
            tasks: self.tasks,
            cpus_per_task: self.cpus_per_task,
            tasks_per_node: self.tasks_per_node,
            min_nodes: self.min_nodes,
            max_nodes: self.max_nodes,
            mem_ask: self.mem_ask,
            limit: self.limit,
            begin: self.begin,
            nice: self.nice,
            exclusive: self.exclusive,
            held: self.held,
            requeue: self.requeue,
            parsable: self.parsable,
            features: self.features.copy()?,
            required: self.required.copy()?,
            excluded: self.excluded.copy()?,
            array: self.array.copy()?,
            dependency: self.dependency.copy()?,
            run: self.run,
            exit: self.exit,
        })
    }
}

impl Plain for JobDesc {
    fn copy(&self) -> Result<JobDesc, Memory> {
        self.copy()
    }
}
