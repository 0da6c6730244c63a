//! What the configuration and the association file say, with their limits and ranges.

ghost use Rattle.std.specs.Prelude.{◌≡◌, IfOk};

use crate::Plain;
use crate::items::Items;
use crate::limit::Limit;
use crate::mem_ask::MemAsk;
use crate::ranged::Ranged;
use small_texts::memory_error::Memory;
use small_texts::name::Name;
use std::marker::Model;

/// The settings of slurm.conf(5) that are of no node or partition.
#[derive(PartialEq, Debug, Drop)]
pub struct Settings {
    /// `FirstJobId`: the number of the first job.
    pub first_job_id: Ranged<1, 67043328>,
    /// `MaxJobCount`: how many jobs are kept at most.
    pub max_job_count: Ranged<1, 20000>,
    /// `MaxArraySize`: one more than the largest index of an array.
    pub max_array_size: Ranged<1, 10001>,
    /// `MinJobAge`: how many seconds an ended job is kept at least; 0 keeps it for good.
    pub min_job_age: Ranged<0, 65533>,
    /// `SlurmdTimeout`: after how many seconds of silence a node is down; 0 is never.
    pub slurmd_timeout: Ranged<0, 65533>,
    /// `JobRequeue`: whether a job that fails with its node waits again, where the job doesn't say.
    pub job_requeue: bool,
    /// `SlurmUser`, who is privileged beside root.
    pub slurm_user: Name,
    /// `PriorityMaxAge`: after how many minutes of waiting a job's age counts whole.
    pub max_age: Ranged<1, 52560000>,
    pub weight_age: u32,
    pub weight_fairshare: u32,
    pub weight_job_size: u32,
    pub weight_partition: u32,
    pub weight_qos: u32,
    /// `bf_window`: how many minutes ahead starts are planned.
    pub bf_window: Ranged<1, 43200>,
    /// `bf_interval`: how many seconds lie between two plans.
    pub bf_interval: Ranged<1, 10800>,
    /// `DefMemPerCPU` or `DefMemPerNode`; without one a job takes all memory of its nodes.
    pub mem_default: Option<MemAsk>,
    /// Whether jobs may be requeued for others: `PreemptType=preempt/qos` and `PreemptMode=REQUEUE`.
    pub preempt: bool,
}

impl Settings {
    /// Equal settings.
    pub fn copy(&self) -> Result<Settings, Memory>
        ensures { IfOk result (λ settings. settings ≡ self.now) }
    {
        Ok(Settings {
            first_job_id: self.first_job_id,
            max_job_count: self.max_job_count,
            max_array_size: self.max_array_size,
            min_job_age: self.min_job_age,
            slurmd_timeout: self.slurmd_timeout,
            job_requeue: self.job_requeue,
            slurm_user: self.slurm_user.copy()?,
            max_age: self.max_age,
            weight_age: self.weight_age,
            weight_fairshare: self.weight_fairshare,
            weight_job_size: self.weight_job_size,
            weight_partition: self.weight_partition,
            weight_qos: self.weight_qos,
            bf_window: self.bf_window,
            bf_interval: self.bf_interval,
            mem_default: self.mem_default,
            preempt: self.preempt,
        })
    }
}

/// How a node begins. `State` of a node in slurm.conf(5).
#[derive(Clone, Copy, PartialEq, Eq, Debug)]
pub enum NodeStart {
    Unknown,
    /// Set down by an operator.
    Down,
    /// To be drained: it keeps what it runs, and nothing starts there.
    Drain,
}

/// A node of slurm.conf(5).
#[derive(PartialEq, Debug, Drop)]
pub struct NodeConf {
    pub name: Name,
    /// Its processors.
    pub cpus: Ranged<1, 1024>,
    /// Its `RealMemory`, in megabytes.
    pub mem: Ranged<1, 16777216>,
    /// Nodes of a lower weight are taken first.
    pub weight: Ranged<0, 4294967280>,
    pub features: Items<Name>,
    pub state: NodeStart,
}

impl Plain for NodeConf {
    fn copy(&self) -> Result<NodeConf, Memory> {
        Ok(NodeConf {
            name: self.name.copy()?,
            cpus: self.cpus,
            mem: self.mem,
            weight: self.weight,
            features: self.features.copy()?,
            state: self.state,
        })
    }
}

/// What a partition does with jobs. `State` of a partition in slurm.conf(5).
#[derive(Clone, Copy, PartialEq, Eq, Debug)]
pub enum PartState {
    /// It takes jobs and starts them.
    Up,
    /// It takes jobs and starts none.
    Down,
    /// It takes no jobs and starts those that it has.
    Drain,
    /// It takes no jobs and starts none.
    Inactive,
}

/// A partition of slurm.conf(5).
#[derive(PartialEq, Debug, Drop)]
pub struct PartConf {
    pub name: Name,
    /// Its nodes, each once, in the order of its line, or of the file where it has all of them.
    pub nodes: Items<Name>,
    /// Whether it is that of jobs which name none.
    pub is_default: bool,
    /// The longest limit that a job may have.
    pub max_time: Limit,
    /// The limit of a job that names none; without one it is the longest.
    pub default_time: Option<Limit>,
    pub state: PartState,
    /// `PriorityJobFactor`.
    pub factor: Ranged<0, 65533>,
    /// `PriorityTier`: jobs of a higher tier come first.
    pub tier: Ranged<0, 65533>,
    /// How many nodes a job has at least.
    pub min_nodes: u32,
    /// How many nodes a job has at most.
    pub max_nodes: Option<u32>,
    /// The accounts whose jobs it takes; None takes all.
    pub accounts: Option<Items<Name>>,
    /// The qualities of service of the jobs that it takes; None takes all.
    pub qos: Option<Items<Name>>,
    /// Whether each of its jobs has its nodes for itself: `OverSubscribe=EXCLUSIVE`.
    pub exclusive: bool,
    /// The memory of a job that doesn't say, before the general default.
    pub mem_default: Option<MemAsk>,
}

impl Plain for PartConf {
    fn copy(&self) -> Result<PartConf, Memory> {
        Ok(PartConf {
            name: self.name.copy()?,
            nodes: self.nodes.copy()?,
            is_default: self.is_default,
            max_time: self.max_time,
            default_time: self.default_time,
            state: self.state,
            factor: self.factor,
            tier: self.tier,
            min_nodes: self.min_nodes,
            max_nodes: self.max_nodes,
            accounts: self.accounts.copy()?,
            qos: self.qos.copy()?,
            exclusive: self.exclusive,
            mem_default: self.mem_default,
        })
    }
}

/// What slurm.conf(5) says.
#[derive(PartialEq, Debug, Drop)]
pub struct Conf {
    pub settings: Settings,
    /// The nodes, in the order of the file, 1,024 at most, each named once.
    pub nodes: Items<NodeConf>,
    /// The partitions, in the order of the file, 1 to 64, each named once, of nodes that there are.
    pub partitions: Items<PartConf>,
}

impl Model for Conf {
    ghost use Rattle.plain_data.specs.Confs.{ConfView, IsConf};

    ghost Value = { ConfView };

    ghost view = { λ conf. record { settings = conf.settings; nodes = conf.nodes; partitions = conf.partitions } };

    ghost invariant = { λ conf. IsConf conf.nodes conf.partitions };

    ghost inverse = { λ conf. record { settings = conf.settings; nodes = conf.nodes; partitions = conf.partitions } };
}

impl Conf {
    /// An equal configuration. Linear in its nodes, and in the nodes of its partitions.
    pub fn copy(&self) -> Result<Conf, Memory>
        ensures { IfOk result (λ conf. conf ≡ self.now) }
    {
        Ok(Conf {
            settings: self.settings.copy()?,
            nodes: self.nodes.copy()?,
            partitions: self.partitions.copy()?,
        })
    }
}

impl Plain for Conf {
    fn copy(&self) -> Result<Conf, Memory> {
        self.copy()
    }
}
