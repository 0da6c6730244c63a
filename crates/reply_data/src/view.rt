//! What is shown of the cluster.

ghost use Rattle.std.specs.Prelude.{◌≡◌, IfOk};

use crate::priority::PriorityRow;
use plain_data::boxed::Boxed;
use plain_data::conf::PartState;
use plain_data::dependency::DepSpec;
use plain_data::items::Items;
use plain_data::limit::Limit;
use plain_data::nice::Nice;
use plain_data::ranged::LongRanged;
use plain_data::seconds::{FOREVER, Second};
use plain_data::{CpuIds, Plain};
use request_data::report::Heard;
use request_data::state::{JobState, Reason};
use small_texts::memory_error::Memory;
use small_texts::name::{JobName, Name};

/// When a job is over. `EndTime` under "show job" in scontrol(1).
#[derive(Clone, Copy, PartialEq, Eq, Debug)]
pub enum EndAt {
    /// It never ran.
    Nothing,
    /// It runs, and has no limit.
    Unknown,
    /// The second at which it ended, or reaches its limit.
    At(Second),
}

/// What a job holds of a node.
#[derive(PartialEq, Debug, Drop)]
pub struct NamedPart {
    pub node: Name,
    pub cpus: CpuIds,
    /// In megabytes.
    pub mem: u64,
}

impl Plain for NamedPart {
    fn copy(&self) -> Result<NamedPart, Memory> {
        Ok(NamedPart {
            node: self.node.copy()?,
            cpus: self.cpus.copy(),
            mem: self.mem,
        })
    }
}

/// What is shown of a job. squeue(1), "show job" in scontrol(1).
#[derive(PartialEq, Debug, Drop)]
pub struct JobRow {
    pub id: u32,
    /// The number of its array, where it is a task of one.
    pub array: Option<u32>,
    /// Its index in that array.
    pub index: Option<u32>,
    pub name: JobName,
    pub user: Name,
    pub account: Name,
    pub partition: Name,
    pub qos: Name,
    pub state: JobState,
    /// The seconds since its start, or those between its start and its end.
    pub elapsed: LongRanged<0, FOREVER>,
    /// How many nodes it has, or needs at least.
    pub nodes: u64,
    pub node_names: Items<Name>,
    /// Why it is pending, where it is.
    pub reason: Option<Reason>,
    /// The second of its start, or the one planned for it.
    pub start: Option<Second>,
    pub priority: u32,
    /// How long it may run.
    pub limit: Limit,
    /// How many processors it holds, or asks for while it is pending.
    pub cpus: u64,
    /// How many tasks it has.
    pub tasks: u64,
    pub nice: Nice,
    /// What it waits for.
    pub dependency: Option<Boxed<DepSpec>>,
    /// Whether it may be started again.
    pub requeue: bool,
    /// How often it was started again.
    pub restarts: u32,
    /// Its exit code, where it told one.
    pub exit: Option<u32>,
    /// The second at which it was handed in.
    pub submit: Second,
    /// The second from which it may run.
    pub eligible: Second,
    pub end: EndAt,
    /// What it holds of each of its nodes.
    pub parts: Items<NamedPart>,
}

impl JobRow {
    /// An equal row.
    pub fn copy(&self) -> Result<JobRow, Memory>
        ensures { IfOk result (λ row. row ≡ self.now) }
    {
        Ok(JobRow {
            id: self.id,
            array: self.array,
            index: self.index,
            name: self.name.copy()?,
            user: self.user.copy()?,
            account: self.account.copy()?,
            partition: self.partition.copy()?,
            qos: self.qos.copy()?,
            state: self.state,
            elapsed: self.elapsed,
            nodes: self.nodes,
            node_names: self.node_names.copy()?,
            reason: self.reason,
            start: self.start,
            priority: self.priority,
            limit: self.limit,
            cpus: self.cpus,
            tasks: self.tasks,
            nice: self.nice,
            dependency: self.dependency.copy()?,
            requeue: self.requeue,
            restarts: self.restarts,
            exit: self.exit,
            submit: self.submit,
            eligible: self.eligible,
            end: self.end,
            parts: self.parts.copy()?,
        })
    }
}

/// How a node stands. "NODE STATE CODES" in sinfo(1).
#[derive(Clone, Copy, PartialEq, Eq, Debug)]
pub enum NodeGroup {
    /// It is down.
    Down,
    /// It is to be drained, and jobs still hold some of its processors.
    Draining,
    /// It is drained: nothing starts there, and nothing of it is held.
    Drained,
    /// All its processors are held.
    Allocated,
    /// Some of its processors are held.
    Mixed,
    /// None of its processors is held.
    Idle,
}

/// The nodes of a partition that stand alike. sinfo(1).
#[derive(PartialEq, Debug, Drop)]
pub struct StateRow {
    pub partition: Name,
    /// Whether it is the default partition.
    pub is_default: bool,
    pub state: PartState,
    /// The longest limit that a job may have there.
    pub limit: Limit,
    pub group: NodeGroup,
    pub nodes: Items<Name>,
}

impl StateRow {
    /// An equal row.
    pub fn copy(&self) -> Result<StateRow, Memory>
        ensures { IfOk result (λ row. row ≡ self.now) }
    {
        Ok(StateRow {
            partition: self.partition.copy()?,
            is_default: self.is_default,
            state: self.state,
            limit: self.limit,
            group: self.group,
            nodes: self.nodes.copy()?,
        })
    }
}

/// What is shown of a node. "show node" in scontrol(1).
#[derive(PartialEq, Debug, Drop)]
pub struct NodeRow {
    pub name: Name,
    /// How many of its processors are held.
    pub held: u64,
    /// How many processors it has.
    pub cpus: u64,
    /// Its memory, in megabytes.
    pub mem: u64,
    /// How much of that is held.
    pub held_mem: u64,
    pub group: NodeGroup,
    pub weight: u64,
    pub features: Items<Name>,
    /// Its last report that was accepted.
    pub heard: Option<Heard>,
}

impl NodeRow {
    /// An equal row.
    pub fn copy(&self) -> Result<NodeRow, Memory>
        ensures { IfOk result (λ row. row ≡ self.now) }
    {
        Ok(NodeRow {
            name: self.name.copy()?,
            held: self.held,
            cpus: self.cpus,
            mem: self.mem,
            held_mem: self.held_mem,
            group: self.group,
            weight: self.weight,
            features: self.features.copy()?,
            heard: self.heard,
        })
    }
}

/// What is shown of a partition. "show partition" in scontrol(1).
#[derive(PartialEq, Debug, Drop)]
pub struct PartRow {
    pub name: Name,
    /// Whether it is the default partition.
    pub is_default: bool,
    pub state: PartState,
    /// The longest limit that a job may have there.
    pub max_time: Limit,
    /// The limit of jobs that ask for none.
    pub default_time: Option<Limit>,
    /// How many nodes a job has there at least.
    pub min_nodes: u32,
    /// How many it may have at most.
    pub max_nodes: Option<u32>,
    /// Jobs of a partition of a higher tier come first.
    pub tier: u64,
    /// What it counts towards priorities.
    pub factor: u64,
    pub nodes: Items<Name>,
    /// How many processors its nodes have.
    pub cpus: u64,
}

impl PartRow {
    /// An equal row.
    pub fn copy(&self) -> Result<PartRow, Memory>
        ensures { IfOk result (λ row. row ≡ self.now) }
    {
        Ok(PartRow {
            name: self.name.copy()?,
            is_default: self.is_default,
            state: self.state,
            max_time: self.max_time,
            default_time: self.default_time,
            min_nodes: self.min_nodes,
            max_nodes: self.max_nodes,
            tier: self.tier,
            factor: self.factor,
            nodes: self.nodes.copy()?,
            cpus: self.cpus,
        })
    }
}

/// What is shown of a reservation. "show reservation" in scontrol(1).
#[derive(PartialEq, Debug, Drop)]
pub struct ResRow {
    pub name: Name,
    /// The second at which it begins.
    pub start: Second,
    /// The second at which it is over.
    pub end: Second,
    pub nodes: Items<Name>,
    pub users: Items<Name>,
    pub accounts: Items<Name>,
}

impl ResRow {
    /// An equal row.
    pub fn copy(&self) -> Result<ResRow, Memory>
        ensures { IfOk result (λ row. row ≡ self.now) }
    {
        Ok(ResRow {
            name: self.name.copy()?,
            start: self.start,
            end: self.end,
            nodes: self.nodes.copy()?,
            users: self.users.copy()?,
            accounts: self.accounts.copy()?,
        })
    }
}

/// A record that is shown.
#[derive(PartialEq, Debug, Drop)]
pub enum Row {
    Job(JobRow),
    States(StateRow),
    Priority(PriorityRow),
    Node(NodeRow),
    Partition(PartRow),
    Reservation(ResRow),
}

impl Plain for Row {
    fn copy(&self) -> Result<Row, Memory> {
        match self {
            Row::Job(row) => Ok(Row::Job(row.copy()?)),
            Row::States(row) => Ok(Row::States(row.copy()?)),
            Row::Priority(row) => Ok(Row::Priority(row.copy()?)),
            Row::Node(row) => Ok(Row::Node(row.copy()?)),
            Row::Partition(row) => Ok(Row::Partition(row.copy()?)),
            Row::Reservation(row) => Ok(Row::Reservation(row.copy()?)),
        }
    }
}

/// The records that are shown, in the order of their lines.
#[derive(PartialEq, Debug, Drop)]
pub struct View {
    pub rows: Items<Row>,
}

impl View {
    /// An equal view.
    pub fn copy(&self) -> Result<View, Memory>
        ensures { IfOk result (λ view. view ≡ self.now) }
    {
        Ok(View {
            rows: self.rows.copy()?,
        })
    }
}
