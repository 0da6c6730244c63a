//! What is kept of a node.

ghost use Rattle.std.specs.Prelude.{◌≡◌, IfOk};

use plain_data::CpuIds;
use plain_data::conf::NodeConf;
use request_data::report::Heard;
use small_texts::memory_error::Memory;
use small_texts::name::Name;

/// By whom a node is down.
#[derive(Clone, Copy, Debug, PartialEq, Eq)]
pub enum DownBy {
    /// It is up.
    No,
    /// Its daemon wasn't heard for too long.
    Silent,
    /// An operator, or slurm.conf, set it down.
    Set,
}

/// A node and what the controller knows of it.
#[derive(Drop)]
pub struct NodeRecord {
    pub conf: NodeConf,
    pub down: DownBy,
    /// Whether it is to be drained: nothing starts there.
    pub drain: bool,
    /// Whether it was set down, and a report without running starts was accepted since then.
    pub empty: bool,
    /// None where no report of it was accepted yet.
    pub heard: Option<Heard>,
}

fn copy_conf(conf: &NodeConf) -> Result<NodeConf, Memory>
    ensures { IfOk result (λ copy. copy ≡ conf.now) }
{
    Ok(NodeConf {
        name: conf.name.copy()?,
        cpus: conf.cpus,
        mem: conf.mem,
        weight: conf.weight,
        features: conf.features.copy()?,
        state: conf.state,
    })
}

impl NodeRecord {
    /// An equal record.
    pub fn copy(&self) -> Result<NodeRecord, Memory>
        ensures { IfOk result (λ node. node ≡ self.now) }
    {
        Ok(NodeRecord {
            conf: copy_conf(&self.conf)?,
            down: self.down,
            drain: self.drain,
            empty: self.empty,
            heard: self.heard,
        })
    }
}

/// What is held of a node.
#[derive(Drop)]
pub struct Held {
    /// The processors.
    pub cpus: CpuIds,
    /// In megabytes.
    pub mem: u64,
}

impl Held {
    /// Equal holdings. It takes no memory.
    pub fn copy(&self) -> Held
        ensures { result ≡ self.now }
    {
        Held {
            cpus: self.cpus.copy(),
            mem: self.mem,
        }
    }
}

/// A node that slurm.conf no longer names, and that was heard before (own).
#[derive(Drop)]
pub struct DroppedNode {
    pub name: Name,
    /// The boot number of its daemon, by its last report.
    pub boot: u64,
    /// The number of that report.
    pub number: u64,
}

/// What may happen to a node. "State" of `update NodeName` in scontrol(1), and (own) silence and reports.
#[derive(Clone, Copy, Debug)]
pub enum NodeChange {
    /// It wasn't heard for too long.
    Silent,
    /// An operator sets it down.
    Down,
    /// An operator wants it drained.
    Drain,
    /// An operator lets it go on.
    Resume,
    /// A report of it was accepted.
    Heard {
        heard: Heard,
        /// Whether the report lists no running start.
        empty: bool,
    },
}
