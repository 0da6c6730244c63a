//! What is kept of a job.

ghost use Rattle.std.specs.Prelude.{◌≡◌, IfOk};

use crate::terms::{SharedTerms, Terms};
use plain_data::CpuIds;
use plain_data::items::Items;
use plain_data::limit::Limit;
use plain_data::nice::Nice;
use request_data::state::{HeldBy, JobState};
use small_texts::memory_error::Memory;
use small_texts::name::Name;
use std::alloc::Global;

/// What a job holds of one node.
#[derive(Drop)]
pub struct Part {
    /// The node's place in the list of nodes.
    pub node: u32,
    /// The processors.
    pub cpus: CpuIds,
    /// In megabytes.
    pub mem: u64,
}

impl Part {
    /// An equal part. It takes no memory.
    pub fn copy(&self) -> Part
        ensures { result ≡ self.now }
    {
        Part {
            node: self.node,
            cpus: self.cpus.copy(),
            mem: self.mem,
        }
    }
}

fn copy_parts(alloc: Global, parts: &[Part]) -> Result<Vec<Part>, Memory>
    ensures { IfOk result (λ copies. copies.items ≡ parts.now) }
{
    let mut copies = Vec::with_capacity(alloc, parts.len())?;
    for part in parts {
        copies.push(part.copy())?;
    }
    Ok(copies)
}

/// A job. A task of an array is a job of its own.
#[derive(Drop)]
pub struct JobRecord {
    /// Its number, from 1.
    pub id: u32,
    /// The number of its array, which is that of the array's first task.
    pub array: Option<u32>,
    /// Its index in its array.
    pub index: Option<u32>,
    /// The place of its association in the list of associations: its user's, of its account.
    pub assoc: u32,
    /// The place of its quality of service in the list of these.
    pub qos: u32,
    /// The place of its partition in the list of partitions.
    pub partition: u32,
    /// Who handed it in.
    pub user: Name,
    /// What was settled for it when it was handed in.
    pub terms: SharedTerms,
    /// The second at which it was handed in.
    pub submit: u64,
    /// The second from which it counts as waiting.
    pub eligible: u64,
    /// How long it may run.
    pub limit: Limit,
    /// How far its user lowers it in rank.
    pub nice: Nice,
    /// Who holds it back.
    pub held_by: HeldBy,
    pub state: JobState,
    /// How often it was started; the count stands still at its type's end.
    pub starts: u32,
    /// What it holds; the first part's node runs the script.
    pub parts: Items<Part>,
    /// The second of its last start.
    pub started: Option<u64>,
    /// The second at which it left Running, and once it has ended the one at which it ended.
    pub ended: Option<u64>,
    /// The exit code of its script.
    pub exit: Option<u32>,
    /// The nodes of its last start.
    pub last_nodes: Items<Name>,
}

impl JobRecord {
    /// What was settled for it when it was handed in.
    pub fn terms(&self) -> &Terms
        ensures { result.now ≡ self.now.terms }
    {
        self.terms.get()
    }

    /// An equal record, which shares the terms with this one. Linear in what it holds and in the names of its nodes.
    pub fn copy(&self, alloc: Global) -> Result<JobRecord, Memory>
        ensures { IfOk result (λ job. job ≡ self.now) }
    {
        let parts = copy_parts(alloc, self.parts.as_slice())?;
        Ok(JobRecord {
            id: self.id,
            array: self.array,
            index: self.index,
            assoc: self.assoc,
            qos: self.qos,
            partition: self.partition,
            user: self.user.copy()?,
            terms: self.terms.share()?,
            submit: self.submit,
            eligible: self.eligible,
            limit: self.limit,
            nice: self.nice,
            held_by: self.held_by,
            state: self.state,
            starts: self.starts,
            parts: Items::from_vec(parts),
            started: self.started,
            ended: self.ended,
            exit: self.exit,
            last_nodes: self.last_nodes.copy()?,
        })
    }
}
