//! What is saved of a job.

use job_table::terms::SharedTerms;
use plain_data::items::Items;
use plain_data::limit::Limit;
use plain_data::nice::Nice;
use reply_data::view::NamedPart;
use request_data::state::{HeldBy, JobState};
use small_texts::name::Name;

/// A job. A task of an array is a job of its own.
#[derive(Drop)]
pub struct SavedJob {
    pub id: u32,
    /// The number of its array, which is that of the array's first task.
    pub array: Option<u32>,
    /// Its index in its array.
    pub index: Option<u32>,
    /// Who handed it in.
    pub user: Name,
    /// What was settled for it when it was handed in.
    pub terms: SharedTerms,
    pub partition: Name,
    /// How long it may run.
    pub limit: Limit,
    /// How far its user lowers it in rank.
    pub nice: Nice,
    /// The second at which it was handed in.
    pub submit: u64,
    /// The second from which it counts as waiting.
    pub eligible: u64,
    /// Who holds it back.
    pub held_by: HeldBy,
    pub state: JobState,
    /// How often it was started.
    pub starts: u32,
    /// The second of its last start.
    pub started: Option<u64>,
    /// The second at which it left Running, and once it has ended the one at which it ended.
    pub ended: Option<u64>,
    /// The exit code of its script.
    pub exit: Option<u32>,
    /// The nodes of its last start.
    pub last_nodes: Items<Name>,
    /// What it holds.
    pub parts: Items<NamedPart>,
}
