//! What is saved beside the jobs.

use node_state::record::DownBy;
use plain_data::conf::PartState;
use plain_data::items::Items;
use plain_data::ranged::LongRanged;
use request_data::report::Heard;
use small_texts::name::Name;

/// A partition, and whether it takes and starts jobs.
#[derive(Drop)]
pub struct SavedPartition {
    pub name: Name,
    pub state: PartState,
}

/// A node, and what the controller knows of it.
#[derive(Drop)]
pub struct SavedNode {
    pub name: Name,
    pub down: DownBy,
    /// Whether it is to be drained.
    pub drain: bool,
    /// Whether it was set down, and a report without running starts was accepted since then.
    pub empty: bool,
    /// Its last report that was accepted.
    pub heard: Option<Heard>,
}

/// What the starts of a user's jobs in an account have used that left Running.
#[derive(Drop)]
pub struct SavedUsage {
    pub account: Name,
    pub user: Name,
    /// In seconds of one processor.
    pub total: LongRanged<1, 18446744073709551615>,
}

/// A reservation. "RESERVATIONS" in scontrol(1).
#[derive(Drop)]
pub struct SavedReservation {
    pub name: Name,
    /// The second at which it begins.
    pub start: u64,
    /// The second at which it is over.
    pub end: u64,
    pub nodes: Items<Name>,
    pub users: Items<Name>,
    pub accounts: Items<Name>,
}

/// The indices of an array, those of tasks that are gone too.
#[derive(Drop)]
pub struct SavedArray {
    /// The number of its first task.
    pub id: u32,
    pub indices: Items<u32>,
}

/// What a planned job is to get of a node.
#[derive(Drop)]
pub struct SavedShare {
    pub node: Name,
    pub tasks: u32,
    pub cpus: u32,
    /// In megabytes.
    pub mem: u64,
}

/// When and where a pending job was planned last.
#[derive(Drop)]
pub struct SavedPlaced {
    pub id: u32,
    /// In seconds since 1970.
    pub start: u64,
    /// In the order of the job's nodes.
    pub shares: Items<SavedShare>,
}
