//! All that is saved.

use crate::job::SavedJob;
use crate::parts::{
    SavedArray, SavedNode, SavedPartition, SavedPlaced, SavedReservation, SavedUsage,
};
use node_state::record::DroppedNode;
use plain_data::items::Items;

/// What a controller keeps of its cluster, beside the two files that it was opened from and beside its history (own).
#[derive(Drop)]
pub struct Saved {
    /// The second of the last request that was accepted.
    pub moment: u64,
    /// The number that the next job gets.
    pub next_id: u32,
    pub partitions: Items<SavedPartition>,
    pub nodes: Items<SavedNode>,
    /// The nodes that are no longer there and were heard, in byte order of their names.
    pub dropped: Items<DroppedNode>,
    pub usage: Items<SavedUsage>,
    pub reservations: Items<SavedReservation>,
    /// In the order of their numbers.
    pub arrays: Items<SavedArray>,
    /// In the order of their numbers.
    pub jobs: Items<SavedJob>,
    /// The placements of the last pass that didn't start.
    pub plan: Items<SavedPlaced>,
}
