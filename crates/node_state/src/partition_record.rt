//! What is kept of a partition.

use plain_data::conf::{PartConf, PartState};
use plain_data::items::Items;

/// A partition and how it stands.
#[derive(Drop)]
pub struct PartRecord {
    pub conf: PartConf,
    /// What it does with jobs now.
    pub state: PartState,
    /// The places of its nodes in the list of nodes, in the order of its line.
    pub nodes: Items<u32>,
}
