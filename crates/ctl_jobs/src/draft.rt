//! A submission with its basis.

use node_state::partition_record::PartRecord;
use plain_data::job::JobDesc;
use small_texts::name::Name;

/// What a user hands in at a moment, with its basis: what it counts for, and its partition (own).
#[derive(Drop)]
pub(crate) struct Draft<'a> {
    pub moment: u64,
    pub user: &'a Name,
    pub desc: &'a JobDesc,
    pub account: Name,
    /// The association's place in the list of associations.
    pub assoc: u32,
    /// The place of its quality of service in the list of these.
    pub qos: u32,
    /// The partition's place in the list of partitions.
    pub place: u32,
    pub partition: &'a PartRecord,
}
