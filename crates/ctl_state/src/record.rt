//! What the state keeps of arrays.

use plain_data::array::Indices;

/// An array of jobs of which there are tasks: its indices are kept once for all of these (own).
#[derive(Drop)]
pub struct ArrayRecord {
    /// The number of its first task.
    pub id: u32,
    /// The indices of all tasks that it was handed in with.
    pub indices: Indices,
}
