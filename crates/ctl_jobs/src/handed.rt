//! What a submission makes.

use ctl_state::record::ArrayRecord;
use job_table::record::JobRecord;

/// The jobs that a submission makes, before they are in the table: their memory is taken (own).
#[derive(Drop)]
pub struct Handed {
    /// One job, or the tasks of an array in the order of their indices.
    pub jobs: Vec<JobRecord>,
    /// The index list of that array.
    pub array: Option<ArrayRecord>,
}
