//! What a job's priority is made of, as it is told.

ghost use Rattle.std.specs.Prelude.{◌≡◌, IfOk};

use plain_data::nice::Nice;
use small_texts::memory_error::Memory;
use small_texts::name::Name;

/// A priority and what it was made of, as sprio(1) prints them.
#[derive(Clone, Copy, PartialEq, Eq, Debug)]
pub struct PriorityParts {
    pub age: u64,
    pub fair_share: u64,
    pub job_size: u64,
    pub partition: u64,
    pub qos: u64,
    pub nice: Nice,
    /// The priority itself.
    pub sum: u32,
}

/// What is shown of a pending job's priority. sprio(1).
#[derive(PartialEq, Debug, Drop)]
pub struct PriorityRow {
    pub id: u32,
    /// The number of its array, where it is a task of one.
    pub array: Option<u32>,
    /// Its index in that array.
    pub index: Option<u32>,
    pub partition: Name,
    pub user: Name,
    pub parts: PriorityParts,
}

impl PriorityRow {
    /// An equal row.
    pub fn copy(&self) -> Result<PriorityRow, Memory>
        ensures { IfOk result (λ row. row ≡ self.now) }
    {
        Ok(PriorityRow {
            id: self.id,
            array: self.array,
            index: self.index,
            partition: self.partition.copy()?,
            user: self.user.copy()?,
            parts: self.parts,
        })
    }
}
