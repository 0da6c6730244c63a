//! Partitions, in the order of their lines.

use crate::partition_lines::PartLine;
use small_texts::memory_error::Memory;
use std::alloc::Global;
use std::marker::Model;

/// Lines of partitions. A contract sees the list of them.
#[derive(Drop)]
pub(crate) struct PartTable {
    lines: Vec<PartLine>,
}

impl Model for PartTable {
    ghost use Rattle.std.specs.Prelude.{List};
    ghost use Rattle.conf_reader.specs.declared.partition_lines.PartLine.{PartLine};

    ghost Value = { List PartLine };

    ghost view = { λ table. table.lines.items };
}

impl PartTable {
    ghost use Rattle.std.specs.Prelude.{◌≡◌, [], ◌∷◌, ◌++◌, OnOk};

    pub(crate) fn new(alloc: Global) -> PartTable
        ensures { result ≡ [] }
    {
        PartTable {
            lines: Vec::new(alloc),
        }
    }

    pub(crate) fn as_slice(&self) -> &[PartLine]
        ensures { result.now ≡ self.now }
    {
        self.lines.as_slice()
    }

    pub(crate) fn push(&mut self, line: PartLine) -> Result<(), Memory>
        ensures { OnOk result (self.new ≡ self.old ++ line ∷ []) }
    {
        self.lines.push(line)?;
        Ok(())
    }

    pub(crate) fn into_vec(self) -> Vec<PartLine>
        ensures { result.items ≡ self }
    {
        self.lines
    }
}
