//! Times at which a job may not have nodes, as a list that jobs share.

ghost use Rattle.std.specs.Prelude.{◌≡◌, IfOk, IfSome};
ghost use Rattle.backfill_planner.specs.Stretches.{stretches_of};

use crate::job::Barred;
use crate::stretches::{Stretch, row_at, rows_of};
use small_texts::memory_error::Memory;
use std::marker::Model;
use std::sync::Arc;

// The times in order, and where many jobs share them also the seconds at which each node is barred.
#[derive(Drop)]
struct Times {
    list: Vec<Barred>,
    // By the node's place among the rooms, in the order of the list; a node at or behind the end is in no time.
    by_node: Option<Vec<Vec<Stretch>>>,
}

/// Times at which a job may not have nodes, in any order: a list that jobs share, and that nothing changes once it is
/// made. It may be shared between threads too.
#[derive(Drop)]
pub struct BarredList {
    times: Arc<Times>,
}

impl Model for BarredList {
    ghost use Rattle.std.specs.Prelude.{List, IfSome, map};
    ghost use Rattle.std.specs.Arc.{arc_value};
    ghost use Rattle.backfill_planner.specs.declared.job.Barred.{Barred};
    ghost use Rattle.backfill_planner.specs.Stretches.{HoldsStretches};

    ghost Value = { List Barred };

    ghost view = { λ barred. (arc_value barred.times).list.items };

    ghost invariant = { λ barred. IfSome (arc_value barred.times).by_node (λ rows.
        HoldsStretches (map (λ row. row.items) rows.items) (arc_value barred.times).list.items) };
}

impl BarredList {
    /// These times, for a few jobs: a job that is planned walks all of them for each of its nodes and each second that
    /// are tried. It takes memory for what counts those that share them, and copies none.
    pub fn from_vec(times: Vec<Barred>) -> Result<Self, Memory>
        ensures { IfOk result (λ list. list ≡ times.items) }
    {
        let alloc = *times.allocator();
        Ok(BarredList {
            times: Arc::new(
                alloc,
                Times {
                    list: times,
                    by_node: None,
                },
            )?,
        })
    }

    /// These times, for many jobs: a job that is planned walks only those of the node that is tried. It takes memory for
    /// each of 1,024 nodes and for each node of each time, and walks all times for each node that one of them has; none
    /// of that where there is no time.
    pub fn by_node(times: Vec<Barred>) -> Result<Self, Memory>
        ensures { IfOk result (λ list. list ≡ times.items) }
    {
        let alloc = *times.allocator();
        let by_node = Some(rows_of(alloc, times.as_slice())?);
        Ok(BarredList {
            times: Arc::new(
                alloc,
                Times {
                    list: times,
                    by_node,
                },
            )?,
        })
    }

    /// An equal list, which shares the times with this one. Constant time; it copies no time and takes no memory, and
    /// is refused only where more lists share the times than can be counted.
    pub fn share(&self) -> Result<Self, Memory>
        ensures { IfOk result (λ list. list ≡ self.now) }
    {
        Ok(BarredList {
            times: self.times.clone()?,
        })
    }

    /// The times in order.
    pub fn as_slice(&self) -> &[Barred]
        ensures { result.now ≡ self.now }
    {
        self.times.list.as_slice()
    }

    // The seconds of the times that have the node, in the order of the times, in constant time; None where they are not
    // kept by node.
    pub(crate) fn of_node(&self, node: u32) -> Option<&[Stretch]>
        ensures { IfSome result (λ stretches. stretches.now ≡ stretches_of node self.now) }
    {
        match &self.times.by_node {
            Some(rows) => Some(row_at(rows.as_slice(), node)),
            None => None,
        }
    }
}
