//! The plain data that readers of files and scripts make, and that the controller's crates take; the numbers of a node's
//! processors; numbers in their texts.
#![tactic(auto)]

ghost use Rattle.std.specs.Prelude.{◌≡◌, IfOk};

use small_texts::memory_error::Memory;
use small_texts::name::Name;

pub mod array;
pub mod assoc;
pub mod boxed;
pub mod conf;
pub mod dependency;
mod elapsed;
pub mod features;
pub mod files;
pub mod items;
pub mod job;
pub mod limit;
mod limits;
pub mod mem_ask;
pub mod nice;
pub mod period;
pub mod ranged;
mod ratios;
mod row;
pub mod seconds;

pub use elapsed::print_elapsed;
pub use limits::{BadTime, parse_limit};
pub use ratios::{Ratio, compare, scaled};
pub use row::{CpuIds, NodePlaces};

/// A value of which an equal one can be made, where there is memory.
pub trait Plain: Drop {
    /// An equal value.
    fn copy(&self) -> Result<Self, Memory>
        ensures { IfOk result (λ other. other ≡ self.now) };
}

impl Plain for Name {
    fn copy(&self) -> Result<Name, Memory> {
        self.copy()
    }
}

impl<T: Plain> Plain for Option<T> {
    fn copy(&self) -> Result<Option<T>, Memory> {
        match self {
            Some(value) => Ok(Some(value.copy()?)),
            None => Ok(None),
        }
    }
}
