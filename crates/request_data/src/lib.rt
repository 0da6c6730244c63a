//! What users and daemons ask the controller, as plain data.
#![tactic(auto)]

use crate::report::{Done, Start};
use plain_data::Plain;
use small_texts::memory_error::Memory;

pub mod query;
pub mod report;
pub mod request;
pub mod reservation;
pub mod state;
pub mod target;

pub use plain_data::boxed;

impl Plain for Start {
    fn copy(&self) -> Result<Start, Memory> {
        Ok(*self)
    }
}

impl Plain for Done {
    fn copy(&self) -> Result<Done, Memory> {
        Ok(*self)
    }
}
