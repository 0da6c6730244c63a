//! The outside as the controller sees it: where bytes come from and where they go, with each fault counted.
#![tactic(auto)]

mod copy;
mod file_shelf;
mod link;
mod mem_link;
mod mem_shelf;
mod mem_sure;
mod pair;
mod shelf;
mod sink;
mod source;
mod system;

pub use file_shelf::FileShelf;
pub use link::Link;
pub use mem_link::MemLink;
pub use mem_shelf::MemShelf;
pub use mem_sure::MemSure;
pub use pair::Pair;
pub use shelf::{Shelf, ShelfRefusal, read_file};
pub use sink::{Sink, tell, write_all};
pub use source::{Failed, Source};
pub use system::{ReaderSource, WriterSink};
