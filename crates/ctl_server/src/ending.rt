//! How a server ends.

use ctl_desk::book::Book;

/// How a server ends.
#[derive(Drop)]
pub enum ServeEnd {
    /// A shutdown was accepted, and all its parts have returned: the book, with all that was entered.
    Shut(Book),
    /// The doors weren't opened, or one of them failed.
    DoorFault,
    /// The line that tells of the port wasn't written whole.
    WriteFault,
    /// Want of memory.
    Memory,
}
