//! How a command ends that calls a server.

ghost use Rattle.std.specs.Prelude.{◌≡◌};
ghost use Rattle.slurm_top.specs.Calls.{status_of, end_of};

use slurm_client::Called;

/// How a command ends that calls a server (own).
#[derive(Clone, Copy, Debug, PartialEq, Eq)]
pub enum CallEnd {
    /// A reply came, with this status, and its text was written.
    Replied { status: u8 },
    /// A read failed: of the shelf, of the input or of the link.
    ReadFault,
    /// A write failed: of the link or of the output.
    WriteFault,
    /// What came is no reply frame.
    BadReply,
    /// Memory was wanting.
    Memory,
    /// The script, or the configuration, is longer than a server takes.
    Spent,
    /// The host couldn't dial the port.
    DoorFault,
}

impl CallEnd {
    /// The status that the command ends with.
    pub fn status(self) -> u8
        ensures { result ≡ status_of self }
    {
        match self {
            CallEnd::Replied { status } => status,
            CallEnd::ReadFault => 5,
            CallEnd::WriteFault => 6,
            CallEnd::BadReply => 7,
            CallEnd::Memory => 8,
            CallEnd::Spent => 9,
            CallEnd::DoorFault => 10,
        }
    }
}

/// How a command ends, by what became of its call over the link.
pub(crate) fn end_of(called: Called) -> CallEnd
    ensures { result ≡ end_of called }
{
    match called {
        Called::Replied { status } => CallEnd::Replied { status },
        Called::ReadFault => CallEnd::ReadFault,
        Called::WriteFault => CallEnd::WriteFault,
        Called::BadReply => CallEnd::BadReply,
        Called::Memory => CallEnd::Memory,
    }
}
