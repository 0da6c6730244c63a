//! What became of a call of a server.

ghost use Rattle.std.specs.Prelude.{◌≡◌};
ghost use Rattle.slurm_client.specs.Calling.{status_of};

/// What became of a call of a server (own).
#[derive(Clone, Copy, Debug, PartialEq, Eq)]
pub enum Called {
    /// A reply came, with this status, and its text was written.
    Replied { status: u8 },
    /// A read of the link failed.
    ReadFault,
    /// A write failed, of the link or of the output.
    WriteFault,
    /// What came is no reply frame.
    BadReply,
    /// Memory was wanting.
    Memory,
}

impl Called {
    /// The status that a command ends with after such a call.
    pub fn status(self) -> u8
        ensures { result ≡ status_of self }
    {
        match self {
            Called::Replied { status } => status,
            Called::ReadFault => 5,
            Called::WriteFault => 6,
            Called::BadReply => 7,
            Called::Memory => 8,
        }
    }
}
