//! How a run ends, and what is told of it.

ghost use Rattle.std.specs.Prelude.{◌≡◌, ◌≤◌, ◌++◌, length, codes};
ghost use Rattle.cluster_opening.specs.BadFiles.{bad_text};
ghost use Rattle.slurm_io.specs.Bytes.{Tells};
ghost use Rattle.slurm_top.specs.Lines.{status_of, line_of, place_line, call_line, unopened};

use crate::CallEnd;
use arrayvec::ArrayString;
use cluster_opening::{BadFile, OpenRefusal};
use ctl_session::How;
use itoa::Buffer;
use slurm_io::Sink;

/// Room for a line of errors.
const LINE_LEN: usize = 128;

/// How a run ends.
#[derive(Clone, Copy, Debug, PartialEq, Eq)]
pub enum End {
    /// The words are off.
    Usage,
    /// A read of one of the files failed.
    NoFile,
    /// One of them is bad.
    BadFile(BadFile),
    /// Memory was wanting before the script, or for a server.
    Memory,
    /// The script was run, and ended so.
    Script(How),
    /// The script that a number stands for was written, or the line that tells of a simulation.
    Generated,
    /// A write of it failed, or one of a server's output.
    WriteFault,
    /// A job of a simulation is left behind its last round, or the text of a server's state is longer than one may be.
    Spent,
    /// A server was shut down.
    Served,
    /// The doors of a server weren't opened, or one of them failed.
    DoorFault,
    /// A server was called, and the call ended so.
    Called(CallEnd),
}

impl End {
    /// The status that the program ends with.
    pub fn status(self) -> u8
        ensures { result ≡ status_of self }
    {
        match self {
            End::Script(How::Closed | How::Shut) | End::Generated | End::Served => 0,
            End::Usage => 2,
            End::BadFile(bad) => bad.status(),
            End::NoFile | End::Script(How::ReadFault) => 5,
            End::Script(How::WriteFault) | End::WriteFault => 6,
            End::Script(How::Truncated { .. } | How::Bad { .. }) => 7,
            End::Memory | End::Script(How::Memory) => 8,
            End::Spent | End::Script(How::Spent) => 9,
            End::DoorFault => 10,
            End::Called(end) => end.status(),
        }
    }
}

/// The end of a run whose cluster wasn't opened.
pub fn end_unopened(refusal: OpenRefusal) -> End
    ensures { result ≡ unopened refusal }
{
    match refusal {
        OpenRefusal::NoFile => End::NoFile,
        OpenRefusal::Bad(bad) => End::BadFile(bad),
        OpenRefusal::Memory => End::Memory,
    }
}

// A line that names a cause.
fn cause_line(cause: &str) -> ArrayString<LINE_LEN>
    requires { length cause.now ≤ 16 }
    ensures { result.bytes ≡ codes "slurm: error: " ++ cause.now ++ codes "\n" }
{
    let mut line = ArrayString::new();
    line.push_str("slurm: error: ");
    line.push_str(cause);
    line.push_str("\n");
    line
}

fn place_line(place: u64) -> ArrayString<LINE_LEN>
    ensures { result.bytes ≡ place_line place }
{
    let mut line = ArrayString::new();
    let mut buffer = Buffer::new();
    line.push_str("slurm: error: block at byte ");
    line.push_str(buffer.format(place));
    line.push_str("\n");
    line
}

// The line of a bad file.
fn file_line(bad: BadFile) -> ArrayString<LINE_LEN>
    ensures { result.bytes ≡ codes "slurmctld: error: " ++ bad_text bad ++ codes "\n" }
{
    let mut line = ArrayString::new();
    let text = bad.text();
    line.push_str("slurmctld: error: ");
    line.push_str(text.as_str());
    line.push_str("\n");
    line
}

// The line of a call that ended so.
fn call_line(end: CallEnd) -> ArrayString<LINE_LEN>
    ensures { result.bytes ≡ call_line end }
{
    match end {
        CallEnd::Replied { .. } => ArrayString::new(),
        CallEnd::ReadFault => cause_line("read"),
        CallEnd::WriteFault => cause_line("write"),
        CallEnd::BadReply => place_line(0),
        CallEnd::Memory => cause_line("memory"),
        CallEnd::Spent => cause_line("spent"),
        CallEnd::DoorFault => cause_line("door"),
    }
}

// The line of a run that ended so. It takes no memory.
fn line_of(end: End) -> ArrayString<LINE_LEN>
    ensures { result.bytes ≡ line_of end }
{
    match end {
        End::Script(How::Closed | How::Shut) | End::Generated | End::Served => ArrayString::new(),
        End::Usage => cause_line("usage"),
        End::BadFile(bad) => file_line(bad),
        End::NoFile | End::Script(How::ReadFault) => cause_line("read"),
        End::Script(How::WriteFault) | End::WriteFault => cause_line("write"),
        End::Script(How::Truncated { place } | How::Bad { place }) => place_line(place),
        End::Memory | End::Script(How::Memory) => cause_line("memory"),
        End::Spent | End::Script(How::Spent) => cause_line("spent"),
        End::DoorFault => cause_line("door"),
        End::Called(end) => call_line(end),
    }
}

/// Writes the line of a run that ended so, in one piece, and passes over a fault: the status says what went wrong
/// before.
pub fn tell<E: Sink>(errors: &mut E, end: End)
    ensures { Tells (E.taken errors.old) (E.taken errors.new) (E.write_faults errors.old) (E.write_faults errors.new)
        (line_of end) }
{
    let line = line_of(end);
    slurm_io::tell(errors, line.as_str().as_bytes());
}
