//! How a run ends, and what is told of it.

ghost use Rattle.std.specs.Prelude.{◌≡◌, ◌≤◌, length};
ghost use Rattle.slurm_io.specs.Bytes.{Tells};
ghost use Rattle.slurm_session.specs.Lines.{cause_line, file_line, kind_behind, line_of, status_of, usage_line};

use arrayvec::ArrayString;
use cluster_opening::BadFile;
use session_talk::{Ended, How};
use slurm_io::Sink;

/// Room for a line of errors.
const LINE_LEN: usize = 128;

/// How a run ends (own).
#[derive(Clone, Copy, Debug, PartialEq, Eq)]
pub enum RunEnd {
    /// The words are off.
    Usage,
    /// A read of one of the files failed.
    NoFile,
    /// One of them is bad.
    BadFile(BadFile),
    /// The file of the session is longer than one may be.
    LongText,
    /// Memory was wanting before the session.
    Memory,
    /// There was a session, which ended so.
    Talked(Ended),
}

impl RunEnd {
    ghost use Rattle.std.specs.Prelude.{◌≡◌};
    ghost use Rattle.slurm_session.specs.Lines.{status_of};

    /// The status that the program ends with.
    pub fn status(self) -> u8
        ensures { result ≡ status_of self }
    {
        match self {
            RunEnd::Usage => 2,
            RunEnd::BadFile(bad) => bad.status(),
            RunEnd::NoFile => 5,
            RunEnd::Memory => 8,
            RunEnd::LongText => 9,
            RunEnd::Talked(ended) => match ended.how {
                How::Closed | How::Quit | How::TooLong => u8::from(ended.wrong),
                How::ReadFault => 5,
                How::WriteFault => 6,
                How::Memory => 8,
                How::Spent => 9,
            },
        }
    }
}

fn usage_line() -> ArrayString<LINE_LEN>
    ensures { result.bytes ≡ usage_line }
{
    let mut line = ArrayString::new();
    line.push_str("usage: slurm_session -f CONF -a ASSOC [--state=STATE] [FILE]\n");
    line
}

// A line that names a cause.
fn cause_line(cause: &str) -> ArrayString<LINE_LEN>
    requires { length cause.now ≤ 16 }
    ensures { result.bytes ≡ cause_line cause.now }
{
    let mut line = ArrayString::new();
    line.push_str("slurm_session: error: ");
    line.push_str(cause);
    line.push_str("\n");
    line
}

fn kind_behind(bad: BadFile) -> &'static str
    ensures text { result.now ≡ kind_behind bad }
    ensures short { length result.now ≤ 10 }
{
    match bad {
        BadFile::Conf { .. } | BadFile::Assocs { .. } => "",
        BadFile::State { .. } => ": BadState",
    }
}

// The line of a bad file.
fn file_line(bad: BadFile) -> ArrayString<LINE_LEN>
    ensures { result.bytes ≡ file_line bad }
{
    let mut line = ArrayString::new();
    let text = bad.text();
    line.push_str("slurm_session: error: ");
    line.push_str(text.as_str());
    line.push_str(kind_behind(bad));
    line.push_str("\n");
    line
}

// The line of a run that ended so.
fn line_of(end: RunEnd) -> ArrayString<LINE_LEN>
    ensures { result.bytes ≡ line_of end }
{
    match end {
        RunEnd::Usage => usage_line(),
        RunEnd::BadFile(bad) => file_line(bad),
        RunEnd::NoFile => cause_line("read"),
        RunEnd::LongText => cause_line("spent"),
        RunEnd::Memory => cause_line("memory"),
        RunEnd::Talked(ended) => match ended.how {
            How::Closed | How::Quit | How::TooLong => ArrayString::new(),
            How::ReadFault => cause_line("read"),
            How::WriteFault => cause_line("write"),
            How::Memory => cause_line("memory"),
            How::Spent => cause_line("spent"),
        },
    }
}

/// Writes the line of a run that ended so, and passes over a fault: the status says what went wrong before.
pub(crate) fn tell_end<E: Sink>(errors: &mut E, end: RunEnd)
    ensures { Tells (E.taken errors.old) (E.taken errors.new) (E.write_faults errors.old) (E.write_faults errors.new)
        (line_of end) }
{
    let line = line_of(end);
    slurm_io::tell(errors, line.as_str().as_bytes());
}
