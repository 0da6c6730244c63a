//! Why a job wasn't read.

use small_texts::memory_error;
use std::error::Error;
use std::fmt;
pub use text_values::word_refusal::WordKind;
pub(crate) use text_values::word_refusal::told;

/// A place of a command. Words and lines count from 1.
#[derive(Clone, Copy)]
pub(crate) enum Place {
    Word(u32),
    /// A line of the script.
    Line(u32),
}

/// Why no job was read: the first bad place of the command, its script before its words, or want of memory.
#[derive(Clone, Copy, PartialEq, Eq, Debug)]
pub enum JobRefusal {
    /// Words count from 1, the command's name being the first.
    BadWord { word: u32, kind: WordKind },
    /// Lines count from 1.
    BadLine { line: u32, kind: WordKind },
    Memory,
}

impl fmt::Display for JobRefusal {
    ghost use Rattle.std.specs.Prelude.{Some};
    ghost use Rattle.sbatch_reader.specs.Refusal.{job_message};

    ghost output = { λ refusal. Some (job_message refusal) };

    fn fmt<W: fmt::Write>(&self, f: &mut fmt::Formatter<W>) -> fmt::Result {
        match self {
            JobRefusal::BadWord { word, kind } => write!(f, "word {word}: {kind}"),
            JobRefusal::BadLine { line, kind } => write!(f, "line {line}: {kind}"),
            JobRefusal::Memory => f.write_str("out of memory"),
        }
    }
}

impl Error for JobRefusal {}

impl From<memory_error::Memory> for JobRefusal {
    ghost use Rattle.std.specs.Prelude.{◌≡◌};
    ghost use Rattle.sbatch_reader.specs.declared.refusal.JobRefusal.TheVariants.{Memory};

    ghost from_gives = { λ _ e. e ≡ Memory };

    fn from(_error: memory_error::Memory) -> JobRefusal {
        JobRefusal::Memory
    }
}

impl Place {
    ghost use Rattle.std.specs.Prelude.{◌≡◌};
    ghost use Rattle.sbatch_reader.specs.Refusal.{refusal_at};

    /// The refusal of this place.
    pub(crate) fn refusal(self, kind: WordKind) -> JobRefusal
        ensures { result ≡ refusal_at self kind }
    {
        match self {
            Place::Word(word) => JobRefusal::BadWord { word, kind },
            Place::Line(line) => JobRefusal::BadLine { line, kind },
        }
    }
}
