//! Why files give no cluster.

ghost use Rattle.std.specs.Prelude.{◌≡◌, ◌≤◌, ◌++◌, length, codes, decimal};
ghost use Rattle.cluster_opening.specs.BadFiles.{bad_status, bad_text};

use arrayvec::ArrayString;
use assoc_reader::refusal::{AssocKind, AssocRefusal};
use conf_reader::conf_refusal::{ConfKind, ConfRefusal};
use itoa::Buffer;
use small_texts::memory_error;

/// Room for what is told of a bad file.
const TEXT_LEN: usize = 64;

/// What is wrong with a file of a cluster.
#[derive(Clone, Copy, Debug, PartialEq, Eq)]
pub enum BadFile {
    /// A line of slurm.conf(5) is bad; 0 is the file as a whole.
    Conf { line: u32, kind: ConfKind },
    /// A line of the association file is bad, sacctmgr(1); 0 is the file as a whole.
    Assocs { line: u32, kind: AssocKind },
    /// A line of the saved state is bad; 0 is that it is too long, or isn't that of this cluster.
    State { line: u32 },
}

// Which line of a file is bad.
fn place_text(file: &str, line: u32) -> ArrayString<TEXT_LEN>
    requires { length file.now ≤ 5 }
    ensures text { result.bytes ≡ file.now ++ codes " line " ++ decimal line }
    ensures short { length result.bytes ≤ 21 }
{
    let mut text = ArrayString::new();
    let mut buffer = Buffer::new();
    text.push_str(file);
    text.push_str(" line ");
    text.push_str(buffer.format(line));
    text
}

// Which line of a file is bad, and why.
fn cause_text(file: &str, line: u32, kind: &str) -> ArrayString<TEXT_LEN>
    requires file { length file.now ≤ 5 }
    requires kind { length kind.now ≤ 13 }
    ensures text { result.bytes ≡ file.now ++ codes " line " ++ decimal line ++ codes ": " ++ kind.now }
    ensures short { length result.bytes ≤ 36 }
{
    let mut text = place_text(file, line);
    text.push_str(": ");
    text.push_str(kind);
    text
}

impl BadFile {
    /// The status of a program that is given such a file.
    pub fn status(self) -> u8
        ensures { result ≡ bad_status self }
    {
        match self {
            BadFile::Conf { .. } => 3,
            BadFile::Assocs { .. } => 4,
            BadFile::State { .. } => 11,
        }
    }

    /// What is told of it: which line is bad, and why.
    pub fn text(self) -> ArrayString<TEXT_LEN>
        ensures text { result.bytes ≡ bad_text self }
        ensures short { length result.bytes ≤ 36 }
    {
        match self {
            BadFile::Conf { line, kind } => cause_text("conf", line, kind.name()),
            BadFile::Assocs { line, kind } => cause_text("assoc", line, kind.name()),
            BadFile::State { line } => place_text("state", line),
        }
    }
}

/// Why files give no cluster. One of slurm.conf comes first, then one of the association file, then one of the saved
/// state.
#[derive(Clone, Copy, Debug, PartialEq, Eq)]
pub enum ClusterRefusal {
    Bad(BadFile),
    Memory,
}

impl From<ConfRefusal> for ClusterRefusal {
    ghost use Rattle.std.specs.Prelude.{◌≡◌};
    ghost use Rattle.cluster_opening.specs.Cluster.{of_conf};

    ghost from_gives = { λ refusal e. e ≡ of_conf refusal };

    fn from(refusal: ConfRefusal) -> ClusterRefusal {
        match refusal {
            ConfRefusal::At { line, kind } => ClusterRefusal::Bad(BadFile::Conf { line, kind }),
            ConfRefusal::Memory => ClusterRefusal::Memory,
        }
    }
}

impl From<AssocRefusal> for ClusterRefusal {
    ghost use Rattle.std.specs.Prelude.{◌≡◌};
    ghost use Rattle.cluster_opening.specs.Cluster.{of_assocs};

    ghost from_gives = { λ refusal e. e ≡ of_assocs refusal };

    fn from(refusal: AssocRefusal) -> ClusterRefusal {
        match refusal {
            AssocRefusal::At { line, kind } => ClusterRefusal::Bad(BadFile::Assocs { line, kind }),
            AssocRefusal::Memory => ClusterRefusal::Memory,
        }
    }
}

impl From<memory_error::Memory> for ClusterRefusal {
    ghost use Rattle.std.specs.Prelude.{◌≡◌};
    ghost use Rattle.cluster_opening.specs.declared.refusal.ClusterRefusal.TheVariants.{Memory};

    ghost from_gives = { λ _ e. e ≡ Memory };

    fn from(_error: memory_error::Memory) -> ClusterRefusal {
        ClusterRefusal::Memory
    }
}
