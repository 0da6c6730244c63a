//! Why an association file was refused.

ghost use Rattle.std.specs.Prelude.{◌≡◌, ◌≤◌, length};
ghost use Rattle.assoc_reader.specs.Refusal.{kind_text};

use small_texts::memory_error;
use std::error::Error;
use std::fmt;
use text_values::refusal::ValueRefusal;

/// What is wrong with a line.
#[derive(Clone, Copy, PartialEq, Eq, Debug)]
pub enum AssocKind {
    /// It has a byte that isn't ASCII.
    NotAscii,
    /// It is of none of the forms, or an option isn't a key and a value.
    BadLine,
    /// The key isn't one of this kind of line.
    UnknownKey,
    /// The value isn't one of its key.
    BadValue,
    /// An account, a quality of service or a user of this account was named by an earlier line.
    TwiceNamed,
    /// No earlier line names the account.
    UnknownParent,
    /// There are too many users, children, levels, qualities of service or bytes.
    OverLimit,
    /// It stands before the line of the cluster, or the file has none.
    NoCluster,
}

impl AssocKind {
    /// How it is printed.
    pub fn name(self) -> &'static str
        ensures text { result.now ≡ kind_text self }
        ensures short { length result.now ≤ 13 }
    {
        match self {
            AssocKind::NotAscii => "NotAscii",
            AssocKind::BadLine => "BadLine",
            AssocKind::UnknownKey => "UnknownKey",
            AssocKind::BadValue => "BadValue",
            AssocKind::TwiceNamed => "TwiceNamed",
            AssocKind::UnknownParent => "UnknownParent",
            AssocKind::OverLimit => "OverLimit",
            AssocKind::NoCluster => "NoCluster",
        }
    }
}

impl fmt::Display for AssocKind {
    ghost use Rattle.std.specs.Prelude.{Some};
    ghost use Rattle.assoc_reader.specs.Refusal.{kind_text};

    ghost output = { λ kind. Some (kind_text kind) };

    fn fmt<W: fmt::Write>(&self, f: &mut fmt::Formatter<W>) -> fmt::Result {
        f.write_str(self.name())
    }
}

/// Why a file was refused: its first bad line, or want of memory.
#[derive(Clone, Copy, PartialEq, Eq, Debug)]
pub enum AssocRefusal {
    /// The line counts from 1; 0 is the file as a whole.
    At { line: u32, kind: AssocKind },
    Memory,
}

impl fmt::Display for AssocRefusal {
    ghost use Rattle.std.specs.Prelude.{Some};
    ghost use Rattle.assoc_reader.specs.Refusal.{refusal_message};

    ghost output = { λ refusal. Some (refusal_message refusal) };

    fn fmt<W: fmt::Write>(&self, f: &mut fmt::Formatter<W>) -> fmt::Result {
        match self {
            AssocRefusal::At { line, kind } => write!(f, "assoc line {line}: {kind}"),
            AssocRefusal::Memory => write!(f, "out of memory"),
        }
    }
}

impl Error for AssocRefusal {}

impl From<memory_error::Memory> for AssocRefusal {
    ghost use Rattle.std.specs.Prelude.{◌≡◌};
    ghost use Rattle.assoc_reader.specs.declared.refusal.AssocRefusal.TheVariants.{Memory};

    ghost from_gives = { λ _ e. e ≡ Memory };

    fn from(_error: memory_error::Memory) -> AssocRefusal {
        AssocRefusal::Memory
    }
}

/// Why a line wasn't read.
#[derive(Clone, Copy)]
pub enum Fault {
    Refused(AssocKind),
    Memory,
}

impl From<memory_error::Memory> for Fault {
    ghost use Rattle.std.specs.Prelude.{◌≡◌};
    ghost use Rattle.assoc_reader.specs.declared.refusal.Fault.TheVariants.{Memory};

    ghost from_gives = { λ _ e. e ≡ Memory };

    fn from(_error: memory_error::Memory) -> Fault {
        Fault::Memory
    }
}

impl From<ValueRefusal> for Fault {
    ghost use Rattle.std.specs.Prelude.{◌≡◌};
    ghost use Rattle.assoc_reader.specs.Refusal.{of_value};

    ghost from_gives = { λ value e. e ≡ of_value value };

    fn from(refusal: ValueRefusal) -> Fault {
        match refusal {
            ValueRefusal::BadValue => Fault::Refused(AssocKind::BadValue),
            ValueRefusal::Memory => Fault::Memory,
        }
    }
}
