//! Why a file was refused.

ghost use Rattle.std.specs.Prelude.{◌≡◌, ◌≤◌, length};
ghost use Rattle.text_values.specs.ConfRefusal.{kind_text};

use crate::refusal::ValueRefusal;
use small_texts::memory_error;
use std::error::Error;
use std::fmt;

/// What is wrong with a line.
#[derive(Clone, Copy, PartialEq, Eq, Debug)]
pub enum ConfKind {
    /// Its bytes aren't UTF-8.
    NotUtf8,
    /// A word isn't a key and a value, or a quote isn't closed.
    BadPair,
    /// The key isn't one of this kind of line.
    UnknownKey,
    /// The value isn't one of its key.
    BadValue,
    /// A node or a partition was named by an earlier line.
    TwiceNamed,
    /// A partition has a node that no line names.
    UnknownNode,
    /// The file has no partition.
    NoPartition,
    /// There are too many nodes, partitions, processors of a node, or bytes.
    OverLimit,
}

impl ConfKind {
    /// How it is printed.
    pub fn name(self) -> &'static str
        ensures text { result.now ≡ kind_text self }
        ensures short { length result.now ≤ 11 }
    {
        match self {
            ConfKind::NotUtf8 => "NotUtf8",
            ConfKind::BadPair => "BadPair",
            ConfKind::UnknownKey => "UnknownKey",
            ConfKind::BadValue => "BadValue",
            ConfKind::TwiceNamed => "TwiceNamed",
            ConfKind::UnknownNode => "UnknownNode",
            ConfKind::NoPartition => "NoPartition",
            ConfKind::OverLimit => "OverLimit",
        }
    }
}

impl fmt::Display for ConfKind {
    ghost use Rattle.std.specs.Prelude.{Some};
    ghost use Rattle.text_values.specs.ConfRefusal.{kind_text};

    ghost output = { λ kind. Some (kind_text kind) };

    fn fmt<W: fmt::Write>(&self, f: &mut fmt::Formatter<W>) -> fmt::Result {
        f.write_str(self.name())
    }
}

/// Why a file was refused: its first bad line, or want of memory.
#[derive(Clone, Copy, PartialEq, Eq, Debug)]
pub enum ConfRefusal {
    /// The line counts from 1; 0 is the file as a whole.
    At { line: u32, kind: ConfKind },
    Memory,
}

impl fmt::Display for ConfRefusal {
    ghost use Rattle.std.specs.Prelude.{Some};
    ghost use Rattle.text_values.specs.ConfRefusal.{refusal_message};

    ghost output = { λ refusal. Some (refusal_message refusal) };

    fn fmt<W: fmt::Write>(&self, f: &mut fmt::Formatter<W>) -> fmt::Result {
        match self {
            ConfRefusal::At { line, kind } => write!(f, "conf line {line}: {kind}"),
            ConfRefusal::Memory => write!(f, "out of memory"),
        }
    }
}

impl Error for ConfRefusal {}

impl From<memory_error::Memory> for ConfRefusal {
    ghost use Rattle.std.specs.Prelude.{◌≡◌};
    ghost use Rattle.text_values.specs.declared.conf_refusal.ConfRefusal.TheVariants.{Memory};

    ghost from_gives = { λ _ e. e ≡ Memory };

    fn from(_error: memory_error::Memory) -> ConfRefusal {
        ConfRefusal::Memory
    }
}

/// Why a line wasn't read.
#[derive(Clone, Copy)]
pub enum Fault {
    Refused(ConfKind),
    Memory,
}

impl From<memory_error::Memory> for Fault {
    ghost use Rattle.std.specs.Prelude.{◌≡◌};
    ghost use Rattle.text_values.specs.declared.conf_refusal.Fault.TheVariants.{Memory};

    ghost from_gives = { λ _ e. e ≡ Memory };

    fn from(_error: memory_error::Memory) -> Fault {
        Fault::Memory
    }
}

impl From<ValueRefusal> for Fault {
    ghost use Rattle.std.specs.Prelude.{◌≡◌};
    ghost use Rattle.text_values.specs.ConfRefusal.{of_value};

    ghost from_gives = { λ value e. e ≡ of_value value };

    fn from(refusal: ValueRefusal) -> Fault {
        match refusal {
            ValueRefusal::BadValue => Fault::Refused(ConfKind::BadValue),
            ValueRefusal::Memory => Fault::Memory,
        }
    }
}
