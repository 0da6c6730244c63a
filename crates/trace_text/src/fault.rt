//! What is wrong with a trace.

use small_texts::memory_error;
use std::error::Error;
use std::fmt;

/// What is wrong with a line of a trace (own).
#[derive(Clone, Copy, Debug, PartialEq, Eq)]
pub enum LineFault {
    /// It has more or fewer fields than a line of its kind.
    FieldCount,
    /// This field, counted from 1, isn't one of its kind.
    Field { place: usize },
}

impl fmt::Display for LineFault {
    ghost use Rattle.std.specs.Prelude.{Some};
    ghost use Rattle.trace_text.specs.Refusals.{fault_text};

    ghost output = { λ fault. Some (fault_text fault) };

    fn fmt<W: fmt::Write>(&self, f: &mut fmt::Formatter<W>) -> fmt::Result {
        match self {
            LineFault::FieldCount => f.write_str("number of fields"),
            LineFault::Field { place } => write!(f, "field {place}"),
        }
    }
}

/// The first bad line of a trace, and in it the first bad field (own).
#[derive(Clone, Copy, Debug, PartialEq, Eq)]
pub struct BadLine {
    /// It counts from 1.
    pub line: usize,
    pub fault: LineFault,
}

/// Why a trace wasn't read.
#[derive(Clone, Copy, Debug, PartialEq, Eq)]
pub enum TraceRefusal {
    Bad(BadLine),
    Memory,
}

impl fmt::Display for TraceRefusal {
    ghost use Rattle.std.specs.Prelude.{Some};
    ghost use Rattle.trace_text.specs.Refusals.{refusal_text};

    ghost output = { λ refusal. Some (refusal_text refusal) };

    fn fmt<W: fmt::Write>(&self, f: &mut fmt::Formatter<W>) -> fmt::Result {
        match self {
            TraceRefusal::Bad(BadLine { line, fault }) => write!(f, "trace line {line}: {fault}"),
            TraceRefusal::Memory => write!(f, "out of memory"),
        }
    }
}

impl Error for TraceRefusal {}

impl From<memory_error::Memory> for TraceRefusal {
    ghost use Rattle.std.specs.Prelude.{◌≡◌};
    ghost use Rattle.trace_text.specs.declared.fault.TraceRefusal.TheVariants.{Memory};

    ghost from_gives = { λ _ e. e ≡ Memory };

    fn from(_error: memory_error::Memory) -> TraceRefusal {
        TraceRefusal::Memory
    }
}
