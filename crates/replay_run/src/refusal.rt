//! Why a run gives no text.

ghost use Rattle.std.specs.Prelude.{◌≡◌};
ghost use Rattle.trace_text.specs.declared.fault.TraceRefusal.{TraceRefusal};

use cluster_opening::ClusterRefusal;
use small_texts::memory_error;
use std::fmt;
use trace_text::TraceRefusal;

/// Why a run gives no text (own).
#[derive(Clone, Copy, Debug, PartialEq, Eq)]
pub enum RunRefusal {
    BadTrace(TraceRefusal),
    BadCluster(ClusterRefusal),
    /// The replay isn't over behind the last event that it may have.
    Spent,
    Memory,
}

impl From<memory_error::Memory> for RunRefusal {
    ghost use Rattle.std.specs.Prelude.{◌≡◌};
    ghost use Rattle.replay_run.specs.declared.refusal.RunRefusal.TheVariants.{Memory};

    ghost from_gives = { λ _ e. e ≡ Memory };

    fn from(_error: memory_error::Memory) -> RunRefusal {
        RunRefusal::Memory
    }
}

/// Why a trace that was read gives no text.
#[derive(Clone, Copy)]
pub(crate) enum WorkRefusal {
    BadCluster(ClusterRefusal),
    /// The replay isn't over behind the last event that it may have.
    Spent,
    Memory,
}

impl From<memory_error::Memory> for WorkRefusal {
    ghost use Rattle.std.specs.Prelude.{◌≡◌};
    ghost use Rattle.replay_run.specs.declared.refusal.WorkRefusal.TheVariants.{Memory};

    ghost from_gives = { λ _ e. e ≡ Memory };

    fn from(_error: memory_error::Memory) -> WorkRefusal {
        WorkRefusal::Memory
    }
}

/// Why a run gives none, where its trace was read.
pub(crate) fn of_work(refusal: WorkRefusal) -> RunRefusal
    ensures { (bad : TraceRefusal) → result ≡ RunRefusal.BadTrace bad → ⊥ }
{
    match refusal {
        WorkRefusal::BadCluster(refusal) => RunRefusal::BadCluster(refusal),
        WorkRefusal::Spent => RunRefusal::Spent,
        WorkRefusal::Memory => RunRefusal::Memory,
    }
}

impl fmt::Display for RunRefusal {
    fn fmt<W: fmt::Write>(&self, f: &mut fmt::Formatter<W>) -> fmt::Result {
        match self {
            RunRefusal::BadTrace(refusal) => write!(f, "{refusal}"),
            RunRefusal::BadCluster(ClusterRefusal::Bad(bad)) => {
                let text = bad.text();
                f.write_str(text.as_str())
            }
            RunRefusal::Spent => f.write_str("the replay has no end"),
            RunRefusal::BadCluster(ClusterRefusal::Memory) | RunRefusal::Memory => {
                f.write_str("out of memory")
            }
        }
    }
}
