//! How many jobs had which fate.

ghost use Rattle.std.specs.Prelude.{◌≡◌, filter, length};
ghost use Rattle.replay_report.specs.Counts.{counts_of, had};

use crate::outcome::{Fate, JobOutcome};

/// The kinds of fates.
#[derive(Clone, Copy)]
enum FateKind {
    Ran,
    Waits,
    Forgotten,
    Refused,
    LeftOut,
}

/// How many jobs of a trace had which fate (own).
#[derive(Clone, Copy, Debug, PartialEq, Eq)]
pub struct Counts {
    pub ran: u64,
    pub waits: u64,
    pub forgotten: u64,
    pub refused: u64,
    pub left_out: u64,
}

#[tactic(auto, unfolding(crate::specs::Counts::had))]
fn had(kind: FateKind, outcome: &JobOutcome) -> bool
    ensures { result ≡ had kind outcome.now }
{
    match kind {
        FateKind::Ran => matches!(&outcome.fate, Fate::Ran(_)),
        FateKind::Waits => matches!(&outcome.fate, Fate::Waits(_)),
        FateKind::Forgotten => matches!(&outcome.fate, Fate::Forgotten),
        FateKind::Refused => matches!(&outcome.fate, Fate::Refused(_)),
        FateKind::LeftOut => matches!(&outcome.fate, Fate::LeftOut(_)),
    }
}

fn count_of(kind: FateKind, outcomes: &[JobOutcome]) -> usize
    ensures { result ≡ length (filter (had kind) outcomes.now) }
{
    outcomes.iter().filter(|outcome| had(kind, outcome)).count()
}

/// How many jobs had which fate. Linear in them.
pub(crate) fn counts_of(outcomes: &[JobOutcome]) -> Counts
    ensures { result ≡ counts_of outcomes.now }
{
    Counts {
        ran: count_of(FateKind::Ran, outcomes) as u64,
        waits: count_of(FateKind::Waits, outcomes) as u64,
        forgotten: count_of(FateKind::Forgotten, outcomes) as u64,
        refused: count_of(FateKind::Refused, outcomes) as u64,
        left_out: count_of(FateKind::LeftOut, outcomes) as u64,
    }
}
