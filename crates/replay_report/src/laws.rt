//! What holds of all outcomes. Each law is the contract of a function that does nothing.

ghost use Rattle.replay_report.specs.Laws.{EachHasItsOutcome};

/// Each job of a trace that was handed in or left out has one outcome, in this order, where each submission was answered.
pub fn each_has_its_outcome()
    ensures { EachHasItsOutcome }
{}
