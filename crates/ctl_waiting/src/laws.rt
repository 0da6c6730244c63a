//! What holds of all priorities. A law is the contract of a function that does nothing.

ghost use Rattle.ctl_waiting.specs.Laws;

/// What a job has used counts in the same way while it runs, once it has left Running, and when its record is gone.
pub fn priorities_stay()
    ensures parts { Laws.PrioritiesStay }
    ensures ranks { Laws.RanksStay }
{}
