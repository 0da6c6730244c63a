//! Laws of what associations have used.

ghost use Rattle.sacct_book.specs.Laws;

/// What was used at the opening, and what an entry adds to it.
pub fn what_is_used_grows_by_what_runs()
    ensures opening { Laws.BeginsWithTheOpening }
    ensures entry { Laws.GrowsByWhatRuns }
{}

/// How many seconds of a stretch of time lie in a window.
pub fn windows_and_stretches_overlap()
    ensures { Laws.LiesBetween }
{}

/// Which requests leave all that runs.
pub fn few_requests_change_what_runs()
    ensures { Laws.LeavesWhatRuns }
{}

/// Which jobs go on holding what they hold while they run, whatever is requested.
pub fn jobs_that_are_not_named_hold_what_they_held()
    ensures { Laws.LeavesOthers }
{}
