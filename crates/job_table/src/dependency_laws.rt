//! What holds of what jobs wait for. A law is the contract of a function that does nothing.

ghost use Rattle.job_table.specs.Laws.{PassesLeaveStandings};

/// It stands with what a pending job waits for as before where no job comes to its end, and no record goes but of jobs
/// that have ended and for which no one waits.
pub fn passes_leave_standings()
    ensures { PassesLeaveStandings }
{}
