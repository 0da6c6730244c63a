//! What holds of every plan. Each law is the contract of a function that does nothing.

ghost use Rattle.trace_text.specs.Laws.{NoJobIsLost};

/// Each place of a trace stands once among those that are handed in and those that are left out.
pub fn no_job_is_lost()
    ensures { NoJobIsLost }
{}
