//! What is accounted is the usage that priorities rest on.

ghost use Rattle.std.specs.Prelude.{◌≡◌, ◌<◌, ◌≤◌, ℕ, ◌+◌, min, [], length, replicate};
ghost use Rattle.job_table.specs.Usage.{greatest_usage};
ghost use Rattle.ctl_waiting.specs.Usage.{usage_at};
ghost use Rattle.ctl_desk.specs.History.{History, IsHistory, present};
ghost use Rattle.sacct_book.specs.Used.{used_at};
ghost use Rattle.user_laws.specs.Accounting.{all_until};

use crate::laws::usage_grows_by_what_runs;
use sacct_book::laws::{what_is_used_grows_by_what_runs, windows_and_stretches_overlap};

/// Along any history the usage of an association has grown by what is accounted, up to the greatest usage; so where there
/// were no jobs and no totals, it is what is accounted.
pub fn usage_is_what_is_accounted()
    ensures grows { (h : History) (place now : ℕ) → IsHistory h → place < length h.opening.assocs
        → (present h).moment ≤ now → usage_at (present h) now place
        ≡ min (usage_at h.opening h.opening.moment place + used_at h place (all_until now) now) greatest_usage }
    ensures whole { (h : History) (place now : ℕ) → IsHistory h → place < length h.opening.assocs
        → (present h).moment ≤ now → h.opening.jobs ≡ [] → h.opening.usage ≡ replicate (length h.opening.assocs) 0
        → usage_at (present h) now place ≡ min (used_at h place (all_until now) now) greatest_usage }
{
    usage_grows_by_what_runs();
    what_is_used_grows_by_what_runs();
    windows_and_stretches_overlap();
}
