//! What can be seen of a saved state alone.

ghost use Rattle.std.specs.Prelude.{◌≤◌, ◌<◌, ◌↔◌, IsTrue, All, AllPairs};
ghost use Rattle.saved_data.specs.declared.job.SavedJob.{SavedJob as OneJob};
ghost use Rattle.saved_data.specs.declared.parts.SavedUsage.{SavedUsage as OneUsage};
ghost use Rattle.ctl_restore.specs.Steps.{IsNumbered, IsPlain, IsPlainBeside};

use crate::arrays::{are_apart, has_arrays};
use crate::partitions::are_of_others;
use crate::standings::are_standing;
use crate::timing::are_well_timed;
use saved_data::job::SavedJob;
use saved_data::parts::SavedUsage;
use saved_data::saved::Saved;

fn are_rising(jobs: &[SavedJob]) -> bool
    ensures { IsTrue result ↔ AllPairs (λ (one other : OneJob). one.id < other.id) jobs.now }
{
    for place in 1..jobs.len() {
        if jobs[place].id <= jobs[place - 1].id {
            return false;
        }
    }
    true
}

fn are_below(next_id: u32, jobs: &[SavedJob]) -> bool
    ensures { IsTrue result ↔ All (λ (job : OneJob). job.id < next_id) jobs.now }
{
    jobs.iter().all(|job| job.id < next_id)
}

fn is_counted(lines: &[SavedUsage]) -> bool
    ensures { IsTrue result ↔ All (λ (line : OneUsage). line.total ≤ 4294967295) lines.now }
{
    lines.iter().all(|line| line.total.get() <= 4_294_967_295)
}

// Whether what is said beside the jobs and their arrays fits.
fn is_plain_beside(saved: &Saved) -> bool
    ensures { IsTrue result ↔ IsPlainBeside saved.now }
{
    saved.moment <= 250_000_000_000
        && saved.next_id <= 67_043_329
        && are_of_others(saved.partitions.as_slice())
        && are_standing(saved.moment, saved.nodes.as_slice())
        && is_counted(saved.usage.as_slice())
}

// Whether the numbers of jobs and arrays rise.
fn is_numbered(saved: &Saved) -> bool
    ensures { IsTrue result ↔ IsNumbered saved.now }
{
    let jobs = saved.jobs.as_slice();
    are_apart(saved.arrays.as_slice())
        && are_rising(jobs)
        && are_below(saved.next_id, jobs)
        && jobs.len() <= 20_000
}

/// Whether a saved state fits, as far as can be seen of it alone. Linear in it, but for searches of arrays.
pub fn is_plain(saved: &Saved) -> bool
    ensures { IsTrue result ↔ IsPlain saved.now }
{
    is_plain_beside(saved)
        && is_numbered(saved)
        && has_arrays(saved)
        && are_well_timed(saved.jobs.as_slice())
}
