//! Which arrays have tasks.

ghost use Rattle.std.specs.Prelude.{◌≡◌, ◌||◌, ℕ, nat_eq, IfOk, OnOk};
ghost use Rattle.std.specs.HashSet.{contains};
ghost use Rattle.job_table.specs.Awaiting.{has_gone};
ghost use Rattle.job_table.specs.Targets.{is_task_of};
ghost use Rattle.ctl_state.specs.Events.{those_left};
ghost use Rattle.ctl_pass.specs.Limits.{timed_out};
ghost use Rattle.ctl_pass.specs.Passing.{HasArrays};

use job_table::awaited::Awaited;
use job_table::jobs::has_gone;
use job_table::record::JobRecord;
use small_texts::memory_error::Memory;
use std::alloc::Global;
use std::collections::HashSet;

/// The numbers of arrays of which there are tasks. Contracts name whether one is there (`has_array`) alone.
#[derive(Drop)]
pub struct LiveArrays {
    numbers: HashSet<u32>,
}

// Adds the array of which the job is a task, if it is one of an array.
fn add_array(numbers: &mut HashSet<u32>, job: &JobRecord) -> Result<(), Memory>
    ensures { OnOk result ((array : ℕ) → contains nat_eq numbers.new array
        ≡ (contains nat_eq numbers.old array || is_task_of array job.now)) }
{
    if let Some(array) = job.array {
        numbers.insert(array)?;
    }
    Ok(())
}

/// The arrays of which the first steps of a pass leave tasks, in one walk over the jobs. It takes memory for the arrays
/// alone.
#[tactic(auto, unfolding(crate::specs::Live::has_array))]
pub(crate) fn live_arrays(
    alloc: Global,
    age: u64,
    now: u64,
    awaited: &Awaited,
    jobs: &[JobRecord],
) -> Result<LiveArrays, Memory>
    ensures { IfOk result (HasArrays (those_left (timed_out now) (has_gone age now awaited.now) jobs.now)) }
{
    let mut numbers = HashSet::new(alloc);
    for job in jobs {
        if !has_gone(age, now, awaited, job) {
            add_array(&mut numbers, job)?;
        }
    }
    Ok(LiveArrays { numbers })
}

impl LiveArrays {
    ghost use Rattle.std.specs.Prelude.{◌≡◌};
    ghost use Rattle.ctl_pass.specs.Live.{has_array};

    /// Whether there are tasks of the array, in constant time.
    #[tactic(auto, unfolding(crate::specs::Live::has_array))]
    pub fn has(&self, array: u32) -> bool
        ensures { result ≡ has_array self.now array }
    {
        self.numbers.contains(&array)
    }
}
