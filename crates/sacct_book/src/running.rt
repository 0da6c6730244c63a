//! How many processors running jobs hold.

ghost use Rattle.std.specs.Prelude.{◌≡◌, ◌^◌, ◌-◌, ◌+◌, ◌<◌, ℕ, min, nat_eq, if◌then◌else◌, slice_index, vec_len};
ghost use Rattle.sacct_book.specs.Running as spec;

use job_table::record::JobRecord;
use job_table::usage::cpus_in;
use request_data::state::JobState;

/// Whether counts grow or shrink.
#[derive(Clone, Copy)]
pub(crate) enum Way {
    More,
    Fewer,
}

/// How many the job holds while it runs. The count stands still at its type's end.
#[tactic(auto, unfolding(crate::specs::Running::cpus_running))]
pub(crate) fn cpus_running(job: &JobRecord) -> u64
    ensures { result ≡ min (spec.cpus_running job.now) (2 ^ 64 - 1) }
{
    match job.state {
        JobState::Running => cpus_in(job.parts.as_slice()),
        _ => 0,
    }
}

/// Counts so many more, or fewer, at a place. A count stands still at its type's end.
pub(crate) fn count(held: &mut Vec<u64>, way: Way, place: u32, cpus: u64)
    ensures len { vec_len held.new ≡ vec_len held.old }
    ensures each { (at : ℕ) → at < vec_len held.old → slice_index held.new.items at
        ≡ spec.counted way (slice_index held.old.items at) (if nat_eq place at then cpus else 0) }
{
    if let Some(held) = held.get_mut(place as usize) {
        *held = match way {
            Way::More => held.saturating_add(cpus),
            Way::Fewer => held.saturating_sub(cpus),
        };
    }
}

// Adds to each what those of the jobs hold that run and are its own.
fn add_running(held: &mut Vec<u64>, jobs: &[JobRecord])
    ensures len { vec_len held.new ≡ vec_len held.old }
    ensures each { (at : ℕ) → at < vec_len held.old → slice_index held.new.items at
        ≡ min (slice_index held.old.items at + spec.cpus_run_by jobs.now at) (2 ^ 64 - 1) }
{
    for job in jobs {
        count(held, Way::More, job.assoc, cpus_running(job));
    }
}

// None at each place.
fn clear(held: &mut Vec<u64>)
    ensures len { vec_len held.new ≡ vec_len held.old }
    ensures each { (at : ℕ) → at < vec_len held.old → slice_index held.new.items at ≡ 0 }
{
    for place in 0..held.len() {
        held[place] = 0;
    }
}

/// Counts for each association how many processors its running jobs hold. The counts stand still at their type's end.
/// One walk over the jobs, linear in the associations and in the parts of those that run; it takes no memory.
pub(crate) fn count_running(held: &mut Vec<u64>, jobs: &[JobRecord])
    ensures len { vec_len held.new ≡ vec_len held.old }
    ensures each { (at : ℕ) → at < vec_len held.old
        → slice_index held.new.items at ≡ min (spec.cpus_run_by jobs.now at) (2 ^ 64 - 1) }
{
    clear(held);
    add_running(held, jobs);
}
