//! Which jobs a target names.

ghost use Rattle.std.specs.Prelude.{◌≡◌, ◌+◌, ◌-◌, ◌<◌, ◌≤◌, All, None, Some, true, false, length, take, drop};
ghost use Rattle.std.specs.List.{HoldsAt};
ghost use Rattle.job_table.specs.declared.record.JobRecord.{JobRecord};
ghost use Rattle.job_table.specs.Table.{HaveRisingIds};
ghost use Rattle.job_table.specs.Targets as spec;
ghost use Rattle.job_table.specs.Targets.{AreTogether, HaveRisingIndices};

use crate::record::JobRecord;
use request_data::target::Target;

/// Places in the list of jobs, from the first on, before the end.
#[derive(Clone, Copy, PartialEq, Eq, Debug)]
pub struct Places {
    pub first: usize,
    pub end: usize,
}

/// Whether the job is a task of the array with this number.
pub fn is_task_of(array: u32, job: &JobRecord) -> bool
    ensures { result ≡ spec.is_task_of array job.now }
{
    job.array == Some(array)
}

/// Whether the target names the job.
pub fn is_named(target: &Target, job: &JobRecord) -> bool
    ensures { result ≡ spec.is_named target.now job.now }
{
    match target.index {
        None => job.id == target.id || is_task_of(target.id, job),
        Some(index) => is_task_of(target.id, job) && job.index == Some(index),
    }
}

// How many jobs at the front have this number, or are tasks of the array that has it.
fn count_of(jobs: &[JobRecord], id: u32) -> usize
    ensures within { result ≤ length jobs.now }
    ensures front { All (λ job. spec.is_named_by id None job ≡ true) (take result jobs.now) }
    ensures ends { result < length jobs.now → HoldsAt (λ job. spec.is_named_by id None job ≡ false) jobs.now result }
{
    let whole = Target { id, index: None };
    match jobs.iter().position(|job| !is_named(&whole, job)) {
        Some(count) => count,
        None => jobs.len(),
    }
}

/// Where the jobs lie that have the target's number, or are tasks of the array that has it: the target names none
/// before and behind. Logarithmic in all jobs, and linear in these.
pub(crate) fn places_of(jobs: &[JobRecord], target: &Target) -> Places
    requires rising { HaveRisingIds jobs.now }
    requires together { AreTogether jobs.now }
    ensures within { (result.first ≤ result.end) × (result.end ≤ length jobs.now) }
    ensures inside { All (λ job. spec.is_named_by target.now.id None job ≡ true)
        (take (result.end - result.first) (drop result.first jobs.now)) }
    ensures before { All (λ job. spec.is_named target.now job ≡ false) (take result.first jobs.now) }
    ensures behind { All (λ job. spec.is_named target.now job ≡ false) (drop result.end jobs.now) }
{
    let first = jobs.partition_point(|job| job.id < target.id);
    let count = count_of(&jobs[first..], target.id);
    Places {
        first,
        end: first + count,
    }
}

// A task's index; whoever has none counts as the first.
fn index_of(job: &JobRecord) -> u32
    ensures { result ≡ spec.index_of job.now }
{
    job.index.unwrap_or(0)
}

// Whether the job is a task of an array that begins behind the last one, or the next of the last one's array.
fn follows(last: &JobRecord, job: &JobRecord) -> bool
    ensures { result ≡ spec.follows last.now job.now }
{
    match job.array {
        Some(array) => {
            last.id < array || (is_task_of(array, last) && index_of(last) < index_of(job))
        }
        None => true,
    }
}

// Whether it is known that indices rise also with the job at a place, where they do before it.
fn rise_at(jobs: &[JobRecord], place: usize) -> bool
    requires rising { HaveRisingIds jobs.now }
    requires inside { place < length jobs.now }
    ensures { result ≡ true → HaveRisingIndices (take place jobs.now)
        → HaveRisingIndices (take (place + 1) jobs.now) }
{
    if place == 0 {
        return true;
    }
    follows(&jobs[place - 1], &jobs[place])
}

/// Whether it is known that indices rise, where that may be known of the jobs before a place. Linear in those from there
/// on.
pub(crate) fn rise_from(known: bool, jobs: &[JobRecord], start: usize) -> bool
    requires { HaveRisingIds jobs.now }
    ensures { result ≡ true → (known ≡ true → HaveRisingIndices (take start jobs.now)) → HaveRisingIndices jobs.now }
{
    if !known {
        return false;
    }
    for place in start..jobs.len() {
        if !rise_at(jobs, place) {
            return false;
        }
    }
    true
}

// Whether the job lies before where the task with this index of the array with this number does.
fn lies_before(array: u32, index: u32, job: &JobRecord) -> bool
    ensures { result ≡ spec.lies_before array index job.now }
{
    job.id < array || (is_task_of(array, job) && index_of(job) < index)
}

/// Where the task lies with this index of the array with this number, if there is one: this names none before and
/// behind. Logarithmic in the jobs.
pub(crate) fn place_of_task(jobs: &[JobRecord], array: u32, index: u32) -> Places
    requires rising { HaveRisingIds jobs.now }
    requires together { AreTogether jobs.now }
    requires indices { HaveRisingIndices jobs.now }
    ensures within { (result.first ≤ result.end) × (result.end ≤ length jobs.now) }
    ensures before { All (λ job. spec.is_named_by array (Some index) job ≡ false) (take result.first jobs.now) }
    ensures behind { All (λ job. spec.is_named_by array (Some index) job ≡ false) (drop result.end jobs.now) }
{
    let first = jobs.partition_point(|job| lies_before(array, index, job));
    Places {
        first,
        end: jobs.len().min(first + 1),
    }
}
