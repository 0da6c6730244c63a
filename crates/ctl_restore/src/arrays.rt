//! The arrays, by what is saved of them, and whose task each job is.

ghost use Rattle.std.specs.Prelude.{◌≡◌, ◌≤◌, ◌<◌, ◌↔◌, ◌⊎◌, IfOk, IsTrue, All, AllPairs, Any, Some, filter, map};
ghost use Rattle.saved_data.specs.declared.job.SavedJob.{SavedJob as OneJob};
ghost use Rattle.saved_data.specs.declared.parts.SavedArray.{SavedArray as OneArray};
ghost use Rattle.ctl_restore.specs.Fits.{HasArrays, HasItsTasks, IsArray, IsList, IsLone, IsTaskOf, is_within};
ghost use Rattle.ctl_restore.specs.Restored as spec;

use ctl_state::record::ArrayRecord;
use plain_data::array::Indices;
use saved_data::job::SavedJob;
use saved_data::parts::SavedArray;
use saved_data::saved::Saved;
use small_texts::memory_error::Memory;
use std::alloc::Global;

// Whether each of the numbers is above the one before it.
fn are_rising(numbers: &[u32]) -> bool
    ensures { IsTrue result ↔ AllPairs (λ one other. one < other) numbers.now }
{
    for place in 1..numbers.len() {
        if numbers[place] <= numbers[place - 1] {
            return false;
        }
    }
    true
}

fn is_list(array: &SavedArray) -> bool
    ensures { IsTrue result ↔ IsList array.now }
{
    let indices = array.indices.as_slice();
    are_rising(indices)
        && indices.iter().all(|index| *index <= 99_999)
        && !indices.is_empty()
        && indices.len() <= 10_001
}

fn is_array(next_id: u32, array: &SavedArray) -> bool
    ensures { IsTrue result ↔ IsArray next_id array.now }
{
    let count = array.indices.as_slice().len() as u64;
    is_list(array) && u64::from(array.id) + count <= u64::from(next_id)
}

// Whether each array is one by itself.
fn are_arrays(next_id: u32, arrays: &[SavedArray]) -> bool
    ensures { IsTrue result ↔ All (IsArray next_id) arrays.now }
{
    arrays.iter().all(|array| is_array(next_id, array))
}

/// Whether the numbers of the arrays rise. Linear in them.
pub fn are_apart(arrays: &[SavedArray]) -> bool
    ensures { IsTrue result ↔ AllPairs (λ (one other : OneArray). one.id < other.id) arrays.now }
{
    for place in 1..arrays.len() {
        if arrays[place].id <= arrays[place - 1].id {
            return false;
        }
    }
    true
}

fn is_lone(job: &SavedJob) -> bool
    ensures { IsTrue result ↔ IsLone job.now }
{
    job.array.is_none() && job.index.is_none() && job.terms.get().at_once.is_none()
}

fn is_task_of(job: &SavedJob, array: &SavedArray) -> bool
    ensures { IsTrue result ↔ IsTaskOf job.now array.now }
{
    if job.array != Some(array.id) || job.id < array.id {
        return false;
    }
    let indices = array.indices.as_slice();
    let place = (job.id - array.id) as usize;
    place < indices.len() && job.index == Some(indices[place])
}

// Whether the job is a task of one of the arrays, whose numbers rise.
fn is_task(arrays: &[SavedArray], id: u32, job: &SavedJob) -> bool
    requires rising { AllPairs (λ (one other : OneArray). one.id < other.id) arrays.now }
    requires array { job.now.array ≡ Some id }
    ensures { IsTrue result ↔ Any (IsTaskOf job.now) arrays.now }
{
    let place = arrays.partition_point(|array| array.id < id);
    match arrays.get(place) {
        Some(array) => is_task_of(job, array),
        None => false,
    }
}

fn is_placed(arrays: &[SavedArray], job: &SavedJob) -> bool
    requires { AllPairs (λ (one other : OneArray). one.id < other.id) arrays.now }
    ensures { IsTrue result ↔ (IsLone job.now ⊎ Any (IsTaskOf job.now) arrays.now) }
{
    match job.array {
        None => is_lone(job),
        Some(id) => is_task(arrays, id, job),
    }
}

// Whether each job is alone, or a task of one of the arrays, whose numbers rise. For each job logarithmic in the arrays.
fn are_placed(arrays: &[SavedArray], jobs: &[SavedJob]) -> bool
    requires { AllPairs (λ (one other : OneArray). one.id < other.id) arrays.now }
    ensures { IsTrue result ↔ All (λ (job : OneJob). IsLone job ⊎ Any (IsTaskOf job) arrays.now) jobs.now }
{
    for job in jobs {
        if !is_placed(arrays, job) {
            return false;
        }
    }
    true
}

// The jobs, whose numbers rise, that have numbers within the array's.
fn within<'a>(array: &SavedArray, jobs: &'a [SavedJob]) -> &'a [SavedJob]
    requires { AllPairs (λ (one other : OneJob). one.id < other.id) jobs.now }
    ensures { result.now ≡ filter (is_within array.now) jobs.now }
{
    let end = u64::from(array.id) + array.indices.as_slice().len() as u64;
    let first = jobs.partition_point(|job| job.id < array.id);
    let rest = &jobs[first..];
    let count = rest.partition_point(|job| u64::from(job.id) < end);
    &rest[..count]
}

// Whether all of these are of the array with this number.
fn are_of(id: u32, tasks: &[SavedJob]) -> bool
    ensures { IsTrue result ↔ All (λ (job : OneJob). job.array ≡ Some id) tasks.now }
{
    tasks.iter().all(|job| job.array == Some(id))
}

// Whether there are jobs with numbers within the array's, and these are of it.
fn has_its_tasks(array: &SavedArray, jobs: &[SavedJob]) -> bool
    requires { AllPairs (λ (one other : OneJob). one.id < other.id) jobs.now }
    ensures { IsTrue result ↔ HasItsTasks jobs.now array.now }
{
    let tasks = within(array, jobs);
    0 < tasks.len() && are_of(array.id, tasks)
}

// The same of each array. Linear in the jobs where it is so; else it ends at the first array of which it isn't.
fn have_their_tasks(arrays: &[SavedArray], jobs: &[SavedJob]) -> bool
    requires { AllPairs (λ (one other : OneJob). one.id < other.id) jobs.now }
    ensures { IsTrue result ↔ All (HasItsTasks jobs.now) arrays.now }
{
    for array in arrays {
        if !has_its_tasks(array, jobs) {
            return false;
        }
    }
    true
}

/// Whether the arrays are just those of which there are tasks. Linear in the jobs and the indices, and for each of both
/// logarithmic in the other.
pub fn has_arrays(saved: &Saved) -> bool
    requires arrays { AllPairs (λ (one other : OneArray). one.id < other.id) saved.now.arrays }
    requires jobs { AllPairs (λ (one other : OneJob). one.id < other.id) saved.now.jobs }
    ensures { IsTrue result ↔ HasArrays saved.now }
{
    let (arrays, jobs) = (saved.arrays.as_slice(), saved.jobs.as_slice());
    are_arrays(saved.next_id, arrays) && are_placed(arrays, jobs) && have_their_tasks(arrays, jobs)
}

fn restored_array(alloc: Global, array: &SavedArray) -> Result<ArrayRecord, Memory>
    requires { IsList array.now }
    ensures { IfOk result (λ restored. restored ≡ spec.restored_array array.now) }
{
    let indices = Vec::from_slice(alloc, array.indices.as_slice())?;
    Ok(ArrayRecord {
        id: array.id,
        indices: Indices::from_vec(indices),
    })
}

/// The arrays. Linear in their indices.
pub fn restored_arrays(alloc: Global, arrays: &[SavedArray]) -> Result<Vec<ArrayRecord>, Memory>
    requires { All IsList arrays.now }
    ensures { IfOk result (λ restored. restored.items ≡ map spec.restored_array arrays.now) }
{
    let mut restored = Vec::with_capacity(alloc, arrays.len())?;
    for array in arrays {
        restored.push(restored_array(alloc, array)?)?;
    }
    Ok(restored)
}
