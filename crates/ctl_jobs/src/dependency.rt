//! Whether a job may wait for what it says.

ghost use Rattle.std.specs.Prelude.{◌≡◌};
ghost use Rattle.std.specs.List.{list_any};
ghost use Rattle.job_table.specs.Targets as spec;
ghost use Rattle.job_table.specs.Targets.{AreTogether, is_named_by};
ghost use Rattle.plain_data.specs.declared.dependency.DepItem.{DepItem as OneItem};
ghost use Rattle.ctl_state.specs.State.{state_of};
ghost use Rattle.ctl_jobs.specs.Submission;

use ctl_state::cluster::Cluster;
use ctl_state::record::ArrayRecord;
use job_table::jobs::Jobs;
use job_table::record::JobRecord;
use job_table::targets::is_named;
use plain_data::array::{ArraySpec, Indices};
use plain_data::boxed::Boxed;
use plain_data::dependency::{DepId, DepItem, DepKind, DepSpec};
use request_data::target::Target;

// Whether the target names one of the jobs.
fn any_named(jobs: &[JobRecord], target: &Target) -> bool
    ensures { result ≡ list_any (spec.is_named target.now) jobs.now }
{
    jobs.iter().any(|job| is_named(target, job))
}

// Whether the number names a job. Logarithmic in the jobs, and linear in those that it names.
fn names_any(jobs: &Jobs, id: &DepId) -> bool
    requires { AreTogether jobs.now.records }
    ensures { result ≡ list_any (is_named_by id.now.id id.now.index) jobs.now.records }
{
    let target = Target {
        id: id.id,
        index: id.index,
    };
    any_named(jobs.span_of(&target), &target)
}

// Whether the array with this number was handed in with these indices. Linear in the arrays, and in the indices.
fn has_indices(arrays: &[ArrayRecord], id: u32, indices: &Indices) -> bool
    ensures { result ≡ Submission.has_indices arrays.now id indices.now }
{
    arrays.iter().any(|array| array.id == id
        && array.indices.iter().as_slice() == indices.iter().as_slice())
}

// Whether each task of the array that is handed in has one of its index to wait for.
fn corresponds(arrays: &[ArrayRecord], array: &Option<Boxed<ArraySpec>>, id: &DepId) -> bool
    ensures { result ≡ Submission.corresponds arrays.now array.now id.now }
{
    match array {
        Some(array) => id.index.is_none() && has_indices(arrays, id.id, &array.indices),
        None => false,
    }
}

// Whether the number names no job, or an array that has other tasks.
fn is_bad_number(
    cluster: &Cluster,
    array: &Option<Boxed<ArraySpec>>,
    kind: DepKind,
    id: &DepId,
) -> bool
    requires { AreTogether cluster.now.jobs.records }
    ensures { result ≡ Submission.is_bad_number (state_of cluster.now) array.now kind id.now }
{
    if !names_any(&cluster.jobs, id) {
        return true;
    }
    matches!(kind, DepKind::AfterCorr) && !corresponds(&cluster.arrays, array, id)
}

// Whether a number of the item is such.
fn is_bad_item(cluster: &Cluster, array: &Option<Boxed<ArraySpec>>, item: &DepItem) -> bool
    requires { AreTogether cluster.now.jobs.records }
    ensures { result
        ≡ list_any (Submission.is_bad_number (state_of cluster.now) array.now item.now.kind) item.now.ids }
{
    item.ids
        .iter()
        .any(|id| is_bad_number(cluster, array, item.kind, id))
}

// Whether an item is such.
fn has_bad_item(cluster: &Cluster, array: &Option<Boxed<ArraySpec>>, items: &[DepItem]) -> bool
    requires { AreTogether cluster.now.jobs.records }
    ensures { result ≡ list_any (λ (item : OneItem).
        list_any (Submission.is_bad_number (state_of cluster.now) array.now item.kind) item.ids) items.now }
{
    items.iter().any(|item| is_bad_item(cluster, array, item))
}

/// Whether the dependency names a job that there isn't, or, where tasks wait for those of their indices, an array with
/// others. `--dependency` in sbatch(1). For each number logarithmic in the jobs and linear in those that it names, and
/// for tasks by their indices linear in the arrays besides.
pub(crate) fn is_bad_dependency(
    cluster: &Cluster,
    array: &Option<Boxed<ArraySpec>>,
    dependency: &Option<Boxed<DepSpec>>,
) -> bool
    requires { AreTogether cluster.now.jobs.records }
    ensures { result ≡ Submission.is_bad_dependency (state_of cluster.now) array.now dependency.now }
{
    match dependency {
        Some(needs) => has_bad_item(cluster, array, needs.items.as_slice()),
        None => false,
    }
}
