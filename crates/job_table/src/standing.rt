//! Whether what a job waits for has come.

ghost use Rattle.std.specs.Prelude.{◌≡◌, [], ◌∷◌, false, map, filter, not};
ghost use Rattle.std.specs.List.{list_any};
ghost use Rattle.job_table.specs.Behind.{ShowsBehind};
ghost use Rattle.job_table.specs.JobStates;
ghost use Rattle.job_table.specs.Targets.{AreTogether, is_named};
ghost use Rattle.job_table.specs.Standing as spec;
ghost use Rattle.job_table.specs.Standing.{all_of, one_of};

use crate::behind::Behind;
use crate::jobs::Jobs;
use crate::record::JobRecord;
use crate::targets::is_named;
use plain_data::dependency::{DepId, DepItem, DepKind, DepSpec};
use request_data::state::{Final, JobState};
use request_data::target::Target;

/// How it stands with what a job waits for.
#[derive(Clone, Copy, PartialEq, Eq, Debug)]
pub enum Standing {
    /// It has come.
    Satisfied,
    /// It may still come.
    Waiting,
    /// It can't come any more.
    Never,
}

impl Standing {
    // Where both are needed.
    fn and(self, other: Standing) -> Standing
        ensures { result ≡ all_of (self ∷ other ∷ []) }
    {
        match (self, other) {
            (Standing::Never, _) | (_, Standing::Never) => Standing::Never,
            (Standing::Satisfied, Standing::Satisfied) => Standing::Satisfied,
            _ => Standing::Waiting,
        }
    }

    // Where one of both is enough.
    fn or(self, other: Standing) -> Standing
        ensures { result ≡ one_of (self ∷ other ∷ []) }
    {
        match (self, other) {
            (Standing::Satisfied, _) | (_, Standing::Satisfied) => Standing::Satisfied,
            (Standing::Never, Standing::Never) => Standing::Never,
            _ => Standing::Waiting,
        }
    }
}

/// How it stands with what the job waits for, among these jobs. An array's number names the tasks of it that there
/// are, and what names no job has come; so it has for a job that was started before (own). `--dependency` in sbatch(1).
/// For each number that it names logarithmic in the jobs, and linear in those that it names; where it waits for all jobs
/// of its name, linear in the jobs before it. It takes no memory.
pub fn standing_among(jobs: &Jobs, own: &JobRecord) -> Standing
    requires { AreTogether jobs.now.records }
    ensures { result ≡ spec.standing jobs.now.records own.now }
{
    standing_beside(jobs, &Behind::unknown(), own)
}

/// The same, where it may be known whether another of its user and name is before it: then that costs nothing more.
#[tactic(auto, unfolding(crate::specs::Standing::standing))]
pub fn standing_beside(jobs: &Jobs, behind: &Behind, own: &JobRecord) -> Standing
    requires together { AreTogether jobs.now.records }
    requires behind { ShowsBehind behind.now jobs.now.records own.now }
    ensures { result ≡ spec.standing jobs.now.records own.now }
{
    match &own.terms().dependency {
        Some(needs) if own.starts == 0 => standing_for(jobs, behind, own, needs),
        _ => Standing::Satisfied,
    }
}

fn standing_for(jobs: &Jobs, behind: &Behind, own: &JobRecord, needs: &DepSpec) -> Standing
    requires together { AreTogether jobs.now.records }
    requires behind { ShowsBehind behind.now jobs.now.records own.now }
    ensures { result ≡ spec.standing_for jobs.now.records own.now needs.now }
{
    if needs.any {
        standing_of_one(jobs, behind, own, needs.items.as_slice())
    } else {
        standing_of_all(jobs, behind, own, needs.items.as_slice())
    }
}

// How it stands with the items where one of them is enough.
#[tactic(auto, using(crate::proofs::Folds::steps))]
fn standing_of_one(jobs: &Jobs, behind: &Behind, own: &JobRecord, items: &[DepItem]) -> Standing
    requires together { AreTogether jobs.now.records }
    requires behind { ShowsBehind behind.now jobs.now.records own.now }
    ensures { result ≡ one_of (map (spec.standing_by jobs.now.records own.now) items.now) }
{
    let mut standing = Standing::Never;
    for item in items {
        standing = standing.or(standing_by(jobs, behind, own, item));
    }
    standing
}

// How it stands with the items where all of them are needed.
#[tactic(auto, using(crate::proofs::Folds::steps))]
fn standing_of_all(jobs: &Jobs, behind: &Behind, own: &JobRecord, items: &[DepItem]) -> Standing
    requires together { AreTogether jobs.now.records }
    requires behind { ShowsBehind behind.now jobs.now.records own.now }
    ensures { result ≡ all_of (map (spec.standing_by jobs.now.records own.now) items.now) }
{
    let mut standing = Standing::Satisfied;
    for item in items {
        standing = standing.and(standing_by(jobs, behind, own, item));
    }
    standing
}

fn standing_by(jobs: &Jobs, behind: &Behind, own: &JobRecord, item: &DepItem) -> Standing
    requires together { AreTogether jobs.now.records }
    requires behind { ShowsBehind behind.now jobs.now.records own.now }
    ensures { result ≡ spec.standing_by jobs.now.records own.now item.now }
{
    match item.kind {
        DepKind::Singleton => once(!is_behind(jobs, behind, own)),
        kind => standing_of_ids(jobs, own, kind, item.ids.as_slice()),
    }
}

// Whether another job of this user and name, with a lower number, hasn't ended.
fn is_behind(jobs: &Jobs, behind: &Behind, own: &JobRecord) -> bool
    requires { ShowsBehind behind.now jobs.now.records own.now }
    ensures { result ≡ list_any (spec.is_before own.now) jobs.now.records }
{
    match &behind.numbers {
        Some(numbers) => numbers.contains(&own.id),
        None => has_before(jobs, own),
    }
}

// The same, by a look at each job before.
fn has_before(jobs: &Jobs, own: &JobRecord) -> bool
    ensures { result ≡ list_any (spec.is_before own.now) jobs.now.records }
{
    let jobs = jobs.records();
    let count = jobs.partition_point(|job| job.id < own.id);
    jobs[..count].iter().any(|job| is_before(own, job))
}

fn is_before(own: &JobRecord, job: &JobRecord) -> bool
    ensures { result ≡ spec.is_before own.now job.now }
{
    job.id < own.id
        && !is_ended(job)
        && job.user.is(&own.user)
        && job.terms().name.is(&own.terms().name)
}

/// Whether the job has ended.
pub(crate) fn is_ended(job: &JobRecord) -> bool
    ensures { result ≡ JobStates.is_ended job.now.state }
{
    matches!(job.state, JobState::Ended(_))
}

// How it stands with all that these numbers of an item of this kind name.
#[tactic(auto, using(crate::proofs::Folds::steps))]
fn standing_of_ids(jobs: &Jobs, own: &JobRecord, kind: DepKind, ids: &[DepId]) -> Standing
    requires { AreTogether jobs.now.records }
    ensures { result ≡ all_of (map (spec.standing_by_id jobs.now.records own.now kind) ids.now) }
{
    let mut standing = Standing::Satisfied;
    for id in ids {
        standing = standing.and(standing_by_id(jobs, own, kind, *id));
    }
    standing
}

fn standing_by_id(jobs: &Jobs, own: &JobRecord, kind: DepKind, id: DepId) -> Standing
    requires { AreTogether jobs.now.records }
    ensures { result ≡ spec.standing_by_id jobs.now.records own.now kind id }
{
    let target = Target {
        id: id.id,
        index: index_meant(kind, own, id),
    };
    standing_of_named(jobs.span_of(&target), &target, kind)
}

fn index_meant(kind: DepKind, own: &JobRecord, id: DepId) -> Option<u32>
    ensures { result ≡ spec.index_meant kind own.now id }
{
    match kind {
        DepKind::AfterCorr => own.index,
        _ => id.index,
    }
}

// How it stands with those of the jobs that the target names, all of which are needed.
#[tactic(auto, using(crate::proofs::Folds::steps))]
fn standing_of_named(jobs: &[JobRecord], target: &Target, kind: DepKind) -> Standing
    ensures { result ≡ all_of (map (spec.standing_of kind) (filter (is_named target.now) jobs.now)) }
{
    let mut standing = Standing::Satisfied;
    for job in jobs {
        if is_named(target, job) {
            standing = standing.and(standing_of(kind, job));
        }
    }
    standing
}

fn standing_of(kind: DepKind, job: &JobRecord) -> Standing
    ensures { result ≡ spec.standing_of kind job.now }
{
    match kind {
        DepKind::After => once(job.starts != 0 || is_ended(job)),
        DepKind::AfterAny => once(is_ended(job)),
        DepKind::AfterOk | DepKind::AfterCorr => by_success(job.state),
        DepKind::AfterNotOk => by_failure(job.state),
        DepKind::Singleton => Standing::Satisfied,
    }
}

fn once(has_come: bool) -> Standing
    ensures { result ≡ spec.once has_come }
{
    if has_come {
        Standing::Satisfied
    } else {
        Standing::Waiting
    }
}

fn by_success(state: JobState) -> Standing
    ensures { result ≡ spec.at_end spec.by_success state }
{
    match state {
        JobState::Ended(Final::Completed) => Standing::Satisfied,
        JobState::Ended(_) => Standing::Never,
        _ => Standing::Waiting,
    }
}

fn by_failure(state: JobState) -> Standing
    ensures { result ≡ spec.at_end spec.by_failure state }
{
    match state {
        JobState::Ended(Final::Completed) => Standing::Never,
        JobState::Ended(_) => Standing::Satisfied,
        _ => Standing::Waiting,
    }
}
