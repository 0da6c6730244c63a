//! The places of the table that a query of jobs walks: those between which all jobs lie that it names.

ghost use Rattle.std.specs.Prelude.{Bool};
ghost use Rattle.std.specs.List.{list_any};
ghost use Rattle.job_table.specs.declared.record.JobRecord.{JobRecord};
ghost use Rattle.job_table.specs.Targets.{AreTogether, is_named};
ghost use Rattle.ctl_show.specs.Found.{LieWithin};
ghost use Rattle.ctl_show.specs.Showing;

use job_table::jobs::Jobs;
use job_table::targets::Places;
use plain_data::items::Items;
use request_data::target::Target;

// How many places are few (own).
const FEW: usize = 16;

/// How many jobs a query may show. What the rows of many share is found once; where they are few, each row finds what
/// it needs by itself.
#[derive(Clone, Copy, PartialEq, Eq, Debug)]
pub(crate) enum Extent {
    Few,
    Many,
}

/// How many jobs a query may show that walks these places.
pub(crate) fn extent_of(places: Places) -> Extent {
    if places.end.saturating_sub(places.first) <= FEW {
        Extent::Few
    } else {
        Extent::Many
    }
}

// All places.
fn all_places(jobs: &Jobs) -> Places
    ensures { (test : JobRecord → Bool) → LieWithin test jobs.now.records result }
{
    Places {
        first: 0,
        end: jobs.len(),
    }
}

// From the first place on at which a job may lie that a target names, before the end of the last such place. Where there
// are no targets, it is none.
fn hull_of(jobs: &Jobs, targets: &[Target]) -> Places
    requires { AreTogether jobs.now.records }
    ensures { LieWithin (λ job. list_any (λ target. is_named target job) targets.now) jobs.now.records result }
{
    let mut first = jobs.len();
    let mut end = 0;
    for target in targets {
        let places = jobs.places_of(target);
        first = first.min(places.first);
        end = end.max(places.end);
    }
    Places { first, end }
}

/// The places between which all jobs lie that one of the targets names; all, where there are none. Logarithmic in the
/// jobs for each target, and linear in the tasks of an array that it names as a whole.
pub(crate) fn places_among(jobs: &Jobs, targets: &Option<Items<Target>>) -> Places
    requires { AreTogether jobs.now.records }
    ensures { LieWithin (Showing.is_among targets.now) jobs.now.records result }
{
    match targets {
        Some(targets) => hull_of(jobs, targets.as_slice()),
        None => all_places(jobs),
    }
}

/// The places between which all jobs lie that the target names; all, where there is none. Logarithmic in the jobs, and
/// linear in the tasks of an array that it names as a whole.
pub(crate) fn places_meant(jobs: &Jobs, target: &Option<Target>) -> Places
    requires { AreTogether jobs.now.records }
    ensures { LieWithin (Showing.is_meant target.now) jobs.now.records result }
{
    match target {
        Some(target) => jobs.places_of(target),
        None => all_places(jobs),
    }
}
