//! Sums by account, partition and quality of service.

ghost use Rattle.std.specs.Prelude.{◌≡◌, ◌++◌, IfOk, OnOk, All, Some, length, map};
ghost use Rattle.std.specs.Option.{option_copied};
ghost use Rattle.replay_report.specs.Spans.{span_of, spans_in};
ghost use Rattle.replay_report.specs.Sums.{AreGroupSums, AreGroups, AreSums, jobs_of, nameless};
ghost use Rattle.replay_report.specs.declared.groups.GroupSums.{GroupSums as Group};

use crate::named::{GroupKind, group_names, has_nameless, is_of};
use crate::outcome::JobOutcome;
use crate::spans::{Span, span_of};
use crate::sums::{Sums, sums_of};
use small_texts::memory_error::Memory;
use small_texts::name::Name;
use std::alloc::Global;

/// The sums over a group of jobs (own).
#[derive(Debug, Drop)]
pub struct GroupSums {
    /// None is the group of those without such a name.
    pub name: Option<Name>,
    pub sums: Sums,
}

fn spans_of(
    alloc: Global,
    kind: GroupKind,
    name: Option<&Name>,
    outcomes: &[JobOutcome],
) -> Result<Vec<Span>, Memory>
    ensures { IfOk result (λ spans. spans.items ≡ spans_in (jobs_of kind (option_copied name.entry) outcomes.now)) }
{
    Ok(
        outcomes
            .iter()
            .filter(|outcome| is_of(kind, name, outcome))
            .filter_map(|outcome| span_of(outcome))
            .collect(alloc)?,
    )
}

fn count_of(kind: GroupKind, name: Option<&Name>, outcomes: &[JobOutcome]) -> usize
    ensures { result ≡ length (jobs_of kind (option_copied name.entry) outcomes.now) }
{
    outcomes
        .iter()
        .filter(|outcome| is_of(kind, name, outcome))
        .count()
}

fn group_sums(
    alloc: Global,
    kind: GroupKind,
    name: Option<&Name>,
    outcomes: &[JobOutcome],
) -> Result<Sums, Memory>
    ensures { IfOk result (AreSums (length (jobs_of kind (option_copied name.entry) outcomes.now))
        (spans_in (jobs_of kind (option_copied name.entry) outcomes.now))) }
{
    let spans = spans_of(alloc, kind, name, outcomes)?;
    sums_of(alloc, count_of(kind, name, outcomes), spans.as_slice())
}

// The group of a name.
fn named_group(
    alloc: Global,
    kind: GroupKind,
    name: &Name,
    outcomes: &[JobOutcome],
) -> Result<GroupSums, Memory>
    ensures name { IfOk result (λ (group : Group). group.name ≡ Some name.now) }
    ensures sums { IfOk result (AreGroupSums kind outcomes.now) }
{
    let sums = group_sums(alloc, kind, Some(name), outcomes)?;
    let name = name.copy()?;
    Ok(GroupSums {
        name: Some(name),
        sums,
    })
}

// The groups of these names.
fn named_groups(
    alloc: Global,
    kind: GroupKind,
    names: &[Name],
    outcomes: &[JobOutcome],
) -> Result<Vec<GroupSums>, Memory>
    ensures names { IfOk result (λ groups.
        map (λ (group : Group). group.name) groups.items ≡ map (λ name. Some name) names.now) }
    ensures sums { IfOk result (λ groups. All (AreGroupSums kind outcomes.now) groups.items) }
{
    let mut groups = Vec::new(alloc);
    for name in names {
        groups.push(named_group(alloc, kind, name, outcomes)?)?;
    }
    Ok(groups)
}

// Adds the group of the jobs without a name, where there are such.
fn push_nameless(
    alloc: Global,
    kind: GroupKind,
    outcomes: &[JobOutcome],
    groups: &mut Vec<GroupSums>,
) -> Result<(), Memory>
    ensures names { OnOk result (map (λ (group : Group). group.name) groups.new.items
        ≡ map (λ (group : Group). group.name) groups.old.items ++ nameless kind outcomes.now) }
    ensures sums { OnOk result (All (AreGroupSums kind outcomes.now) groups.old.items
        → All (AreGroupSums kind outcomes.now) groups.new.items) }
{
    if !has_nameless(kind, outcomes) {
        return Ok(());
    }
    let sums = group_sums(alloc, kind, None, outcomes)?;
    groups.push(GroupSums { name: None, sums })?;
    Ok(())
}

/// The sums over each group of jobs: in the order of their names' bytes, and those without a name last. It goes over the jobs
/// once for each group.
pub(crate) fn groups_of(
    alloc: Global,
    kind: GroupKind,
    outcomes: &[JobOutcome],
) -> Result<Vec<GroupSums>, Memory>
    ensures { IfOk result (λ groups. AreGroups kind outcomes.now groups.items) }
{
    let names = group_names(alloc, kind, outcomes)?;
    let mut groups = named_groups(alloc, kind, names.as_slice(), outcomes)?;
    push_nameless(alloc, kind, outcomes, &mut groups)?;
    Ok(groups)
}
