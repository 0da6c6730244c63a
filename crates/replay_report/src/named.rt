//! Names of accounts, partitions and qualities of service.

ghost use Rattle.std.specs.Prelude.{◌≡◌, ◌++◌, IfOk, OnOk, option_to_list};
ghost use Rattle.std.specs.List.{list_any};
ghost use Rattle.std.specs.Option.{option_copied};
ghost use Rattle.replay_report.specs.Named.{AreNamesOf, is_nameless, is_of, name_of, names_said, same_name};

use crate::outcome::JobOutcome;
use small_texts::memory_error::Memory;
use small_texts::name::Name;
use std::alloc::Global;
use trace_text::TraceNames;

/// By what jobs are put into groups (own).
#[derive(Clone, Copy, Debug, PartialEq, Eq)]
pub enum GroupKind {
    Account,
    Partition,
    Qos,
}

fn name_of(kind: GroupKind, names: &TraceNames) -> Option<&Name>
    ensures { option_copied result ≡ name_of kind names.now }
{
    match kind {
        GroupKind::Account => names.account.as_ref(),
        GroupKind::Partition => names.partition.as_ref(),
        GroupKind::Qos => names.qos.as_ref(),
    }
}

fn same_name(one: Option<&Name>, other: Option<&Name>) -> bool
    ensures { result ≡ same_name (option_copied one.entry) (option_copied other.entry) }
{
    match (one, other) {
        (Some(one), Some(other)) => one.is(other),
        (Some(_), None) => false,
        (None, Some(_)) => false,
        (None, None) => true,
    }
}

/// Whether a job is of the group with this name, or of that without one.
pub(crate) fn is_of(kind: GroupKind, name: Option<&Name>, outcome: &JobOutcome) -> bool
    ensures { result ≡ is_of kind (option_copied name.entry) outcome.now }
{
    same_name(name_of(kind, &outcome.names), name)
}

fn is_nameless(kind: GroupKind, outcome: &JobOutcome) -> bool
    ensures { result ≡ is_nameless kind outcome.now }
{
    name_of(kind, &outcome.names).is_none()
}

/// Whether some job is of no named group.
pub(crate) fn has_nameless(kind: GroupKind, outcomes: &[JobOutcome]) -> bool
    ensures { result ≡ list_any (is_nameless kind) outcomes.now }
{
    outcomes.iter().any(|outcome| is_nameless(kind, outcome))
}

fn name_said(kind: GroupKind, outcome: &JobOutcome) -> Result<Option<Name>, Memory>
    ensures { IfOk result (λ name. name ≡ name_of kind outcome.now.names) }
{
    match name_of(kind, &outcome.names) {
        Some(name) => Ok(Some(name.copy()?)),
        None => Ok(None),
    }
}

fn push_some(names: &mut Vec<Name>, name: Option<Name>) -> Result<(), Memory>
    ensures { OnOk result (names.new.items ≡ names.old.items ++ option_to_list name) }
{
    match name {
        Some(name) => names.push(name)?,
        None => {}
    }
    Ok(())
}

fn names_said(alloc: Global, kind: GroupKind, outcomes: &[JobOutcome]) -> Result<Vec<Name>, Memory>
    ensures { IfOk result (λ names. names.items ≡ names_said kind outcomes.now) }
{
    let mut names = Vec::new(alloc);
    for outcome in outcomes {
        let name = name_said(kind, outcome)?;
        push_some(&mut names, name)?;
    }
    Ok(names)
}

fn in_order(names: Vec<Name>) -> Vec<Name>
    ensures { AreNamesOf names.items result.items }
{
    let mut ordered = names;
    ordered.sort_unstable();
    ordered.dedup();
    ordered
}

/// The names of the groups, each once, in the order of their bytes. It copies the names of all jobs and sorts them.
pub(crate) fn group_names(
    alloc: Global,
    kind: GroupKind,
    outcomes: &[JobOutcome],
) -> Result<Vec<Name>, Memory>
    ensures { IfOk result (λ names. AreNamesOf (names_said kind outcomes.now) names.items) }
{
    Ok(in_order(names_said(alloc, kind, outcomes)?))
}
