//! Two replays of one trace, job by job.

ghost use Rattle.std.specs.Prelude.{◌≡◌, ◌++◌, IfOk, IsPermutation, OnOk, filter, option_to_list, slice_get};
ghost use Rattle.std.specs.Option.{option_copied};
ghost use Rattle.std.specs.List.Sorted.{IsSortedBy};
ghost use Rattle.std.specs.Ordering.{is_lt};
ghost use Rattle.replay_report.specs.Changes.{AreMostChanged, change_at, change_with, changes_in, difference, goes_before, has_changed, turn_of};

use crate::outcome::JobOutcome;
use crate::spans::{span_of, wait_of};
use small_texts::memory_error::Memory;
use std::alloc::Global;
use std::cmp::Ordering;
use trace_text::TraceId;

/// When a job started in a replay, and how long it had waited (own).
#[derive(Clone, Copy, Debug, PartialEq, Eq)]
pub struct Turn {
    pub start: u64,
    pub wait: u64,
}

/// A job that ran in both of two replays of one trace (own).
#[derive(Clone, Copy, Debug, PartialEq, Eq)]
pub struct Change {
    /// Its place among the outcomes, counted from 0.
    pub place: usize,
    pub id: TraceId,
    pub before: Turn,
    pub after: Turn,
}

/// Whether jobs are sought that wait less, or more (own).
#[derive(Clone, Copy, Debug, PartialEq, Eq)]
pub enum Direction {
    Less,
    More,
}

fn turn_of(outcome: &JobOutcome) -> Option<Turn>
    ensures { result ≡ turn_of outcome.now }
{
    let span = span_of(outcome)?;
    Some(Turn {
        start: span.start,
        wait: wait_of(span),
    })
}

fn change_at(place: usize, before: &JobOutcome, after: &JobOutcome) -> Option<Change>
    ensures { result ≡ change_at place before.now after.now }
{
    let earlier = turn_of(before)?;
    let later = turn_of(after)?;
    Some(Change {
        place,
        id: before.id,
        before: earlier,
        after: later,
    })
}

fn outcome_at(outcomes: &[JobOutcome], place: usize) -> Option<&JobOutcome>
    ensures { option_copied result ≡ slice_get outcomes.now place }
{
    outcomes.get(place)
}

// The change of the job at a place.
fn change_with(after: &[JobOutcome], place: usize, before: &JobOutcome) -> Option<Change>
    ensures { result ≡ change_with after.now place before.now }
{
    let other = outcome_at(after, place)?;
    change_at(place, before, other)
}

// Takes the change of the job at a place, where it ran in both replays.
fn take_change(
    after: &[JobOutcome],
    place: usize,
    before: &JobOutcome,
    changes: &mut Vec<Change>,
) -> Result<(), Memory>
    ensures { OnOk result (changes.new.items
        ≡ changes.old.items ++ option_to_list (change_with after.now place before.now)) }
{
    if let Some(change) = change_with(after, place, before) {
        changes.push(change)?;
    }
    Ok(())
}

/// The jobs that ran in both replays, by the outcomes of each, in one order. Linear in them.
#[tactic(auto, using(crate::proofs::Compared::comparing))]
pub fn changes(
    alloc: Global,
    before: &[JobOutcome],
    after: &[JobOutcome],
) -> Result<Vec<Change>, Memory>
    ensures { IfOk result (λ changes. changes.items ≡ changes_in after.now 0 before.now) }
{
    let mut changes = Vec::new(alloc);
    for (place, one) in before.iter().enumerate() {
        take_change(after, place, one, &mut changes)?;
    }
    Ok(changes)
}

// By how many seconds the wait has become less, or more.
fn difference(direction: Direction, change: Change) -> u64
    ensures { result ≡ difference direction change }
{
    match direction {
        Direction::Less => change.before.wait.saturating_sub(change.after.wait),
        Direction::More => change.after.wait.saturating_sub(change.before.wait),
    }
}

fn has_changed(direction: Direction, change: Change) -> bool
    ensures { result ≡ has_changed direction change }
{
    difference(direction, change) > 0
}

fn compare(direction: Direction, one: Change, other: Change) -> Ordering
    ensures { is_lt result ≡ goes_before direction one other }
{
    match difference(direction, other).cmp(&difference(direction, one)) {
        Ordering::Equal => one.place.cmp(&other.place),
        order => order,
    }
}

fn sort(direction: Direction, changes: &mut Vec<Change>)
    ensures moved { IsPermutation changes.old.items changes.new.items }
    ensures sorted { IsSortedBy (goes_before direction) changes.new.items }
{
    changes.sort_unstable_by(|one, other| compare(direction, *one, *other));
}

fn changed(alloc: Global, direction: Direction, changes: &[Change]) -> Result<Vec<Change>, Memory>
    ensures { IfOk result (λ kept. kept.items ≡ filter (has_changed direction) changes.now) }
{
    Ok(
        changes
            .iter()
            .copied()
            .filter(|change| has_changed(direction, *change))
            .collect(alloc)?,
    )
}

/// So many of the jobs that wait less, or more, at the most: first those whose wait has changed most, and of those alike the
/// one of the lowest place. n log n in the jobs.
pub fn most_changed(
    alloc: Global,
    direction: Direction,
    most: usize,
    changes: &[Change],
) -> Result<Vec<Change>, Memory>
    ensures { IfOk result (λ first. AreMostChanged direction most changes.now first.items) }
{
    let mut first = changed(alloc, direction, changes)?;
    sort(direction, &mut first);
    first.truncate(most);
    Ok(first)
}
