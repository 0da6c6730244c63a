//! The words of `scontrol show`.

ghost use Rattle.std.specs.Prelude.{◌≡◌, slice_get, IfOk};
ghost use Rattle.operands.specs.Operands.{maybe};
ghost use Rattle.text_values.specs.Names.{name_in};
ghost use Rattle.operands.specs.Targets.{target_by};
ghost use Rattle.scontrol_words.specs.Showing.{shown_named, shown_in, named_query, job_query, name_query, query_of, show_by};

use line_words::words::Words;
use operands::bad_word::{BadWord, WordKind, fault_at};
use operands::names::read_name;
use operands::operand::{closed_at, word_at};
use operands::targets::read_target;
use request_data::query::Query;
use request_data::target::Target;
use small_texts::memory_error::Memory;
use small_texts::name::Name;
use std::alloc::Global;

/// What is shown.
#[derive(Clone, Copy)]
pub(crate) enum Shown {
    Job,
    Node,
    Partition,
    Reservation,
}

#[tactic(auto, unfolding(crate::specs::Showing::shown_named))]
fn shown_named(word: &[u8]) -> Option<Shown>
    ensures { result ≡ shown_named word.now }
{
    if word == b"job".as_slice() {
        Some(Shown::Job)
    } else if word == b"node".as_slice() {
        Some(Shown::Node)
    } else if word == b"partition".as_slice() {
        Some(Shown::Partition)
    } else if word == b"reservation".as_slice() {
        Some(Shown::Reservation)
    } else {
        None
    }
}

// What the third word says is shown.
#[tactic(auto, unfolding(crate::specs::Showing::shown_in))]
fn shown_in(words: &Words) -> Result<Shown, BadWord>
    ensures { result ≡ shown_in words.now }
{
    let word = word_at(words, 2)?;
    match shown_named(word) {
        Some(shown) => Ok(shown),
        None => Err(fault_at(2, WordKind::UnknownCommand)),
    }
}

// The target in the fourth word, if there is one.
fn maybe_target(words: &Words) -> Result<Option<Target>, BadWord>
    ensures { result ≡ maybe target_by 4 (slice_get words.now 3) }
{
    let Some(word) = words.get(3) else {
        return Ok(None);
    };
    match read_target(word) {
        Some(target) => Ok(Some(target)),
        None => Err(fault_at(3, WordKind::BadValue)),
    }
}

// The name in the fourth word, if there is one.
fn maybe_name(alloc: Global, words: &Words) -> Result<Result<Option<Name>, BadWord>, Memory>
    ensures { IfOk result (λ name. name ≡ maybe name_in 4 (slice_get words.now 3)) }
{
    let Some(word) = words.get(3) else {
        return Ok(Ok(None));
    };
    match read_name(alloc, word)? {
        Some(name) => Ok(Ok(Some(name))),
        None => Ok(Err(fault_at(3, WordKind::BadValue))),
    }
}

// The query of a name that may be left out.
fn named_query(shown: Shown, name: Option<Name>) -> Query
    ensures { result ≡ named_query shown name }
{
    match shown {
        Shown::Job => Query::ShowJob(None),
        Shown::Node => Query::ShowNode(name),
        Shown::Partition => Query::ShowPartition(name),
        Shown::Reservation => Query::ShowReservation(name),
    }
}

#[tactic(auto, unfolding(crate::specs::Showing::job_query))]
fn job_query(words: &Words) -> Result<Query, BadWord>
    ensures { result ≡ job_query words.now }
{
    let target = maybe_target(words)?;
    closed_at(words, 4, Query::ShowJob(target))
}

#[tactic(auto, unfolding(crate::specs::Showing::name_query))]
fn name_query(alloc: Global, shown: Shown, words: &Words) -> Result<Result<Query, BadWord>, Memory>
    ensures { IfOk result (λ query. query ≡ name_query shown words.now) }
{
    match maybe_name(alloc, words)? {
        Ok(name) => Ok(closed_at(words, 4, named_query(shown, name))),
        Err(fault) => Ok(Err(fault)),
    }
}

fn query_of(alloc: Global, shown: Shown, words: &Words) -> Result<Result<Query, BadWord>, Memory>
    ensures { IfOk result (λ query. query ≡ query_of shown words.now) }
{
    match shown {
        Shown::Job => Ok(job_query(words)),
        _ => name_query(alloc, shown, words),
    }
}

/// What the words ask for, of which the first two are `scontrol show`.
#[tactic(auto, unfolding(crate::specs::Showing::show_by))]
pub(crate) fn read_show(alloc: Global, words: &Words) -> Result<Result<Query, BadWord>, Memory>
    ensures { IfOk result (λ query. query ≡ show_by words.now) }
{
    match shown_in(words) {
        Ok(shown) => query_of(alloc, shown, words),
        Err(fault) => Ok(Err(fault)),
    }
}
