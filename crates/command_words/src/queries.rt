//! The options of squeue(1), sinfo(1) and sprio(1).

ghost use Rattle.std.specs.Prelude.{◌≡◌, Some, IfOk};
ghost use Rattle.text_values.specs.Arguments.{part_of, rows};
ghost use Rattle.command_words.specs.declared.queries.QueryOption.TheVariants as option;
ghost use Rattle.command_words.specs.Queries.{entry_of, flag_entry, format_by, unless_long, nothing_said, query_words, squeue_options, sinfo_options, sprio_options, squeue_by, sinfo_by, sprio_by, value_of, with_entry};

use line_words::words::Words;
use operands::bad_word::{BadWord, WordKind, at_word, fault_at, fault_of};
use operands::format::{FormatRefusal, read_format};
use operands::names::read_name;
use operands::targets::{read_states, read_targets};
use plain_data::items::Items;
use request_data::boxed::Boxed;
use request_data::query::{JobQuery, Piece, Query, StateCode, Who};
use request_data::target::Target;
use small_texts::memory_error::Memory;
use small_texts::name::Name;
use std::alloc::Global;
use text_values::arguments::Takes::{self, Nothing, Value};
use text_values::arguments::{Argument, Cursor, next_argument};

// A longer format isn't taken.
const LONGEST_FORMAT: usize = 1024;

/// An option that stands without a value.
#[derive(Clone, Copy)]
pub(crate) enum QueryFlag {
    NoHeader,
    Start,
    Me,
}

/// An option that stands with a value.
#[derive(Clone, Copy)]
pub(crate) enum QueryOption {
    User,
    Jobs,
    Partition,
    States,
    Format,
}

/// The options of squeue(1).
pub(crate) const SQUEUE_OPTIONS: [(&[u8], Option<u8>, Takes<QueryFlag, QueryOption>); 8] = [
    (b"noheader", Some(b'h'), Nothing(QueryFlag::NoHeader)),
    (b"start", None, Nothing(QueryFlag::Start)),
    (b"me", None, Nothing(QueryFlag::Me)),
    (b"user", Some(b'u'), Value(QueryOption::User)),
    (b"jobs", Some(b'j'), Value(QueryOption::Jobs)),
    (b"partition", Some(b'p'), Value(QueryOption::Partition)),
    (b"states", Some(b't'), Value(QueryOption::States)),
    (b"format", Some(b'o'), Value(QueryOption::Format)),
];

/// The options of sinfo(1).
pub(crate) const SINFO_OPTIONS: [(&[u8], Option<u8>, Takes<QueryFlag, QueryOption>); 2] = [
    (b"noheader", Some(b'h'), Nothing(QueryFlag::NoHeader)),
    (b"partition", Some(b'p'), Value(QueryOption::Partition)),
];

/// The options of sprio(1).
pub(crate) const SPRIO_OPTIONS: [(&[u8], Option<u8>, Takes<QueryFlag, QueryOption>); 3] = [
    (b"noheader", Some(b'h'), Nothing(QueryFlag::NoHeader)),
    (b"user", Some(b'u'), Value(QueryOption::User)),
    (b"jobs", Some(b'j'), Value(QueryOption::Jobs)),
];

/// What one option says.
#[derive(Drop)]
pub(crate) enum QueryEntry {
    NoTitles,
    Starts,
    Whose(Who),
    Jobs(Items<Target>),
    Partition(Name),
    States(Items<StateCode>),
    Format(Items<Piece>),
}

// All jobs that haven't ended, in the usual format.
fn nothing_said() -> JobQuery
    ensures { result ≡ nothing_said }
{
    JobQuery {
        who: Who::Anyone,
        jobs: None,
        partition: None,
        states: None,
        titles: true,
        starts: false,
        format: None,
    }
}

// Takes up what one option says.
fn put_entry(query: &mut JobQuery, entry: QueryEntry)
    ensures { query.new ≡ with_entry query.old entry }
{
    match entry {
        QueryEntry::NoTitles => query.titles = false,
        QueryEntry::Starts => query.starts = true,
        QueryEntry::Whose(who) => query.who = who,
        QueryEntry::Jobs(targets) => query.jobs = Some(targets),
        QueryEntry::Partition(name) => query.partition = Some(name),
        QueryEntry::States(states) => query.states = Some(states),
        QueryEntry::Format(pieces) => query.format = Some(pieces),
    }
}

// What an argument says, or what is wrong with it.
fn read_entry(
    alloc: Global,
    argument: Argument<'_, QueryFlag, QueryOption>,
) -> Result<Result<QueryEntry, BadWord>, Memory>
    ensures { IfOk result (λ entry. entry ≡ entry_of (part_of argument.entry)) }
{
    match argument {
        Argument::Flag { flag, .. } => Ok(Ok(flag_entry(flag))),
        Argument::Valued {
            option,
            place,
            text,
            ..
        } => Ok(at_word(place, read_value(alloc, option, text)?)),
        Argument::Plain { number, .. } => Ok(Err(fault_of(number, WordKind::StrayWord))),
        Argument::Bad { number, kind } => Ok(Err(fault_of(number, kind))),
        Argument::Lacking { number, .. } => Ok(Err(fault_at(number, WordKind::MissingValue))),
    }
}

fn flag_entry(flag: QueryFlag) -> QueryEntry
    ensures { result ≡ flag_entry flag }
{
    match flag {
        QueryFlag::NoHeader => QueryEntry::NoTitles,
        QueryFlag::Start => QueryEntry::Starts,
        QueryFlag::Me => QueryEntry::Whose(Who::Asker),
    }
}

fn read_value(
    alloc: Global,
    option: QueryOption,
    text: &[u8],
) -> Result<Result<QueryEntry, WordKind>, Memory>
    ensures { IfOk result (λ entry. entry ≡ value_of option text.now) }
{
    match option {
        QueryOption::User => read_user(alloc, text),
        QueryOption::Jobs => read_jobs(alloc, text),
        QueryOption::Partition => read_partition(alloc, text),
        QueryOption::States => read_codes(alloc, text),
        QueryOption::Format => Ok(read_pieces(alloc, text)?.map(QueryEntry::Format)),
    }
}

fn read_user(alloc: Global, text: &[u8]) -> Result<Result<QueryEntry, WordKind>, Memory>
    ensures { IfOk result (λ entry. entry ≡ value_of option.User text.now) }
{
    match read_name(alloc, text)? {
        Some(name) => Ok(Ok(QueryEntry::Whose(Who::User(name)))),
        None => Ok(Err(WordKind::BadValue)),
    }
}

fn read_jobs(alloc: Global, text: &[u8]) -> Result<Result<QueryEntry, WordKind>, Memory>
    ensures { IfOk result (λ entry. entry ≡ value_of option.Jobs text.now) }
{
    match read_targets(alloc, text)? {
        Some(targets) => Ok(Ok(QueryEntry::Jobs(targets))),
        None => Ok(Err(WordKind::BadValue)),
    }
}

fn read_partition(alloc: Global, text: &[u8]) -> Result<Result<QueryEntry, WordKind>, Memory>
    ensures { IfOk result (λ entry. entry ≡ value_of option.Partition text.now) }
{
    match read_name(alloc, text)? {
        Some(name) => Ok(Ok(QueryEntry::Partition(name))),
        None => Ok(Err(WordKind::BadValue)),
    }
}

fn read_codes(alloc: Global, text: &[u8]) -> Result<Result<QueryEntry, WordKind>, Memory>
    ensures { IfOk result (λ entry. entry ≡ value_of option.States text.now) }
{
    match read_states(alloc, text)? {
        Some(states) => Ok(Ok(QueryEntry::States(states))),
        None => Ok(Err(WordKind::BadValue)),
    }
}

// A format that is off the grammar is that first, and then too long.
fn read_pieces(alloc: Global, text: &[u8]) -> Result<Result<Items<Piece>, WordKind>, Memory>
    ensures { IfOk result (λ pieces. pieces ≡ format_by text.now) }
{
    match read_format(alloc, text) {
        Ok(pieces) => Ok(unless_long(text, pieces)),
        Err(FormatRefusal::BadFormat) => Ok(Err(WordKind::BadValue)),
        Err(FormatRefusal::Memory) => Err(Memory),
    }
}

fn unless_long(text: &[u8], pieces: Items<Piece>) -> Result<Items<Piece>, WordKind>
    ensures { result ≡ unless_long text.now (Some pieces) }
{
    if text.len() > LONGEST_FORMAT {
        Err(WordKind::TooLong)
    } else {
        Ok(pieces)
    }
}

// What the words behind a command's name say, by the table of its options.
#[tactic(auto, unfolding(crate::specs::Queries::query_words))]
fn read_options(
    alloc: Global,
    table: &[(&[u8], Option<u8>, Takes<QueryFlag, QueryOption>)],
    words: &Words,
) -> Result<Result<JobQuery, BadWord>, Memory>
    ensures { IfOk result (λ said. said ≡ query_words (rows table.now) words.now) }
{
    let mut said = nothing_said();
    let mut cursor = Cursor {
        place: 1,
        ended: false,
    };
    while let Some(argument) = next_argument(table, words, &mut cursor) {
        match read_entry(alloc, argument)? {
            Ok(entry) => put_entry(&mut said, entry),
            Err(fault) => return Ok(Err(fault)),
        }
    }
    Ok(Ok(said))
}

#[tactic(auto, unfolding(crate::specs::Queries::squeue_options))]
fn squeue_words(alloc: Global, words: &Words) -> Result<Result<JobQuery, BadWord>, Memory>
    ensures { IfOk result (λ said. said ≡ query_words squeue_options words.now) }
{
    read_options(alloc, &SQUEUE_OPTIONS, words)
}

#[tactic(auto, unfolding(crate::specs::Queries::sinfo_options))]
fn sinfo_words(alloc: Global, words: &Words) -> Result<Result<JobQuery, BadWord>, Memory>
    ensures { IfOk result (λ said. said ≡ query_words sinfo_options words.now) }
{
    read_options(alloc, &SINFO_OPTIONS, words)
}

#[tactic(auto, unfolding(crate::specs::Queries::sprio_options))]
fn sprio_words(alloc: Global, words: &Words) -> Result<Result<JobQuery, BadWord>, Memory>
    ensures { IfOk result (λ said. said ≡ query_words sprio_options words.now) }
{
    read_options(alloc, &SPRIO_OPTIONS, words)
}

/// The query that the words of squeue(1) make.
#[tactic(auto, unfolding(crate::specs::Queries::squeue_by))]
pub(crate) fn read_squeue(alloc: Global, words: &Words) -> Result<Result<Query, BadWord>, Memory>
    ensures { IfOk result (λ query. query ≡ squeue_by words.now) }
{
    match squeue_words(alloc, words)? {
        Ok(said) => Ok(Ok(Query::Squeue(Boxed::new(alloc, said)?))),
        Err(fault) => Ok(Err(fault)),
    }
}

/// The query that the words of sinfo(1) make.
#[tactic(auto, unfolding(crate::specs::Queries::sinfo_by))]
pub(crate) fn read_sinfo(alloc: Global, words: &Words) -> Result<Result<Query, BadWord>, Memory>
    ensures { IfOk result (λ query. query ≡ sinfo_by words.now) }
{
    match sinfo_words(alloc, words)? {
        Ok(said) => Ok(Ok(Query::Sinfo {
            partition: said.partition,
            titles: said.titles,
        })),
        Err(fault) => Ok(Err(fault)),
    }
}

/// The query that the words of sprio(1) make.
#[tactic(auto, unfolding(crate::specs::Queries::sprio_by))]
pub(crate) fn read_sprio(alloc: Global, words: &Words) -> Result<Result<Query, BadWord>, Memory>
    ensures { IfOk result (λ query. query ≡ sprio_by words.now) }
{
    match sprio_words(alloc, words)? {
        Ok(said) => Ok(Ok(Query::Sprio {
            who: said.who,
            jobs: said.jobs,
            titles: said.titles,
        })),
        Err(fault) => Ok(Err(fault)),
    }
}
