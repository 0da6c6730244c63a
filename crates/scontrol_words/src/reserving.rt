//! The words of `scontrol create`.

ghost use Rattle.std.specs.Prelude.{◌≡◌, ◌≤◌, ◌+◌, [], drop, unwrap_or, slice_get, option_copied, IfOk};
ghost use Rattle.scontrol_words.specs.Reserving.{is_for_someone, minutes_of, end_of, whole, reservation_said, is_reservation, first_key, nothing_reserved, created_from, create_by};

use crate::keys::{Key, scontrol_key};
use line_words::words::Words;
use operands::bad_word::{BadWord, WordKind, fault_at};
use operands::names::{read_few_names, read_few_nodes, read_name};
use operands::pairs::{Pairs, put, read_pairs};
use plain_data::items::Items;
use plain_data::limit::Limit;
use plain_data::ranged::LongRanged;
use plain_data::seconds::Moment;
use request_data::boxed::Boxed;
use request_data::request::Request;
use request_data::reservation::ReservationDesc;
use small_texts::memory_error::Memory;
use small_texts::name::Name;
use std::alloc::Global;
use text_values::times::{read_limit, read_moment};

// How many minutes a reservation stands that has no end (own).
const YEAR: u64 = 525_600;

/// When a reservation is over.
#[derive(Clone, Copy)]
pub(crate) enum Until {
    /// At this second.
    At(Moment),
    /// So long after its start.
    For(Limit),
}

/// What the pairs say of a reservation, at the moment `now`.
#[derive(Drop)]
pub(crate) struct Reserved {
    pub(crate) now: u64,
    pub(crate) name: Option<Name>,
    pub(crate) start: Option<Moment>,
    pub(crate) until: Option<Until>,
    pub(crate) nodes: Option<Items<Name>>,
    pub(crate) users: Option<Items<Name>>,
    pub(crate) accounts: Option<Items<Name>>,
}

// Nothing is said yet.
fn nothing_reserved(now: u64) -> Reserved
    ensures { result ≡ nothing_reserved now }
{
    Reserved {
        now,
        name: None,
        start: None,
        until: None,
        nodes: None,
        users: None,
        accounts: None,
    }
}

impl Reserved {
    ghost use Rattle.std.specs.Prelude.{◌≡◌, Some};
    ghost use Rattle.operands.specs.Pairs.{now_said};
    ghost use Rattle.scontrol_words.specs.Reserving.{reserved_key};
    ghost use Rattle.scontrol_words.specs.declared.keys.Key.TheVariants.{StartTime, EndTime, Duration};

    fn set_start(&mut self, value: &[u8]) -> Result<(), WordKind>
        ensures { now_said result self.new ≡ reserved_key self.old value.now (Some StartTime) }
    {
        let start = read_moment(value, self.now);
        put(&mut self.start, start)
    }

    fn set_end(&mut self, value: &[u8]) -> Result<(), WordKind>
        ensures { now_said result self.new ≡ reserved_key self.old value.now (Some EndTime) }
    {
        match read_moment(value, self.now) {
            Some(moment) => {
                self.until = Some(Until::At(moment));
                Ok(())
            }
            None => Err(WordKind::BadValue),
        }
    }

    fn set_duration(&mut self, value: &[u8]) -> Result<(), WordKind>
        ensures { now_said result self.new ≡ reserved_key self.old value.now (Some Duration) }
    {
        match read_limit(value) {
            Some(duration) => {
                self.until = Some(Until::For(duration));
                Ok(())
            }
            None => Err(WordKind::BadValue),
        }
    }
}

impl Pairs for Reserved {
    ghost use Rattle.scontrol_words.specs.Reserving.{reserved_adding};

    ghost adding = { reserved_adding };

    fn add(
        &mut self,
        alloc: Global,
        key: &[u8],
        value: &[u8],
    ) -> Result<Result<(), WordKind>, Memory> {
        match scontrol_key(key) {
            Some(Key::ReservationName) => Ok(put(&mut self.name, read_name(alloc, value)?)),
            Some(Key::StartTime) => Ok(self.set_start(value)),
            Some(Key::EndTime) => Ok(self.set_end(value)),
            Some(Key::Duration) => Ok(self.set_duration(value)),
            Some(Key::Nodes) => Ok(put(&mut self.nodes, read_few_nodes(alloc, value)?)),
            Some(Key::Users) => Ok(put(&mut self.users, read_few_names(alloc, value)?)),
            Some(Key::Accounts) => Ok(put(&mut self.accounts, read_few_names(alloc, value)?)),
            _ => Ok(Err(WordKind::UnknownOption)),
        }
    }
}

fn is_for_someone(said: &Reserved) -> bool
    ensures { result ≡ is_for_someone said.entry.now }
{
    said.users.is_some() || said.accounts.is_some()
}

// How many minutes a duration has.
fn minutes_of(duration: Limit) -> u64
    ensures value { result ≡ minutes_of duration }
    ensures range { result ≤ 52_560_000 }
{
    match duration {
        Limit::Minutes(minutes) => minutes.get(),
        Limit::Unlimited => YEAR,
    }
}

// The second at which a reservation is over.
fn second_of_end(start: Moment, until: Until) -> u64
    ensures value { result ≡ end_of start until }
    ensures range { result ≤ 253_153_600_000 }
{
    match until {
        Until::At(moment) => moment.get(),
        Until::For(duration) => start.get() + 60 * minutes_of(duration),
    }
}

fn names_or_none(alloc: Global, names: Option<Items<Name>>) -> Items<Name>
    ensures { result ≡ unwrap_or names [] }
{
    match names {
        Some(names) => names,
        None => Items::from_vec(Vec::new(alloc)),
    }
}

// The request, where all that is wanted was said; `end` is the place after the last word.
fn whole(alloc: Global, end: usize, said: Reserved) -> Result<Result<Request, BadWord>, Memory>
    ensures { IfOk result (λ request. request
        ≡ whole (end + 1) said said.name said.start said.until said.nodes) }
{
    match (said.name, said.start, said.until, said.nodes) {
        (Some(name), Some(start), Some(until), Some(nodes)) => {
            let desc = ReservationDesc {
                name,
                start,
                end: LongRanged::new(second_of_end(start, until)),
                nodes,
                users: names_or_none(alloc, said.users),
                accounts: names_or_none(alloc, said.accounts),
            };
            Ok(Ok(Request::CreateReservation(Boxed::new(alloc, desc)?)))
        }
        _ => Ok(Err(fault_at(end, WordKind::MissingWord))),
    }
}

fn reservation_said(
    alloc: Global,
    end: usize,
    said: Reserved,
) -> Result<Result<Request, BadWord>, Memory>
    ensures { IfOk result (λ request. request ≡ reservation_said (end + 1) said) }
{
    if is_for_someone(&said) {
        whole(alloc, end, said)
    } else {
        Ok(Err(fault_at(end, WordKind::MissingWord)))
    }
}

fn is_reservation(word: Option<&[u8]>) -> bool
    ensures { result ≡ is_reservation (option_copied word.entry) }
{
    match word {
        Some(word) => word == b"reservation".as_slice(),
        None => false,
    }
}

// The place of the first key.
fn first_key(words: &Words) -> usize
    ensures { result ≡ first_key words.now }
{
    if is_reservation(words.get(2)) { 3 } else { 2 }
}

fn created_from(
    alloc: Global,
    now: u64,
    first: usize,
    words: &Words,
) -> Result<Result<Request, BadWord>, Memory>
    ensures { IfOk result (λ request. request ≡ created_from now first words.now) }
{
    match read_pairs(alloc, nothing_reserved(now), words, first)? {
        Ok(said) => reservation_said(alloc, words.len(), said),
        Err(fault) => Ok(Err(fault)),
    }
}

/// What the words ask for at the moment `now`, of which the first two are `scontrol create`.
#[tactic(auto, unfolding(crate::specs::Reserving::create_by))]
pub(crate) fn read_create(
    alloc: Global,
    now: u64,
    words: &Words,
) -> Result<Result<Request, BadWord>, Memory>
    ensures { IfOk result (λ request. request ≡ create_by now words.now) }
{
    created_from(alloc, now, first_key(words), words)
}
