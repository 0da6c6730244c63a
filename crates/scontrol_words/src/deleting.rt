//! The words of `scontrol delete`.

ghost use Rattle.std.specs.Prelude.{◌≡◌, ◌+◌, IfOk};
ghost use Rattle.scontrol_words.specs.Reserving.{deletion_said, delete_by};

use crate::keys::{Key, scontrol_key};
use line_words::words::Words;
use operands::bad_word::{BadWord, WordKind, fault_at};
use operands::names::read_name;
use operands::pairs::{Pairs, put, read_pairs};
use request_data::request::Request;
use small_texts::memory_error::Memory;
use small_texts::name::Name;
use std::alloc::Global;

/// What the pairs say of a reservation that is taken back.
#[derive(Drop)]
pub(crate) struct Deletion {
    pub(crate) name: Option<Name>,
}

impl Pairs for Deletion {
    ghost use Rattle.scontrol_words.specs.Reserving.{deletion_adding};

    ghost adding = { deletion_adding };

    fn add(
        &mut self,
        alloc: Global,
        key: &[u8],
        value: &[u8],
    ) -> Result<Result<(), WordKind>, Memory> {
        match scontrol_key(key) {
            Some(Key::ReservationName) => Ok(put(&mut self.name, read_name(alloc, value)?)),
            _ => Ok(Err(WordKind::UnknownOption)),
        }
    }
}

// The request, where a reservation is named; `end` is the place after the last word.
fn deletion_said(end: usize, name: Option<Name>) -> Result<Request, BadWord>
    ensures { result ≡ deletion_said (end + 1) name }
{
    match name {
        Some(name) => Ok(Request::DeleteReservation { name }),
        None => Err(fault_at(end, WordKind::MissingWord)),
    }
}

/// What the words ask for, of which the first two are `scontrol delete`.
#[tactic(auto, unfolding(crate::specs::Reserving::delete_by))]
pub(crate) fn read_delete(alloc: Global, words: &Words) -> Result<Result<Request, BadWord>, Memory>
    ensures { IfOk result (λ request. request ≡ delete_by words.now) }
{
    match read_pairs(alloc, Deletion { name: None }, words, 2)? {
        Ok(said) => Ok(deletion_said(words.len(), said.name)),
        Err(fault) => Ok(Err(fault)),
    }
}
