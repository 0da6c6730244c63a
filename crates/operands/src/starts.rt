//! Starts of jobs that words name.

ghost use Rattle.std.specs.Prelude.{◌≡◌, ◌∷◌, [], IfOk};
ghost use Rattle.operands.specs.Starts.{start_of, start_by, done_by, starts_by, dones_by};

use plain_data::items::Items;
use request_data::report::{Done, Start};
use small_texts::fields::{UpToThree, up_to_three};
use small_texts::memory_error::Memory;
use std::alloc::Global;
use text_values::lists::{Grammar, read_parts};
use text_values::numbers::read_u32;
use text_values::refusal::{ValueRefusal, or_none};

/// The grammar of starts.
#[derive(Clone, Copy)]
pub struct StartText;

impl Grammar for StartText {
    type Value = Start;

    ghost meaning = { start_by };

    fn read(_alloc: Global, text: &[u8]) -> Result<Start, ValueRefusal> {
        read_start(text).ok_or(ValueRefusal::BadValue)
    }
}

/// The grammar of starts that are over.
#[derive(Clone, Copy)]
pub struct DoneText;

impl Grammar for DoneText {
    type Value = Done;

    ghost meaning = { done_by };

    fn read(_alloc: Global, text: &[u8]) -> Result<Done, ValueRefusal> {
        read_done(text).ok_or(ValueRefusal::BadValue)
    }
}

/// Starts between commas.
#[tactic(auto, using(crate::proofs::Readings::readings))]
pub fn read_starts(alloc: Global, list: &[u8]) -> Result<Option<Items<Start>>, Memory>
    ensures { IfOk result (λ starts. starts ≡ starts_by list.now) }
{
    or_none(read_parts::<StartText>(alloc, list, b','))
}

/// Starts that are over, between commas.
#[tactic(auto, using(crate::proofs::Readings::readings))]
pub fn read_dones(alloc: Global, list: &[u8]) -> Result<Option<Items<Done>>, Memory>
    ensures { IfOk result (λ starts. starts ≡ dones_by list.now) }
{
    or_none(read_parts::<DoneText>(alloc, list, b','))
}

#[tactic(auto, unfolding(crate::specs::Starts::start_of))]
fn read_start(text: &[u8]) -> Option<Start>
    ensures { result ≡ start_by text.now }
{
    match up_to_three(text, b'.') {
        UpToThree::Two(id, number) => start_of(id, number),
        _ => None,
    }
}

// The start of these two fields.
#[tactic(auto, unfolding(crate::specs::Starts::start_of))]
fn start_of(id: &[u8], number: &[u8]) -> Option<Start>
    ensures { result ≡ start_of (id.now ∷ number.now ∷ []) }
{
    let id = read_u32(id)?;
    let number = read_u32(number)?;
    Some(Start { id, number })
}

#[tactic(auto, unfolding(crate::specs::Starts::done_of))]
fn read_done(text: &[u8]) -> Option<Done>
    ensures { result ≡ done_by text.now }
{
    match up_to_three(text, b'.') {
        UpToThree::Three(id, number, exit) => {
            let start = start_of(id, number)?;
            let exit = read_u32(exit)?;
            Some(Done { start, exit })
        }
        _ => None,
    }
}
