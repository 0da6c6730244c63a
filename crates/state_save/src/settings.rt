//! What a job asks for: its limit, its memory and its nice value.

ghost use Rattle.std.specs.Prelude.{◌≡◌, codes, decimal};
ghost use Rattle.text_values.specs.Nice.{nice_in};
ghost use Rattle.state_save.specs.Texts.{limit_text, mem_text, nice_text};
ghost use Rattle.state_save.specs.Meanings.{limit_in, mem_behind, mem_in};
ghost use Rattle.state_save.specs.Fitting.{LimitFits, MemFits, NiceFits};

use crate::numbers::read_ranged;
use crate::word::Word;
use plain_data::limit::Limit;
use plain_data::mem_ask::MemAsk;
use plain_data::nice::Nice;
use small_texts::fields::{UpToThree, up_to_three};
use small_texts::memory_error::Memory;
use small_texts::pieces::{push_labelled, push_number, push_text};
use std::alloc::Global;
use text_values::nice::read_nice;
use text_values::refusal::ValueRefusal;

#[tactic(auto, unfolding(crate::specs::Meanings::limit_in))]
fn read_limit(word: &[u8]) -> Option<Limit>
    ensures { result ≡ limit_in word.now }
{
    if word == b"UNLIMITED".as_slice() {
        return Some(Limit::Unlimited);
    }
    Some(Limit::Minutes(read_ranged(word)?))
}

#[tactic(auto, unfolding(crate::specs::Meanings::mem_behind))]
fn read_mem_behind(kind: &[u8], number: &[u8]) -> Option<MemAsk>
    ensures { result ≡ mem_behind kind.now number.now }
{
    let mem = read_ranged(number)?;
    if kind == b"node".as_slice() {
        Some(MemAsk::PerNode(mem))
    } else if kind == b"cpu".as_slice() {
        Some(MemAsk::PerCpu(mem))
    } else {
        None
    }
}

#[tactic(auto, unfolding(crate::specs::Meanings::mem_of))]
fn read_mem(word: &[u8]) -> Option<MemAsk>
    ensures { result ≡ mem_in word.now }
{
    match up_to_three(word, b':') {
        UpToThree::One(all) => {
            if all == b"all".as_slice() {
                Some(MemAsk::All)
            } else {
                None
            }
        }
        UpToThree::Two(kind, number) => read_mem_behind(kind, number),
        _ => None,
    }
}

impl Word for Limit {
    ghost text = { limit_text };

    ghost meaning = { limit_in };

    ghost fits = { LimitFits };

    fn push_word(&self, out: &mut Vec<u8>) -> Result<(), Memory> {
        match self {
            Limit::Minutes(minutes) => push_number(out, minutes.get()),
            Limit::Unlimited => push_text(out, b"UNLIMITED"),
        }
    }

    fn read_word(_alloc: Global, word: &[u8]) -> Result<Limit, ValueRefusal> {
        read_limit(word).ok_or(ValueRefusal::BadValue)
    }

    #[tactic(auto, using(crate::proofs::Values::limit_sound))]
    fn tell_fits() {}
}

impl Word for MemAsk {
    ghost text = { mem_text };

    ghost meaning = { mem_in };

    ghost fits = { MemFits };

    fn push_word(&self, out: &mut Vec<u8>) -> Result<(), Memory> {
        match self {
            MemAsk::All => push_text(out, b"all"),
            MemAsk::PerNode(mem) => push_labelled(out, b"node:", mem.get()),
            MemAsk::PerCpu(mem) => push_labelled(out, b"cpu:", mem.get()),
        }
    }

    fn read_word(_alloc: Global, word: &[u8]) -> Result<MemAsk, ValueRefusal> {
        read_mem(word).ok_or(ValueRefusal::BadValue)
    }

    #[tactic(auto, using(crate::proofs::Values::mem_sound))]
    fn tell_fits() {}
}

impl Word for Nice {
    ghost text = { nice_text };

    ghost meaning = { nice_in };

    ghost fits = { NiceFits };

    fn push_word(&self, out: &mut Vec<u8>) -> Result<(), Memory> {
        match self {
            Nice::Lower(number) => push_number(out, number.get()),
            Nice::Raise(number) => push_labelled(out, b"-", number.get()),
        }
    }

    fn read_word(_alloc: Global, word: &[u8]) -> Result<Nice, ValueRefusal> {
        read_nice(word).ok_or(ValueRefusal::BadValue)
    }

    #[tactic(auto, using(crate::proofs::Values::nice_sound))]
    fn tell_fits() {}
}
