//! The boot number of a daemon and the number of its report, and the moment of the report.

ghost use Rattle.std.specs.Prelude.{◌≡◌, ◌++◌, OnOk};
ghost use Rattle.state_save.specs.Texts.{pair_text, heard_text};
ghost use Rattle.state_save.specs.Meanings.{pair_in, heard_in};
ghost use Rattle.state_save.specs.Fitting.{PairFits, HeardFits};

use crate::numbers::read_u64;
use crate::word::Word;
use request_data::report::Heard;
use small_texts::fields::{UpToThree, up_to_three};
use small_texts::memory_error::Memory;
use small_texts::pieces::{push_labelled, push_number};
use std::alloc::Global;
use text_values::refusal::ValueRefusal;

/// The boot number of a daemon and the number of its report.
#[derive(Clone, Copy)]
pub struct Pair {
    pub boot: u64,
    pub number: u64,
}

// Writes two numbers with a dot between them.
fn push_pair(out: &mut Vec<u8>, boot: u64, number: u64) -> Result<(), Memory>
    ensures { OnOk result (out.new.items ≡ out.old.items ++ pair_text boot number) }
{
    push_number(out, boot)?;
    push_labelled(out, b".", number)
}

#[tactic(auto, unfolding(crate::specs::Meanings::pair_of))]
fn read_pair(word: &[u8]) -> Option<Pair>
    ensures { result ≡ pair_in word.now }
{
    match up_to_three(word, b'.') {
        UpToThree::Two(boot, number) => {
            let boot = read_u64(boot)?;
            let number = read_u64(number)?;
            Some(Pair { boot, number })
        }
        _ => None,
    }
}

#[tactic(auto, unfolding(crate::specs::Meanings::heard_of))]
fn read_heard(word: &[u8]) -> Option<Heard>
    ensures { result ≡ heard_in word.now }
{
    match up_to_three(word, b'.') {
        UpToThree::Three(boot, number, moment) => {
            let boot = read_u64(boot)?;
            let number = read_u64(number)?;
            let moment = read_u64(moment)?;
            Some(Heard {
                boot,
                number,
                moment,
            })
        }
        _ => None,
    }
}

impl Word for Pair {
    ghost text = { λ pair. pair_text pair.boot pair.number };

    ghost meaning = { pair_in };

    ghost fits = { PairFits };

    fn push_word(&self, out: &mut Vec<u8>) -> Result<(), Memory> {
        push_pair(out, self.boot, self.number)
    }

    fn read_word(_alloc: Global, word: &[u8]) -> Result<Pair, ValueRefusal> {
        read_pair(word).ok_or(ValueRefusal::BadValue)
    }

    #[tactic(auto, using(crate::proofs::Values::pair_sound))]
    fn tell_fits() {}
}

impl Word for Heard {
    ghost text = { heard_text };

    ghost meaning = { heard_in };

    ghost fits = { HeardFits };

    fn push_word(&self, out: &mut Vec<u8>) -> Result<(), Memory> {
        push_pair(out, self.boot, self.number)?;
        push_labelled(out, b".", self.moment)
    }

    fn read_word(_alloc: Global, word: &[u8]) -> Result<Heard, ValueRefusal> {
        read_heard(word).ok_or(ValueRefusal::BadValue)
    }

    #[tactic(auto, using(crate::proofs::Values::heard_sound))]
    fn tell_fits() {}
}
