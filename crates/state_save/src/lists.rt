//! Lists, with a mark between two members.

ghost use Rattle.std.specs.Prelude.{◌≡◌, ℕ, List, ◌∷◌, ◌++◌, Some, None, map, flat_map, All, IfOk, OnOk, IsErrOf};
ghost use Rattle.std.specs.Str.{byte};
ghost use Rattle.state_save.specs.Texts.{joined, listed};
ghost use Rattle.state_save.specs.Meanings.{list_in};

use crate::word::Word;
use plain_data::items::Items;
use small_texts::memory_error::Memory;
use small_texts::pieces::push_text;
use std::alloc::Global;
use text_values::lists::{Grammar, read_parts};
use text_values::refusal::ValueRefusal;

// The grammar of words.
#[derive(Drop)]
struct WordText<T> {
    _value: T,
}

impl<T: Word> Grammar for WordText<T> {
    type Value = T;

    ghost meaning = { T.meaning };

    fn read(alloc: Global, text: &[u8]) -> Result<T, ValueRefusal> {
        T::read_word(alloc, text)
    }
}

fn push_others<T: Word>(out: &mut Vec<u8>, items: &[T], mark: u8) -> Result<(), Memory>
    ensures { OnOk result (out.new.items ≡ out.old.items ++ flat_map (λ x. mark ∷ T.text x) items.now) }
{
    for item in items {
        push_text(out, &[mark])?;
        item.push_word(out)?;
    }
    Ok(())
}

/// Writes the members with the mark between two of them.
pub fn push_list<T: Word>(out: &mut Vec<u8>, items: &[T], mark: u8) -> Result<(), Memory>
    ensures { OnOk result (out.new.items ≡ out.old.items ++ joined mark (map T.text items.now)) }
{
    let Some((first, others)) = items.split_first() else {
        return Ok(());
    };
    first.push_word(out)?;
    push_others(out, others, mark)
}

/// The members that stand between marks; nothing is the empty list.
pub fn read_list<T: Word>(alloc: Global, text: &[u8], mark: u8) -> Result<Items<T>, ValueRefusal>
    ensures value { IfOk result (λ items. list_in T.meaning mark text.now ≡ Some items) }
    ensures refused { IsErrOf result ValueRefusal.BadValue → list_in T.meaning mark text.now ≡ None }
{
    if text.is_empty() {
        return Ok(Items::from_vec(Vec::new(alloc)));
    }
    read_parts::<WordText<T>>(alloc, text, mark)
}

impl<T: Word> Word for Items<T> {
    ghost text = { listed T.text };

    ghost meaning = { list_in T.meaning (byte ",") };

    ghost fits = { All T.fits };

    fn push_word(&self, out: &mut Vec<u8>) -> Result<(), Memory> {
        push_list(out, self.as_slice(), b',')
    }

    fn read_word(alloc: Global, word: &[u8]) -> Result<Items<T>, ValueRefusal> {
        read_list(alloc, word, b',')
    }

    #[tactic(auto, using(crate::proofs::ListWords::list_sound))]
    fn tell_fits() {
        T::tell_fits();
    }
}
