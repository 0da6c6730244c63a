//! The values of a line, by the places of their words.

ghost use Rattle.std.specs.Prelude.{◌≡◌, Some, None, All, IfOk, IsErrOf};
ghost use Rattle.std.specs.Option.{option_copied};
ghost use Rattle.state_save.specs.Fitting.{AreHosts};
ghost use Rattle.state_save.specs.Meanings.{list_in, hosts_in};
ghost use Rattle.state_save.specs.Lines.{field_at, field_in};

use crate::hosts::read_hosts;
use crate::lists::read_list;
use crate::word::Word;
use line_words::words::Words;
use plain_data::items::Items;
use small_texts::name::Name;
use std::alloc::Global;
use text_values::refusal::ValueRefusal;

/// What stands behind a key in the word at a place, counted from 0.
#[tactic(auto, unfolding(crate::specs::Lines::field_at))]
pub fn field<'a>(line: &'a Words, place: usize, key: &[u8]) -> Option<&'a [u8]>
    ensures { option_copied result ≡ field_at line.now place key.now }
{
    line.get(place)?.strip_prefix(key)
}

/// The value behind a key in the word at a place.
#[tactic(auto, unfolding(crate::specs::Lines::field_in))]
pub fn read_field<T: Word>(
    alloc: Global,
    line: &Words,
    place: usize,
    key: &[u8],
) -> Result<T, ValueRefusal>
    ensures value { IfOk result (λ value. field_in T.meaning line.now place key.now ≡ Some value) }
    ensures refused { IsErrOf result ValueRefusal.BadValue → field_in T.meaning line.now place key.now ≡ None }
    ensures fit { IfOk result T.fits }
{
    T::tell_fits();
    let Some(text) = field(line, place, key) else {
        return Err(ValueRefusal::BadValue);
    };
    T::read_word(alloc, text)
}

/// The values with a mark between two of them, behind a key in the word at a place.
#[tactic(auto, unfolding(crate::specs::Lines::field_in))]
pub fn read_list_field<T: Word>(
    alloc: Global,
    line: &Words,
    place: usize,
    key: &[u8],
    mark: u8,
) -> Result<Items<T>, ValueRefusal>
    ensures value { IfOk result (λ values. field_in (list_in T.meaning mark) line.now place key.now ≡ Some values) }
    ensures refused { IsErrOf result ValueRefusal.BadValue → field_in (list_in T.meaning mark) line.now place key.now ≡ None }
    ensures fit { IfOk result (All T.fits) }
{
    T::tell_fits();
    let Some(text) = field(line, place, key) else {
        return Err(ValueRefusal::BadValue);
    };
    read_list(alloc, text, mark)
}

/// The names of nodes, each once, behind a key in the word at a place.
#[tactic(auto, using(crate::proofs::HostWords::hosts_sound), unfolding(crate::specs::Lines::field_in))]
pub fn read_hosts_field(
    alloc: Global,
    line: &Words,
    place: usize,
    key: &[u8],
) -> Result<Items<Name>, ValueRefusal>
    ensures value { IfOk result (λ names. field_in hosts_in line.now place key.now ≡ Some names) }
    ensures refused { IsErrOf result ValueRefusal.BadValue → field_in hosts_in line.now place key.now ≡ None }
    ensures fit { IfOk result AreHosts }
{
    let Some(text) = field(line, place, key) else {
        return Err(ValueRefusal::BadValue);
    };
    read_hosts(alloc, text)
}
