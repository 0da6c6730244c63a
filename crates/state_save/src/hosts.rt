//! Names of nodes, each once.

ghost use Rattle.std.specs.Prelude.{◌≡◌, Some, None, IfOk, IsErrOf};
ghost use Rattle.host_lists.specs.Hosts.{has};
ghost use Rattle.state_save.specs.Fitting.{each_once};
ghost use Rattle.state_save.specs.Meanings.{hosts_in};

use crate::word::Word;
use plain_data::items::Items;
use small_texts::name::Name;
use std::alloc::Global;
use text_values::refusal::ValueRefusal;

const MOST_HOSTS: usize = 1024;

fn has(name: &Name, names: &[Name]) -> bool
    ensures { result ≡ has name.now names.now }
{
    names.iter().any(|other| name.is(other))
}

// Whether no name stands again behind itself. Quadratic in the names.
fn are_once(names: &[Name]) -> bool
    ensures { result ≡ each_once names.now }
{
    let mut rest = names;
    while let Some((name, others)) = rest.split_first() {
        if has(name, others) {
            return false;
        }
        rest = others;
    }
    true
}

/// Names of nodes, each once, 1,024 at most; nothing is the empty list.
#[tactic(auto, unfolding(crate::specs::Meanings::hosts_in))]
pub fn read_hosts(alloc: Global, text: &[u8]) -> Result<Items<Name>, ValueRefusal>
    ensures value { IfOk result (λ names. hosts_in text.now ≡ Some names) }
    ensures refused { IsErrOf result ValueRefusal.BadValue → hosts_in text.now ≡ None }
{
    let names: Items<Name> = Word::read_word(alloc, text)?;
    if names.as_slice().len() <= MOST_HOSTS && are_once(names.as_slice()) {
        Ok(names)
    } else {
        Err(ValueRefusal::BadValue)
    }
}
