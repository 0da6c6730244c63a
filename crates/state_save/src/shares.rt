//! What a planned job is to get of a node.

ghost use Rattle.std.specs.Prelude.{◌≡◌, Some, None, IfOk, IsErrOf};
ghost use Rattle.std.specs.Str.{byte};
ghost use Rattle.small_texts.specs.Fields.{fields};
ghost use Rattle.state_save.specs.Texts.{share_text};
ghost use Rattle.state_save.specs.Meanings.{amounts_in, share_with, share_in};
ghost use Rattle.state_save.specs.Fitting.{ShareFits};

use crate::numbers::{read_u32, read_u64};
use crate::word::Word;
use saved_data::parts::SavedShare;
use small_texts::fields::{UpToThree, first_field, up_to_three};
use small_texts::memory_error::Memory;
use small_texts::pieces::{push_labelled, push_text};
use std::alloc::Global;
use text_values::names::read_name;
use text_values::refusal::ValueRefusal;

// Tasks, processors and megabytes.
#[tactic(auto, unfolding(crate::specs::Meanings::amounts_of))]
fn read_amounts(text: &[u8]) -> Option<(u32, u32, u64)>
    ensures { result ≡ amounts_in text.now }
{
    match up_to_three(text, b':') {
        UpToThree::Three(tasks, cpus, mem) => {
            let tasks = read_u32(tasks)?;
            let cpus = read_u32(cpus)?;
            let mem = read_u64(mem)?;
            Some((tasks, cpus, mem))
        }
        _ => None,
    }
}

#[tactic(auto, unfolding(crate::specs::Meanings::share_with))]
fn read_share_of(alloc: Global, name: &[u8], amounts: &[u8]) -> Result<SavedShare, ValueRefusal>
    ensures value { IfOk result (λ share. share_with name.now (amounts_in amounts.now) ≡ Some share) }
    ensures refused { IsErrOf result ValueRefusal.BadValue → share_with name.now (amounts_in amounts.now) ≡ None }
{
    let (tasks, cpus, mem) = read_amounts(amounts).ok_or(ValueRefusal::BadValue)?;
    let node = read_name(alloc, name)?;
    Ok(SavedShare {
        node,
        tasks,
        cpus,
        mem,
    })
}

impl Word for SavedShare {
    ghost text = { share_text };

    ghost meaning = { share_in };

    ghost fits = { ShareFits };

    fn push_word(&self, out: &mut Vec<u8>) -> Result<(), Memory> {
        push_text(out, self.node.as_bytes())?;
        push_labelled(out, b":", u64::from(self.tasks))?;
        push_labelled(out, b":", u64::from(self.cpus))?;
        push_labelled(out, b":", self.mem)
    }

    #[tactic(auto, unfolding(crate::specs::Meanings::share_with, crate::specs::Meanings::amounts_of))]
    fn read_word(alloc: Global, word: &[u8]) -> Result<SavedShare, ValueRefusal> {
        match first_field(word, b':') {
            (name, Some(amounts)) => read_share_of(alloc, name, amounts),
            (_, None) => Err(ValueRefusal::BadValue),
        }
    }

    fn tell_fits() {}
}
