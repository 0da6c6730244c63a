//! What a job holds of a node.

ghost use Rattle.std.specs.Prelude.{◌≡◌, Some, None, IfOk, IsErrOf};
ghost use Rattle.state_save.specs.Texts.{part_text};
ghost use Rattle.state_save.specs.Meanings.{part_in, part_with};
ghost use Rattle.state_save.specs.Fitting.{PartFits};

use crate::numbers::read_u64;
use crate::word::Word;
use plain_data::CpuIds;
use reply_data::view::NamedPart;
use small_texts::fields::{UpToThree, up_to_three};
use small_texts::memory_error::Memory;
use small_texts::pieces::{push_labelled, push_text};
use std::alloc::Global;
use text_values::names::read_name;
use text_values::refusal::ValueRefusal;

#[tactic(auto, unfolding(crate::specs::Meanings::part_with))]
fn read_part(alloc: Global, name: &[u8], cpus: &[u8], mem: &[u8]) -> Result<NamedPart, ValueRefusal>
    ensures value { IfOk result (λ part. part_with name.now cpus.now mem.now ≡ Some part) }
    ensures refused { IsErrOf result ValueRefusal.BadValue → part_with name.now cpus.now mem.now ≡ None }
{
    let mem = read_u64(mem).ok_or(ValueRefusal::BadValue)?;
    let cpus = CpuIds::read_word(alloc, cpus)?;
    let node = read_name(alloc, name)?;
    Ok(NamedPart { node, cpus, mem })
}

impl Word for NamedPart {
    ghost text = { part_text };

    ghost meaning = { part_in };

    ghost fits = { PartFits };

    fn push_word(&self, out: &mut Vec<u8>) -> Result<(), Memory> {
        push_text(out, self.node.as_bytes())?;
        push_text(out, b":")?;
        self.cpus.push_word(out)?;
        push_labelled(out, b":", self.mem)
    }

    #[tactic(auto, unfolding(crate::specs::Meanings::part_of))]
    fn read_word(alloc: Global, word: &[u8]) -> Result<NamedPart, ValueRefusal> {
        match up_to_three(word, b':') {
            UpToThree::Three(name, cpus, mem) => read_part(alloc, name, cpus, mem),
            _ => Err(ValueRefusal::BadValue),
        }
    }

    fn tell_fits() {}
}
