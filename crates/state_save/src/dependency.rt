//! What a job waits for.

ghost use Rattle.std.specs.Prelude.{◌≡◌, ◌∷◌, ◌++◌, flat_map, map, OnOk};
ghost use Rattle.sbatch_reader.specs.Dependency.{dependency_in};
ghost use Rattle.table_texts.specs.Dependency.{kind_word, index_text, id_text, item_text};
ghost use Rattle.state_save.specs.Texts.{joined, mark_of, dependency_text};
ghost use Rattle.state_save.specs.Fitting.{DependencyFits};

use crate::word::Word;
use plain_data::dependency::{DepId, DepItem, DepKind, DepSpec};
use sbatch_reader::dependency::read_dependency;
use small_texts::memory_error::Memory;
use small_texts::pieces::{push_labelled, push_text};
use std::alloc::Global;
use text_values::refusal::ValueRefusal;

fn kind_word(kind: DepKind) -> &'static [u8]
    ensures { result.now ≡ kind_word kind }
{
    match kind {
        DepKind::After => b"after",
        DepKind::AfterAny => b"afterany",
        DepKind::AfterOk => b"afterok",
        DepKind::AfterNotOk => b"afternotok",
        DepKind::AfterCorr => b"aftercorr",
        DepKind::Singleton => b"singleton",
    }
}

fn push_index(out: &mut Vec<u8>, index: Option<u32>) -> Result<(), Memory>
    ensures { OnOk result (out.new.items ≡ out.old.items ++ index_text index) }
{
    match index {
        Some(index) => push_labelled(out, b"_", u64::from(index)),
        None => Ok(()),
    }
}

fn push_ids(out: &mut Vec<u8>, ids: &[DepId]) -> Result<(), Memory>
    ensures { OnOk result (out.new.items ≡ out.old.items ++ flat_map id_text ids.now) }
{
    for id in ids {
        push_labelled(out, b":", u64::from(id.id))?;
        push_index(out, id.index)?;
    }
    Ok(())
}

fn push_item(out: &mut Vec<u8>, item: &DepItem) -> Result<(), Memory>
    ensures { OnOk result (out.new.items ≡ out.old.items ++ item_text item.now) }
{
    push_text(out, kind_word(item.kind))?;
    push_ids(out, item.ids.as_slice())
}

fn push_others(out: &mut Vec<u8>, others: &[DepItem], mark: u8) -> Result<(), Memory>
    ensures { OnOk result (out.new.items ≡ out.old.items ++ flat_map (λ item. mark ∷ item_text item) others.now) }
{
    for item in others {
        push_text(out, &[mark])?;
        push_item(out, item)?;
    }
    Ok(())
}

fn mark_of(any: bool) -> u8
    ensures { result ≡ mark_of any }
{
    if any { b'?' } else { b',' }
}

impl Word for DepSpec {
    ghost text = { dependency_text };

    ghost meaning = { dependency_in };

    ghost fits = { DependencyFits };

    fn push_word(&self, out: &mut Vec<u8>) -> Result<(), Memory> {
        let Some((first, others)) = self.items.as_slice().split_first() else {
            return Ok(());
        };
        push_item(out, first)?;
        push_others(out, others, mark_of(self.any))
    }

    fn read_word(alloc: Global, word: &[u8]) -> Result<DepSpec, ValueRefusal> {
        read_dependency(alloc, word)
    }

    fn tell_fits() {}
}
