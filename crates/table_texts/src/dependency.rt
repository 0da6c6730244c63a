//! The text of what a job waits for.

ghost use Rattle.std.specs.Prelude.{◌≡◌, ◌++◌, flat_map, OnOk};
ghost use Rattle.table_texts.specs.Dependency.{kind_word, index_text, id_text, item_text, mark, later_item, items_text, dependency_text};

use plain_data::boxed::Boxed;
use plain_data::dependency::{DepId, DepItem, DepKind, DepSpec};
use small_texts::memory_error::Memory;
use small_texts::pieces::{push_labelled, push_text};

/// Writes what a job waits for, as `--dependency` of sbatch(1) takes it.
#[tactic(auto, unfolding(crate::specs::Dependency::dependency_text))]
pub fn push_dependency(out: &mut Vec<u8>, dependency: &Option<Boxed<DepSpec>>) -> Result<(), Memory>
    ensures { OnOk result (out.new.items ≡ out.old.items ++ dependency_text dependency.now) }
{
    match dependency {
        Some(spec) => push_items(out, spec.any, spec.items.as_slice()),
        None => push_text(out, b"(null)"),
    }
}

fn push_items(out: &mut Vec<u8>, any: bool, items: &[DepItem]) -> Result<(), Memory>
    ensures { OnOk result (out.new.items ≡ out.old.items ++ items_text any items.now) }
{
    let Some((first, others)) = items.split_first() else {
        return Ok(());
    };
    push_item(out, first)?;
    push_later_items(out, any, others)
}

fn push_later_items(out: &mut Vec<u8>, any: bool, items: &[DepItem]) -> Result<(), Memory>
    ensures { OnOk result (out.new.items ≡ out.old.items ++ flat_map (later_item any) items.now) }
{
    for item in items {
        push_text(out, mark_between(any))?;
        push_item(out, item)?;
    }
    Ok(())
}

fn push_item(out: &mut Vec<u8>, item: &DepItem) -> Result<(), Memory>
    ensures { OnOk result (out.new.items ≡ out.old.items ++ item_text item.now) }
{
    push_text(out, word(item.kind))?;
    push_ids(out, item.ids.as_slice())
}

fn push_ids(out: &mut Vec<u8>, ids: &[DepId]) -> Result<(), Memory>
    ensures { OnOk result (out.new.items ≡ out.old.items ++ flat_map id_text ids.now) }
{
    for id in ids {
        push_labelled(out, b":", u64::from(id.id))?;
        push_index(out, id.index)?;
    }
    Ok(())
}

fn push_index(out: &mut Vec<u8>, index: Option<u32>) -> Result<(), Memory>
    ensures { OnOk result (out.new.items ≡ out.old.items ++ index_text index) }
{
    match index {
        Some(index) => push_labelled(out, b"_", u64::from(index)),
        None => Ok(()),
    }
}

fn mark_between(any: bool) -> &'static [u8]
    ensures { result.now ≡ mark any }
{
    if any { b"?" } else { b"," }
}

fn word(kind: DepKind) -> &'static [u8]
    ensures { result.now ≡ kind_word kind }
{
    match kind {
        DepKind::After => b"after",
        DepKind::AfterAny => b"afterany",
        DepKind::AfterOk => b"afterok",
        DepKind::AfterNotOk => b"afternotok",
        DepKind::AfterCorr => b"aftercorr",
        DepKind::Singleton => b"singleton",
    }
}
