//! What a job waits for.

ghost use Rattle.std.specs.Prelude.{◌≡◌, ◌≤◌, nat_le, [], ◌∷◌, length, IsFalse, IfOk, IsErrOf, Some, None};
ghost use Rattle.std.specs.Str.{byte};
ghost use Rattle.small_texts.specs.Fields.{fields};
ghost use Rattle.sbatch_reader.specs.Dependency.{kind_in, id_in, item_naming, item_of, item_in, count_ids, dependency_in};

use plain_data::dependency::{DepId, DepItem, DepKind, DepSpec};
use plain_data::items::Items;
use small_texts::fields::first_field;
use std::alloc::Global;
use text_values::jobs::read_job_id;
use text_values::lists::{Grammar, read_parts};
use text_values::refusal::ValueRefusal;

// How many jobs a dependency names at most.
const MOST_IDS: usize = 64;

#[tactic(auto, unfolding(crate::specs::Dependency::kind_in))]
fn read_kind(word: &[u8]) -> Option<DepKind>
    ensures { result ≡ kind_in word.now }
{
    if word == b"after".as_slice() {
        Some(DepKind::After)
    } else if word == b"afterany".as_slice() {
        Some(DepKind::AfterAny)
    } else if word == b"afterok".as_slice() {
        Some(DepKind::AfterOk)
    } else if word == b"afternotok".as_slice() {
        Some(DepKind::AfterNotOk)
    } else if word == b"aftercorr".as_slice() {
        Some(DepKind::AfterCorr)
    } else {
        None
    }
}

fn read_id(text: &[u8]) -> Option<DepId>
    ensures { result ≡ id_in text.now }
{
    let (id, index) = read_job_id(text)?;
    Some(DepId { id, index })
}

// The grammar of a job.
#[derive(Clone, Copy)]
struct IdText;

impl Grammar for IdText {
    type Value = DepId;

    ghost meaning = { id_in };

    fn read(_alloc: Global, text: &[u8]) -> Result<DepId, ValueRefusal> {
        read_id(text).ok_or(ValueRefusal::BadValue)
    }
}

// The grammar of an item.
#[derive(Clone, Copy)]
struct ItemText;

impl Grammar for ItemText {
    type Value = DepItem;

    ghost meaning = { item_in };

    #[tactic(auto, using(crate::proofs::DependencyLemmas::item_steps))]
    fn read(alloc: Global, text: &[u8]) -> Result<DepItem, ValueRefusal> {
        match first_field(text, b':') {
            (word, None) => read_singleton(alloc, word).ok_or(ValueRefusal::BadValue),
            (word, Some(ids)) => read_naming(alloc, word, ids),
        }
    }
}

// An item that names jobs.
#[tactic(auto, unfolding(crate::specs::Dependency::item_naming))]
fn read_naming(alloc: Global, word: &[u8], ids: &[u8]) -> Result<DepItem, ValueRefusal>
    ensures value { IfOk result (λ item. item_naming word.now (fields (byte ":") ids.now) ≡ Some item) }
    ensures refused { IsErrOf result ValueRefusal.BadValue → item_naming word.now (fields (byte ":") ids.now) ≡ None }
{
    let kind = read_kind(word).ok_or(ValueRefusal::BadValue)?;
    let ids = read_parts::<IdText>(alloc, ids, b':')?;
    Ok(DepItem { kind, ids })
}

// An item of one word.
#[tactic(auto, unfolding(crate::specs::Dependency::item_of))]
fn read_singleton(alloc: Global, word: &[u8]) -> Option<DepItem>
    ensures { result ≡ item_of (word.now ∷ []) }
{
    if word == b"singleton".as_slice() {
        Some(DepItem {
            kind: DepKind::Singleton,
            ids: Items::from_vec(Vec::new(alloc)),
        })
    } else {
        None
    }
}

fn name_few_jobs(items: &[DepItem]) -> bool
    ensures { result ≡ nat_le (count_ids items.now) 64 }
{
    let mut left = MOST_IDS;
    for item in items {
        let ids = item.ids.as_slice().len();
        if ids > left {
            return false;
        }
        left -= ids;
    }
    true
}

/// Items such as `afterok:17:18_3` and `singleton`, joined by commas where all of them are needed, or by `?` where one
/// is enough; they name 64 jobs at most. `--dependency` in sbatch(1).
#[tactic(auto, unfolding(crate::specs::Dependency::dependency_in))]
pub fn read_dependency(alloc: Global, text: &[u8]) -> Result<DepSpec, ValueRefusal>
    ensures value { IfOk result (λ dependency. dependency_in text.now ≡ Some dependency) }
    ensures refused { IsErrOf result ValueRefusal.BadValue → dependency_in text.now ≡ None }
    ensures few { IfOk result (λ dependency. count_ids dependency.items ≤ 64) }
    ensures single { IfOk result (λ dependency. length dependency.items ≡ 1 → IsFalse dependency.any) }
{
    let any = text.contains(&b'?');
    let separator = if any { b'?' } else { b',' };
    let items = read_parts::<ItemText>(alloc, text, separator)?;
    if name_few_jobs(items.as_slice()) {
        Ok(DepSpec { any, items })
    } else {
        Err(ValueRefusal::BadValue)
    }
}
