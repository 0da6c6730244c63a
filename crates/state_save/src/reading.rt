//! A saved state, read from its text.

ghost use Rattle.std.specs.Prelude.{◌≡◌, ℕ, ◌+◌, ◌-◌, ◌<◌, ◌≤◌, ◌^◌, ◌↔◌, List, Err, IfOk, IfSome, IfNone, OnOk, IsErrOf, IsTrue, ◌∷◌, [], length};
ghost use Rattle.saved_data.specs.Sizes.{longest_text};
ghost use Rattle.saved_data.specs.declared.saved.Saved.{Saved};
ghost use Rattle.state_save.specs.declared.cluster_lines.Head.{Head};
ghost use Rattle.state_save.specs.Parts.{version_text, end_text, AreFirstRead, AreLastRead, AreMembersRead, IsBadEnd};
ghost use Rattle.state_save.specs.Reading.{lines_of, IsFirstBadLine};
ghost use Rattle.state_save.specs.Savable.{HeadFits, IsSavable};
ghost use Rattle.state_save.specs.Saved.{line_text, moment_words, saved_text};

use crate::cluster_lines::Head;
use crate::line::{first_line, next_line, read_lines};
use crate::refusal::SavedRefusal;
use node_state::record::DroppedNode;
use plain_data::items::Items;
use saved_data::job::SavedJob;
use saved_data::parts::{
    SavedArray, SavedNode, SavedPartition, SavedPlaced, SavedReservation, SavedUsage,
};
use saved_data::saved::Saved;
use small_texts::memory_error::Memory;
use std::alloc::Global;

/// How many bytes the text of a saved state has at most (own).
pub const LONGEST_TEXT: usize = 268_435_456;

// What the first kinds of lines say.
#[derive(Drop)]
struct FirstMembers {
    partitions: Items<SavedPartition>,
    nodes: Items<SavedNode>,
    dropped: Items<DroppedNode>,
    usage: Items<SavedUsage>,
}

// What the other kinds of lines say.
#[derive(Drop)]
struct LastMembers {
    reservations: Items<SavedReservation>,
    arrays: Items<SavedArray>,
    jobs: Items<SavedJob>,
    plan: Items<SavedPlaced>,
}

fn read_first(alloc: Global, text: &[u8]) -> Result<(FirstMembers, &[u8]), Memory>
    requires { length text.now < 2 ^ 32 }
    ensures read { IfOk result (λ read.
        AreFirstRead text.now read.0.partitions read.0.nodes read.0.dropped read.0.usage read.1.now) }
    ensures shorter { IfOk result (λ read. length read.1.now ≤ length text.now) }
{
    let (partitions, rest) = read_lines(alloc, text)?;
    let (nodes, rest) = read_lines(alloc, rest)?;
    let (dropped, rest) = read_lines(alloc, rest)?;
    let (usage, rest) = read_lines(alloc, rest)?;
    let first = FirstMembers {
        partitions,
        nodes,
        dropped,
        usage,
    };
    Ok((first, rest))
}

fn read_last(alloc: Global, text: &[u8]) -> Result<(LastMembers, &[u8]), Memory>
    requires { length text.now < 2 ^ 32 }
    ensures read { IfOk result (λ read.
        AreLastRead text.now read.0.reservations read.0.arrays read.0.jobs read.0.plan read.1.now) }
    ensures shorter { IfOk result (λ read. length read.1.now ≤ length text.now) }
{
    let (reservations, rest) = read_lines(alloc, text)?;
    let (arrays, rest) = read_lines(alloc, rest)?;
    let (jobs, rest) = read_lines(alloc, rest)?;
    let (plan, rest) = read_lines(alloc, rest)?;
    let last = LastMembers {
        reservations,
        arrays,
        jobs,
        plan,
    };
    Ok((last, rest))
}

// What the lines between the second and the last say, and what follows them.
fn read_members(alloc: Global, head: Head, text: &[u8]) -> Result<(Saved, &[u8]), Memory>
    requires { length text.now < 2 ^ 32 }
    ensures read { IfOk result (λ read. AreMembersRead text.now read.0 read.1.now) }
    ensures head { IfOk result (λ read. (read.0.moment ≡ head.moment) × (read.0.next_id ≡ head.next_id)) }
    ensures shorter { IfOk result (λ read. length read.1.now ≤ length text.now) }
{
    let (first, rest) = read_first(alloc, text)?;
    let (last, rest) = read_last(alloc, rest)?;
    let saved = Saved {
        moment: head.moment,
        next_id: head.next_id,
        partitions: first.partitions,
        nodes: first.nodes,
        dropped: first.dropped,
        usage: first.usage,
        reservations: last.reservations,
        arrays: last.arrays,
        jobs: last.jobs,
        plan: last.plan,
    };
    Ok((saved, rest))
}

// How many lines a text has.
fn count_lines(text: &[u8]) -> usize
    ensures value { result ≡ length (lines_of text.now) }
    ensures few { result ≤ length text.now }
{
    let mut count = 0;
    let mut rest = text;
    while !rest.is_empty() {
        let (_, others) = first_line(rest);
        count += 1;
        rest = others;
    }
    count
}

// The number of the line with which a rest of the text begins.
fn place_of(text: &[u8], rest: &[u8]) -> u32
    requires { length text.now ≤ 268_435_456 }
    ensures { result ≡ length (lines_of text.now) - length (lines_of rest.now) + 1 }
{
    (count_lines(text).saturating_sub(count_lines(rest)) + 1) as u32
}

#[tactic(auto, unfolding(crate::specs::Saved::line_text, line_words::specs::Words::quoted_words, line_words::specs::Words::quoted))]
fn is_version(line: &[u8]) -> bool
    ensures { IsTrue result ↔ (line.now ≡ version_text) }
{
    line == b"slurm-state 1\n".as_slice()
}

#[tactic(auto, unfolding(crate::specs::Saved::line_text, line_words::specs::Words::quoted_words, line_words::specs::Words::quoted))]
fn is_end(line: &[u8]) -> bool
    ensures { IsTrue result ↔ (line.now ≡ end_text) }
{
    line == b"end\n".as_slice()
}

// What follows the first line, if that is the one of the version.
fn behind_version(text: &[u8]) -> Option<&[u8]>
    ensures some { IfSome result (λ rest. lines_of text.now ≡ version_text ∷ lines_of rest.now) }
    ensures none { IfNone result ((more : List (List ℕ)) → ¬ (lines_of text.now ≡ version_text ∷ more)) }
    ensures shorter { IfSome result (λ rest. length rest.now ≤ length text.now) }
{
    if text.is_empty() {
        return None;
    }
    let (first, rest) = first_line(text);
    if is_version(first) { Some(rest) } else { None }
}

// What follows the first line, if that is the last one of a saved state.
fn behind_end(text: &[u8]) -> Option<&[u8]>
    ensures some { IfSome result (λ rest. lines_of text.now ≡ end_text ∷ lines_of rest.now) }
    ensures none { IfNone result ((more : List (List ℕ)) → ¬ (lines_of text.now ≡ end_text ∷ more)) }
{
    if text.is_empty() {
        return None;
    }
    let (first, rest) = first_line(text);
    if is_end(first) { Some(rest) } else { None }
}

// The number of the first bad line, where the text doesn't end as it should behind the members.
#[tactic(auto, using(crate::proofs::Ends::end_steps))]
fn bad_end(text: &[u8], rest: &[u8]) -> Option<u32>
    requires { length text.now ≤ 268_435_456 }
    ensures good { IfNone result (lines_of rest.now ≡ end_text ∷ []) }
    ensures bad { IfSome result (λ line. IsBadEnd (lines_of text.now) (lines_of rest.now) line) }
{
    match behind_end(rest) {
        None => Some(place_of(text, rest)),
        Some([]) => None,
        Some(more) => Some(place_of(text, more)),
    }
}

// The saved state whose text goes on like this behind its second line.
fn read_behind_head(
    alloc: Global,
    text: &[u8],
    head: Head,
    behind: &[u8],
) -> Result<Saved, SavedRefusal>
    requires short { length text.now ≤ 268_435_456 }
    requires within { length behind.now ≤ length text.now }
    requires fit { HeadFits head }
    requires alone { (other : Head) → HeadFits other → line_text (moment_words other.moment other.next_id)
        ≡ line_text (moment_words head.moment head.next_id) → other ≡ head }
    requires cut { lines_of text.now ≡ version_text ∷ line_text (moment_words head.moment head.next_id) ∷ lines_of behind.now }
    ensures value { IfOk result (λ saved. IsSavable saved × (saved_text saved ≡ text.now)) }
    ensures only { (saved : Saved) → IsSavable saved → saved_text saved ≡ text.now → IfOk result (λ read. read ≡ saved) }
    ensures refused { (line : ℕ) → IsErrOf result (SavedRefusal.BadSaved line) → IsFirstBadLine text.now line }
{
    let (saved, end) = read_members(alloc, head, behind)?;
    match bad_end(text, end) {
        Some(line) => Err(SavedRefusal::BadSaved { line }),
        None => Ok(saved),
    }
}

// The saved state whose text goes on like this behind its first line.
fn read_behind_version(alloc: Global, text: &[u8], rest: &[u8]) -> Result<Saved, SavedRefusal>
    requires short { length text.now ≤ 268_435_456 }
    requires within { length rest.now ≤ length text.now }
    requires cut { lines_of text.now ≡ version_text ∷ lines_of rest.now }
    ensures value { IfOk result (λ saved. IsSavable saved × (saved_text saved ≡ text.now)) }
    ensures only { (saved : Saved) → IsSavable saved → saved_text saved ≡ text.now → IfOk result (λ read. read ≡ saved) }
    ensures refused { (line : ℕ) → IsErrOf result (SavedRefusal.BadSaved line) → IsFirstBadLine text.now line }
{
    let found = next_line::<Head>(alloc, &[], rest)?;
    match found {
        Some((head, behind)) => read_behind_head(alloc, text, head, behind),
        None => Err(SavedRefusal::BadSaved { line: 2 }),
    }
}

fn read_short(alloc: Global, text: &[u8]) -> Result<Saved, SavedRefusal>
    requires { length text.now ≤ 268_435_456 }
    ensures value { IfOk result (λ saved. IsSavable saved × (saved_text saved ≡ text.now)) }
    ensures only { (saved : Saved) → IsSavable saved → saved_text saved ≡ text.now → IfOk result (λ read. read ≡ saved) }
    ensures refused { (line : ℕ) → IsErrOf result (SavedRefusal.BadSaved line) → IsFirstBadLine text.now line }
{
    match behind_version(text) {
        Some(rest) => read_behind_version(alloc, text, rest),
        None => Err(SavedRefusal::BadSaved { line: 1 }),
    }
}

/// The saved state of which this is the text. The lines before the one that is told are those of some saved state.
/// Linear in the text, but for the nodes that a job must have and mustn't have, of which each is looked for among those
/// behind it.
#[tactic(auto, unfolding(saved_data::specs::Sizes::longest_text))]
pub fn read_saved(alloc: Global, text: &[u8]) -> Result<Saved, SavedRefusal>
    ensures text { IfOk result (λ saved. text.now ≡ saved_text saved) }
    ensures savable { IfOk result IsSavable }
    ensures short { IfOk result (λ saved. length text.now ≤ longest_text) }
    ensures only { (saved : Saved) → IsSavable saved → saved_text saved ≡ text.now → length text.now ≤ longest_text
        → IfOk result (λ read. read ≡ saved) }
    ensures long { (line : ℕ) → IsErrOf result (SavedRefusal.BadSaved line) → longest_text < length text.now → line ≡ 0 }
    ensures bad { (line : ℕ) → IsErrOf result (SavedRefusal.BadSaved line) → length text.now ≤ longest_text
        → IsFirstBadLine text.now line }
{
    if text.len() > LONGEST_TEXT {
        return Err(SavedRefusal::BadSaved { line: 0 });
    }
    read_short(alloc, text)
}
