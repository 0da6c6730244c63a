//! What the jobs of each 64 places of the table may hold: of which nodes something, and whether processors at all.

ghost use Rattle.std.specs.Prelude.{◌≡◌, ◌≢◌, ◌<◌, ◌≤◌, ◌*◌, ◌/◌, ◌^◌, ℕ, All, IfSome, Some, false, true, length, slice_get, unwrap_or};
ghost use Rattle.plain_data.specs.Rows.{has_id};
ghost use Rattle.job_table.specs.declared.record.JobRecord.{JobRecord};
ghost use Rattle.job_table.specs.Blocks.{AreMarked, AreMarkedBefore, AreMarkedBut, HasMark, Shows};
ghost use Rattle.job_table.specs.JobStates.{is_holding};
ghost use Rattle.job_table.specs.Blocks as spec;

use crate::record::{JobRecord, Part};
use plain_data::NodePlaces;
use request_data::state::JobState;

/// How many places a block has (own).
pub(crate) const BLOCK: usize = 64;

// How many nodes have marks of their own (own).
const MARKS: u32 = 1024;

/// What the jobs of so many places may hold (own).
#[derive(Drop)]
pub(crate) struct Block {
    // The marks of the nodes of which one may hold something.
    nodes: NodePlaces,
    // Whether one may be in a state that holds processors.
    holding: bool,
}

// Marks the nodes of the parts.
fn mark_nodes(marks: &mut NodePlaces, parts: &[Part])
    ensures marked { All (HasMark marks.new) parts.now }
    ensures stays { (number : ℕ) → has_id marks.old number ≡ true → has_id marks.new number ≡ true }
{
    for part in parts {
        marks.insert(part.node % MARKS);
    }
}

// Whether a job in this state holds processors.
fn is_holding(state: JobState) -> bool
    ensures { result ≡ is_holding state }
{
    matches!(state, JobState::Running | JobState::Completing(_))
}

// Marks what the job holds.
fn mark(block: &mut Block, job: &JobRecord)
    ensures shown { Shows block.new job.now }
    ensures stays { (other : JobRecord) → Shows block.old other → Shows block.new other }
{
    mark_nodes(&mut block.nodes, job.parts.as_slice());
    block.holding |= is_holding(job.state);
}

// What the jobs of a block hold.
fn count(jobs: &[JobRecord], number: usize) -> Block
    requires { number * 64 ≤ length jobs.now }
    ensures { (place : ℕ) (job : JobRecord) → place / 64 ≡ number → slice_get jobs.now place ≡ Some job
        → Shows result job }
{
    let first = number * BLOCK;
    let mut block = Block {
        nodes: NodePlaces::none(),
        holding: false,
    };
    for place in first..jobs.len().min(first + BLOCK) {
        mark(&mut block, &jobs[place]);
    }
    block
}

/// Counts anew what the jobs hold, from a block on. A block for which there is no memory isn't kept; there is enough
/// where it was reserved, or as many were kept before.
pub(crate) fn count_from(blocks: &mut Vec<Block>, jobs: &[JobRecord], first: usize)
    requires { AreMarkedBefore first blocks.old.items jobs.now }
    ensures { AreMarked blocks.new.items jobs.now }
{
    blocks.truncate(first);
    for block in blocks.len()..jobs.len() / BLOCK + 1 {
        if blocks.push(count(jobs, block)).is_err() {
            return;
        }
    }
}

/// Counts anew what the jobs hold, where fewer are left than there were.
pub(crate) fn count_left(blocks: &mut Vec<Block>, jobs: &[JobRecord], were: usize)
    requires { were ≤ length jobs.now → AreMarked blocks.old.items jobs.now }
    ensures { AreMarked blocks.new.items jobs.now }
{
    if jobs.len() < were {
        count_from(blocks, jobs, 0);
    }
}

// Counts anew what the jobs in the block of a place hold, if it is kept.
fn count_at(blocks: &mut Vec<Block>, jobs: &[JobRecord], place: usize)
    requires there { place < length jobs.now }
    requires others { AreMarkedBut place blocks.old.items jobs.now }
    ensures { AreMarked blocks.new.items jobs.now }
{
    let block = place / BLOCK;
    if block < blocks.len() {
        blocks[block] = count(jobs, block);
    }
}

// Marks what the job at a place holds, if its block is kept.
fn mark_at(blocks: &mut Vec<Block>, jobs: &[JobRecord], place: usize)
    requires there { place < length jobs.now }
    requires others { AreMarkedBut place blocks.old.items jobs.now }
    ensures { AreMarked blocks.new.items jobs.now }
{
    let block = place / BLOCK;
    if block < blocks.len() {
        mark(&mut blocks[block], &jobs[place]);
    }
}

/// The job at a place has changed, which held something before or nothing. Linear in its parts; where it has let go of
/// all, in those of its block.
pub(crate) fn follow(blocks: &mut Vec<Block>, jobs: &[JobRecord], place: usize, held: bool)
    requires there { place < length jobs.now }
    requires others { AreMarkedBut place blocks.old.items jobs.now }
    ensures { AreMarked blocks.new.items jobs.now }
{
    if held && jobs[place].parts.as_slice().is_empty() {
        count_at(blocks, jobs, place);
    } else {
        mark_at(blocks, jobs, place);
    }
}

// Whether a job in the block of a place may hold something of the node.
fn may_hold(blocks: &[Block], place: usize, node: u32) -> bool
    ensures { result ≡ spec.may_hold (slice_get blocks.now (place / 64)) node }
{
    match blocks.get(place / BLOCK) {
        Some(block) => block.nodes.contains(node % MARKS),
        None => true,
    }
}

/// The first place from one on, of so many, in whose block a job may hold something of the node.
pub(crate) fn next_marked(blocks: &[Block], end: usize, node: u32, from: usize) -> Option<usize>
    requires { end < 2 ^ 63 }
    ensures there { IfSome result (λ place. (from ≤ place) × (place < end)) }
    ensures before { (place : ℕ) → from ≤ place → place < unwrap_or result end
        → spec.may_hold (slice_get blocks.now (place / 64)) node ≡ false }
{
    let mut place = from;
    while place < end {
        if may_hold(blocks, place, node) {
            return Some(place);
        }
        place = (place / BLOCK + 1) * BLOCK;
    }
    None
}

// Whether a job in the block of a place may be in a state that holds processors.
fn may_be_holding(blocks: &[Block], place: usize) -> bool
    ensures { result ≡ spec.may_be_holding (slice_get blocks.now (place / 64)) }
{
    match blocks.get(place / BLOCK) {
        Some(block) => block.holding,
        None => true,
    }
}

/// The first place from one on, of so many, in whose block a job may be in a state that holds processors.
pub(crate) fn next_in_holding(blocks: &[Block], end: usize, from: usize) -> Option<usize>
    requires { end < 2 ^ 63 }
    ensures there { IfSome result (λ place. (from ≤ place) × (place < end)) }
    ensures before { (place : ℕ) → from ≤ place → place < unwrap_or result end
        → spec.may_be_holding (slice_get blocks.now (place / 64)) ≡ false }
{
    let mut place = from;
    while place < end {
        if may_be_holding(blocks, place) {
            return Some(place);
        }
        place = (place / BLOCK + 1) * BLOCK;
    }
    None
}
