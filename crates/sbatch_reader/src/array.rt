//! Which tasks an array has.

ghost use Rattle.std.specs.Prelude.{◌≡◌, ℕ, ◌<◌, ◌≤◌, ◌||◌, false, length, slice_index_or, All, IfOk, IfSome, IsErrOf, Some, None};
ghost use Rattle.std.specs.Bool.{OnTrue};
ghost use Rattle.sbatch_reader.specs.Array.{index_in, count_in, end_in, stretch_in, names, indices_of, within_limit, indices_in, array_in};
ghost use Rattle.sbatch_reader.specs.declared.array.Stretch.{Stretch};
ghost use Rattle.sbatch_reader.specs.Marks.{IsLong, marked};

use plain_data::array::{ArraySpec, Indices};
use plain_data::ranged::Ranged;
use small_texts::digits::parse_number;
use small_texts::fields::{UpToThree, up_to_three};
use small_texts::memory_error::Memory;
use std::alloc::Global;
use text_values::lists::{Grammar, read_parts};
use text_values::numbers::read_number;
use text_values::refusal::ValueRefusal;

// How many indices an array has at most.
const MOST_INDICES: usize = 10_001;

// The numbers that an item names: from a first one, in steps, to a last.
#[derive(Clone, Copy)]
struct Stretch {
    first: Ranged<0, 99999>,
    last: Ranged<0, 99999>,
    step: Ranged<1, 4294967295>,
}

fn read_index(text: &[u8]) -> Option<Ranged<0, 99999>>
    ensures { result ≡ index_in text.now }
{
    Some(Ranged::new(parse_number(text, 5, 99_999)?))
}

fn read_count(text: &[u8]) -> Option<Ranged<1, 4294967295>>
    ensures { result ≡ count_in text.now }
{
    read_number(text)
}

// The last number and the step.
#[tactic(auto, unfolding(crate::specs::Array::end_of))]
fn read_end(text: &[u8]) -> Option<(Ranged<0, 99999>, Ranged<1, 4294967295>)>
    ensures { result ≡ end_in text.now }
{
    match up_to_three(text, b':') {
        UpToThree::One(last) => Some((read_index(last)?, Ranged::new(1))),
        UpToThree::Two(last, step) => Some((read_index(last)?, read_count(step)?)),
        _ => None,
    }
}

#[tactic(auto, unfolding(crate::specs::Array::stretch_of))]
fn read_stretch(text: &[u8]) -> Option<Stretch>
    ensures { result ≡ stretch_in text.now }
{
    match up_to_three(text, b'-') {
        UpToThree::One(index) => {
            let index = read_index(index)?;
            Some(Stretch {
                first: index,
                last: index,
                step: Ranged::new(1),
            })
        }
        UpToThree::Two(first, end) => {
            let first = read_index(first)?;
            let (last, step) = read_end(end)?;
            if first.get() <= last.get() {
                Some(Stretch { first, last, step })
            } else {
                None
            }
        }
        _ => None,
    }
}

// The grammar of an item.
#[derive(Clone, Copy)]
struct StretchText;

impl Grammar for StretchText {
    type Value = Stretch;

    ghost meaning = { stretch_in };

    fn read(_alloc: Global, text: &[u8]) -> Result<Stretch, ValueRefusal> {
        read_stretch(text).ok_or(ValueRefusal::BadValue)
    }
}

impl Stretch {
    // Whether it names more numbers than an array may have.
    fn is_long(&self) -> bool
        ensures { OnTrue result (IsLong self.now) }
    {
        self.first.get() + MOST_INDICES as u64 * self.step.get() <= self.last.get()
    }

    // Marks the numbers that it names.
    fn mark(&self, marks: &mut [bool])
        requires { self.now.last < length marks.old }
        ensures { (n : ℕ) → slice_index_or marks.new n false
            ≡ (slice_index_or marks.old n false || names self.now n) }
    {
        let last = self.last.get() as usize;
        let step = self.step.get() as usize;
        let mut at = self.first.get() as usize;
        while at <= last {
            marks[at] = true;
            at += step;
        }
    }
}

// Whether one item alone names too many numbers.
#[tactic(auto, using(crate::proofs::ArrayLemmas::indexing))]
fn has_long(stretches: &[Stretch]) -> bool
    ensures { OnTrue result (10_001 < length (indices_of stretches.now)) }
{
    for stretch in stretches {
        if stretch.is_long() {
            return true;
        }
    }
    false
}

// A bound that all numbers that are named lie below.
fn bound_of(stretches: &[Stretch]) -> usize
    ensures above { All (λ (stretch : Stretch). stretch.last < result) stretches.now }
    ensures small { result ≤ 100_000 }
{
    let mut greatest = 0;
    for stretch in stretches {
        greatest = stretch.last.get().max(greatest);
    }
    greatest as usize + 1
}

// A mark at each number that is named.
fn make_marks(alloc: Global, stretches: &[Stretch]) -> Result<Vec<bool>, Memory>
    ensures named { IfOk result (λ marks. marked marks.items ≡ indices_of stretches.now) }
    ensures small { IfOk result (λ marks. length marks.items ≤ 100_000) }
{
    let bound = bound_of(stretches);
    let mut marks = vec![in alloc; false; bound]?;
    for stretch in stretches {
        stretch.mark(&mut marks);
    }
    Ok(marks)
}

fn count_marked(marks: &[bool]) -> usize
    ensures { result ≡ length (marked marks.now) }
{
    marks.iter().filter(|mark| **mark).count()
}

fn list_marked(alloc: Global, marks: &[bool], count: usize) -> Result<Vec<u32>, Memory>
    requires { length marks.now ≤ 100_000 }
    ensures { IfOk result (λ numbers. numbers.items ≡ marked marks.now) }
{
    let mut numbers = Vec::with_capacity(alloc, count)?;
    for (number, mark) in marks.iter().enumerate() {
        if *mark {
            numbers.push(number as u32)?;
        }
    }
    Ok(numbers)
}

// The numbers that are named, each once. None where there are none, or too many.
#[tactic(auto, using(crate::proofs::ArrayLemmas::indexing))]
fn make_indices(alloc: Global, stretches: &[Stretch]) -> Result<Option<Indices>, Memory>
    ensures { IfOk result (λ indices. indices ≡ within_limit (indices_of stretches.now)) }
{
    if has_long(stretches) {
        return Ok(None);
    }
    let marks = make_marks(alloc, stretches)?;
    let count = count_marked(marks.as_slice());
    if count == 0 || count > MOST_INDICES {
        return Ok(None);
    }
    let numbers = list_marked(alloc, marks.as_slice(), count)?;
    Ok(Some(Indices::from_vec(numbers)))
}

#[tactic(auto, unfolding(crate::specs::Array::indices_in))]
fn read_indices(alloc: Global, text: &[u8]) -> Result<Indices, ValueRefusal>
    ensures value { IfOk result (λ indices. indices_in text.now ≡ Some indices) }
    ensures refused { IsErrOf result ValueRefusal.BadValue → indices_in text.now ≡ None }
{
    let stretches = read_parts::<StretchText>(alloc, text, b',')?;
    let indices = make_indices(alloc, stretches.as_slice())?.ok_or(ValueRefusal::BadValue)?;
    Ok(indices)
}

/// Indices such as `1,5-9,20-40:5`, each of at most five digits, maybe with the number of tasks that hold processors at
/// once behind a `%`. An item costs a step for each number that it names, 10,001 at most; then each number up to the
/// greatest is looked at once. `--array` in sbatch(1).
#[tactic(auto, unfolding(crate::specs::Array::array_of))]
pub fn read_array(alloc: Global, text: &[u8]) -> Result<ArraySpec, ValueRefusal>
    ensures value { IfOk result (λ array. array_in text.now ≡ Some array) }
    ensures refused { IsErrOf result ValueRefusal.BadValue → array_in text.now ≡ None }
{
    let (items, most) = match up_to_three(text, b'%') {
        UpToThree::One(items) => (items, None),
        UpToThree::Two(items, most) => (
            items,
            Some(read_count(most).ok_or(ValueRefusal::BadValue)?),
        ),
        _ => return Err(ValueRefusal::BadValue),
    };
    let indices = read_indices(alloc, items)?;
    Ok(ArraySpec { indices, most })
}
