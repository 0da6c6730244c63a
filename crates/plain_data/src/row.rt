//! A row of bits, one for each number that a processor, or a node's place, may have.

ghost use Rattle.std.specs.Prelude.{◌≡◌, ◌<◌, ◌≤◌, ◌&&◌, ◌||◌, ◌↔◌, ◌++◌, ◌∷◌, ℕ, [], not, length, take, All, AllPairs, IfOk, IsTrue, bytes_eq, nat_eq, slice_index, ◌^◌};
ghost use Rattle.std.specs.Cmp.{partial_equiv_from_equiv};
ghost use Rattle.std.specs.Cmp.Lexicographic.{nat_list_eq_equiv};
ghost use Rattle.plain_data.specs.Rows.{has_id, others_below};

use std::alloc::{AllocError, Global};
use std::marker::Model;

// How many bits a word has.
const WORD: u32 = 64;

/// Processor numbers of a node, each below 1,024 (own). A contract sees them as the list that rises. Making, copying
/// and changing a row takes no memory, and constant time unless something else is said.
#[derive(Debug, Drop)]
pub struct CpuIds {
    words: [u64; 16],
}

/// A set of nodes: their places among all nodes, each below 1,024 (own).
pub type NodePlaces = CpuIds;

// It does nothing: its contract tells how large a word is.
fn tell_words(words: &[u64])
    ensures { (place : ℕ) → slice_index words.now place < 2 ^ 64 }
{}

impl Model for CpuIds {
    ghost use Rattle.std.specs.Prelude.{ℕ, List};
    ghost use Rattle.plain_data.specs.Rows.{ids_of};

    ghost Value = { List ℕ };

    ghost view = { λ ids. ids_of ids.words };
}

impl PartialEq for CpuIds {
    ghost eq = { bytes_eq };

    ghost laws = { partial_equiv_from_equiv nat_list_eq_equiv };

    fn eq(&self, other: &CpuIds) -> bool {
        tell_words(&self.words);
        tell_words(&other.words);
        self.words == other.words
    }
}

impl CpuIds {
    /// No number.
    pub fn none() -> CpuIds
        ensures { result ≡ [] }
    {
        CpuIds { words: [0; 16] }
    }

    /// How many there are.
    pub fn len(&self) -> usize
        ensures value { result ≡ length self.now }
        ensures few { result ≤ 1024 }
    {
        tell_words(&self.words);
        let mut count = 0;
        for word in &self.words {
            count += word.count_ones() as usize;
        }
        count
    }

    /// Whether there is none.
    pub fn is_empty(&self) -> bool
        ensures { IsTrue result ↔ (self.now ≡ []) }
    {
        tell_words(&self.words);
        self.words == [0; 16]
    }

    /// Whether the number is among them.
    pub fn contains(&self, number: u32) -> bool
        ensures { result ≡ has_id self.now number }
    {
        number < 1024 && (self.words[(number / WORD) as usize] >> (number % WORD)) & 1 == 1
    }

    /// It does nothing: its contract tells what the type keeps of every row.
    pub fn tell_rising(&self)
        ensures rising { AllPairs (λ a b. a < b) self.now }
        ensures small { All (λ a. a < 1024) self.now }
    {
        let _words = &self.words;
    }

    /// Adds the number.
    pub fn insert(&mut self, number: u32)
        requires { number < 1024 }
        ensures added { (other : ℕ) → has_id self.new other ≡ (has_id self.old other || nat_eq number other) }
        ensures last { All (λ id. id < number) self.old → self.new ≡ self.old ++ number ∷ [] }
    {
        self.words[(number / WORD) as usize] |= 1 << (number % WORD);
    }

    /// Adds these numbers.
    pub fn insert_all(&mut self, more: &CpuIds)
        ensures { (number : ℕ) → has_id self.new number ≡ (has_id self.old number || has_id more.now number) }
    {
        for place in 0..16 {
            self.words[place] |= more.words[place];
        }
    }

    /// Drops these numbers.
    pub fn remove_all(&mut self, gone: &CpuIds)
        ensures { (number : ℕ) → has_id self.new number ≡ (has_id self.old number && not (has_id gone.now number)) }
    {
        tell_words(&gone.words);
        for place in 0..16 {
            self.words[place] &= !gone.words[place];
        }
    }

    /// The lowest numbers below a bound that aren't among them: so many, or all if there are fewer. Linear in the
    /// bound.
    pub fn lowest_others(&self, bound: u32, count: u32) -> CpuIds
        requires { bound ≤ 1024 }
        ensures lowest { result ≡ take count (others_below bound self.now) }
        ensures below { All (λ number. number < bound) result }
    {
        let mut lowest = CpuIds::none();
        let mut wanted = count;
        for number in 0..bound {
            if wanted > 0 && !self.contains(number) {
                lowest.insert(number);
                wanted -= 1;
            }
        }
        lowest
    }

    /// The numbers, from the least on. Linear in the bits.
    pub fn to_vec(&self, alloc: Global) -> Result<Vec<u32>, AllocError>
        ensures { IfOk result (λ numbers. numbers.items ≡ self.now) }
    {
        tell_words(&self.words);
        (0..1024)
            .filter(|number| self.contains(*number))
            .collect(alloc)
    }

    /// Equal numbers.
    pub fn copy(&self) -> CpuIds
        ensures { result ≡ self.now }
    {
        CpuIds { words: self.words }
    }
}
