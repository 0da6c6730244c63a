//! The tasks of an array of jobs.

ghost use Rattle.std.specs.Prelude.{◌≡◌, ◌≤◌, ◌<◌, length, All, AllPairs, IfOk, bytes_eq};
ghost use Rattle.std.specs.Cmp.{partial_equiv_from_equiv};
ghost use Rattle.std.specs.Cmp.Lexicographic.{nat_list_eq_equiv};

use crate::Plain;
use crate::ranged::Ranged;
use small_texts::memory_error::Memory;
use std::marker::Model;
use std::slice;

/// Indices of tasks. A contract sees them as a list that rises, of 1 to 10,001 numbers of at most five digits (own).
#[derive(Debug, Drop)]
pub struct Indices {
    numbers: Vec<u32>,
}

impl Model for Indices {
    ghost use Rattle.std.specs.Prelude.{ℕ, List, ◌<◌, ◌≤◌, length, All, AllPairs};

    ghost Value = { List ℕ };

    ghost view = { λ indices. indices.numbers.items };

    ghost invariant = { λ indices. AllPairs (λ one other. one < other) indices.numbers.items
        × All (λ index. index ≤ 99999) indices.numbers.items
        × (1 ≤ length indices.numbers.items) × (length indices.numbers.items ≤ 10001) };
}

impl PartialEq for Indices {
    ghost eq = { bytes_eq };

    ghost laws = { partial_equiv_from_equiv nat_list_eq_equiv };

    fn eq(&self, other: &Indices) -> bool {
        self.numbers == other.numbers
    }
}

impl Indices {
    ghost use Rattle.std.specs.Slice.Iter.{iter_rest};

    /// These indices. It takes no memory.
    pub fn from_vec(numbers: Vec<u32>) -> Indices
        requires rising { AllPairs (λ one other. one < other) numbers.items }
        requires small { All (λ index. index ≤ 99999) numbers.items }
        requires some { 1 ≤ length numbers.items }
        requires few { length numbers.items ≤ 10001 }
        ensures { result ≡ numbers.items }
    {
        Indices { numbers }
    }

    /// How many there are.
    pub fn count(&self) -> u32
        ensures value { result ≡ length self.now }
        ensures some { 1 ≤ length self.now }
        ensures few { length self.now ≤ 10001 }
    {
        self.numbers.len() as u32
    }

    /// The indices, from the least on.
    pub fn iter(&self) -> slice::Iter<'_, u32>
        ensures value { iter_rest result ≡ self.now }
        ensures rising { AllPairs (λ one other. one < other) self.now }
        ensures small { All (λ index. index ≤ 99999) self.now }
    {
        self.numbers.iter()
    }

    /// Equal indices.
    pub fn copy(&self) -> Result<Indices, Memory>
        ensures { IfOk result (λ indices. indices ≡ self.now) }
    {
        let numbers = Vec::from_slice(*self.numbers.allocator(), self.numbers.as_slice())?;
        Ok(Indices { numbers })
    }
}

/// Which tasks an array has. `--array` in sbatch(1).
#[derive(PartialEq, Debug, Drop)]
pub struct ArraySpec {
    pub indices: Indices,
    /// How many of its tasks hold processors at once, at most: the number after `%`.
    pub most: Option<Ranged<1, 4294967295>>,
}

impl ArraySpec {
    /// An equal array.
    pub fn copy(&self) -> Result<ArraySpec, Memory>
        ensures { IfOk result (λ array. array ≡ self.now) }
    {
        Ok(ArraySpec {
            indices: self.indices.copy()?,
            most: self.most,
        })
    }
}

impl Plain for ArraySpec {
    fn copy(&self) -> Result<ArraySpec, Memory> {
        self.copy()
    }
}
