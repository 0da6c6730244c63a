// A shelf in memory, for tests.
ghost use Rattle.std.specs.Prelude.{◌≡◌, ◌⊎◌, ◌↔◌, ◌≤◌, length, drop, map, Contains, IfOk, OnOk, OnErr, IsErr, IsNone, IfSome, IsSomeAnd, find, Some, None, option_copied};
ghost use Rattle.slurm_io.specs.Faults.{CountsFault, next_count};
ghost use Rattle.slurm_io.specs.MemShelf.{MemShelfState, told_file, given_count, after_read_at, after_read_at_fault};
ghost use Rattle.slurm_io.specs.Shelf.{ReadsFile, KeepsRest, is_named, bytes_named};

use crate::copy::copy_front;
use crate::{Failed, Shelf};
use std::marker::Model;

/// A shelf in memory (own): it has the files that it was made with, of two with one name the first alone, and fails at
/// the reads whose numbers it was made with. Reads are numbered from 1.
#[derive(Drop)]
pub struct MemShelf {
    files: Vec<(String, Vec<u8>)>,
    failing: Vec<u64>,
    reads: u64,
    faults: u64,
}

impl Model for MemShelf {
    ghost Value = { MemShelfState };

    ghost view = { λ shelf. record {
      files = map told_file shelf.files.items;
      failing = shelf.failing.items;
      reads = shelf.reads;
      faults = shelf.faults;
    } };
}

impl MemShelf {
    /// A shelf with these files, names before bytes.
    pub fn new(files: Vec<(String, Vec<u8>)>, failing: Vec<u64>) -> MemShelf
        ensures { result ≡ record {
          files = map told_file files.items;
          failing = failing.items;
          reads = 0;
          faults = 0;
        } }
    {
        MemShelf {
            files,
            failing,
            reads: 0,
            faults: 0,
        }
    }

    /// How many reads failed, up to the greatest `u64`.
    pub fn faults(&self) -> u64
        ensures { result ≡ self.now.faults }
    {
        self.faults
    }
}

// The first file of this name. Linear in the files.
fn file_named<'a>(files: &'a [(String, Vec<u8>)], name: &str) -> Option<&'a (String, Vec<u8>)>
    ensures { option_copied result ≡ find (λ file. is_named name.now (told_file file)) files.now }
{
    files.iter().find(|file| file.0.as_str() == name)
}

// The bytes of the first file of this name.
fn bytes_named<'a>(files: &'a [(String, Vec<u8>)], name: &str) -> Option<&'a [u8]>
    ensures { option_copied result ≡ bytes_named (map told_file files.now) name.now }
{
    match file_named(files, name) {
        Some((_, bytes)) => Some(bytes.as_slice()),
        None => None,
    }
}

// The bytes that the read of this number reads: none where it is to fail, or there is no such file.
fn bytes_for<'a>(
    files: &'a [(String, Vec<u8>)],
    failing: &[u64],
    number: u64,
    name: &str,
) -> Option<&'a [u8]>
    ensures none { IsNone result ↔ (Contains failing.now number
        ⊎ (bytes_named (map told_file files.now) name.now ≡ None)) }
    ensures some { IfSome result (λ bytes. bytes_named (map told_file files.now) name.now ≡ Some bytes.now) }
{
    if failing.contains(&number) {
        return None;
    }
    bytes_named(files, name)
}

// What the bytes hold from the offset on.
fn rest_from(bytes: &[u8], offset: u64) -> &[u8]
    ensures { result.now ≡ drop offset bytes.now }
{
    let start = offset.min(bytes.len() as u64) as usize;
    bytes.split_at(start).1
}

impl Shelf for MemShelf {
    ghost files = { λ shelf. Some shelf.files };

    ghost shelf_faults = { λ shelf. shelf.faults };

    fn read_at(&mut self, name: &str, offset: u64, into: &mut [u8]) -> Result<usize, Failed>
        ensures bound { IfOk result (λ n. n ≤ length into.new) }
        ensures bytes { ReadsFile (Some self.old.files) name.now offset result into.new }
        ensures rest { KeepsRest into.old into.new result }
        ensures faults { CountsFault self.old.faults self.new.faults result }
        ensures kept { Some self.new.files ≡ Some self.old.files }

        // It fails exactly where its number says so or there is no such file.
        ensures fails { IsErr result ↔ (Contains self.old.failing (next_count self.old.reads)
            ⊎ (bytes_named self.old.files name.now ≡ None)) }
        ensures given { IfOk result (λ n. IsSomeAnd (bytes_named self.old.files name.now)
            (λ file. n ≡ given_count file offset (length into.old))) }
        ensures ok { OnOk result (self.new ≡ after_read_at self.old) }
        ensures err { OnErr result (self.new ≡ after_read_at_fault self.old) }
    {
        self.reads = self.reads.saturating_add(1);
        match bytes_for(&self.files, &self.failing, self.reads, name) {
            Some(bytes) => Ok(copy_front(rest_from(bytes, offset), into)),
            None => {
                self.faults = self.faults.saturating_add(1);
                Err(Failed)
            }
        }
    }
}
