//! The names that were found of a text, each once.

ghost use Rattle.std.specs.Prelude.{◌≡◌, ◌++◌, IsTrue, OnOk, take, replicate, fold};
ghost use Rattle.small_texts.specs.Name.{is_name};
ghost use Rattle.indexmap.specs.declared.set.IndexSet.{IndexSet};
ghost use Rattle.host_lists.specs.Hosts.{padded, with_name};
ghost use Rattle.host_lists.specs.Found.{IsFound, AreNamed, names_of};

use crate::runs::Run;
use indexmap::IndexSet;
use itoa::Buffer;
use small_texts::memory_error::Memory;
use small_texts::name::{Name, NameRefusal};
use std::alloc::{AllocError, Global};
use std::collections::HashMap;

/// How many numbers a row has.
pub(crate) const ROW: u64 = 32;

/// A row of numbers behind a prefix, each written in at least so many digits.
#[derive(Clone, Copy, PartialEq, Eq, Hash)]
pub(crate) struct Row<'a> {
    pub(crate) prefix: &'a [u8],
    pub(crate) width: usize,
    /// How many rows are before it.
    pub(crate) place: u64,
}

/// Names, each once, in the order in which they were found.
#[derive(Drop)]
pub(crate) struct Found<'a> {
    pub(crate) names: IndexSet<Name>,
    // Of each row that was looked at, numbers whose names were found.
    known: HashMap<Row<'a>, Run>,
}

fn push_zeros(text: &mut Vec<u8>, count: usize) -> Result<(), AllocError>
    ensures { OnOk result (text.new.items ≡ text.old.items ++ replicate count 48) }
{
    for _ in 0..count {
        text.push(b'0')?;
    }
    Ok(())
}

fn push_padded(text: &mut Vec<u8>, width: usize, number: u64) -> Result<(), AllocError>
    ensures { OnOk result (text.new.items ≡ text.old.items ++ padded width number) }
{
    let mut buffer = Buffer::new();
    let digits = buffer.format(number).as_bytes();
    push_zeros(text, width.saturating_sub(digits.len()))?;
    text.extend_from_slice(digits)
}

// Puts a name behind the others, unless it is among them.
fn add_name(names: &mut IndexSet<Name>, alloc: Global, text: &[u8]) -> Result<(), Memory>
    requires { IsTrue (is_name text.now) }
    ensures { OnOk result (names.new.keys ≡ with_name names.old.keys text.now) }
{
    match Name::read(alloc, text) {
        Ok(name) => {
            names.insert(name)?;
            Ok(())
        }
        Err(NameRefusal::BadName) => unreachable!(),
        Err(NameRefusal::Memory) => Err(Memory),
    }
}

// Has the text go on with a number behind its first bytes, so many.
fn put_number(text: &mut Vec<u8>, len: usize, width: usize, number: u64) -> Result<(), AllocError>
    ensures { OnOk result (text.new.items ≡ take len text.old.items ++ padded width number) }
{
    text.truncate(len);
    push_padded(text, width, number)
}

// Puts the names of a row's run of numbers behind the others, where those of the known ones are among them.
fn add_numbers(
    names: &mut IndexSet<Name>,
    alloc: Global,
    row: &Row,
    run: Run,
    known: Run,
) -> Result<(), Memory>
    requires named { AreNamed row.now run }
    requires known { IsFound row.now known names.old.keys }
    ensures { OnOk result (names.new.keys ≡ fold with_name names.old.keys (names_of row.now run)) }
{
    let mut text = Vec::from_slice(alloc, row.prefix)?;
    for number in run.first..run.end {
        if !known.has(number) {
            put_number(&mut text, row.prefix.len(), row.width, number)?;
            add_name(names, alloc, text.as_slice())?;
        }
    }
    Ok(())
}

impl<'a> Found<'a> {
    ghost use Rattle.std.specs.Prelude.{◌≡◌, [], IsTrue, OnOk, fold};
    ghost use Rattle.small_texts.specs.Name.{is_name};
    ghost use Rattle.host_lists.specs.Hosts.{with_name};
    ghost use Rattle.host_lists.specs.Found.{AreFound, AreNamed, names_of};

    pub(crate) fn new(alloc: Global) -> Found<'a>
        ensures none { result.names.keys ≡ [] }
        ensures found { AreFound result }
    {
        Found {
            names: IndexSet::new(alloc),
            known: HashMap::new(alloc),
        }
    }

    /// Puts a name behind the others, unless it is among them.
    pub(crate) fn add(&mut self, alloc: Global, text: &[u8]) -> Result<(), Memory>
        requires found { AreFound self.old }
        requires named { IsTrue (is_name text.now) }
        ensures found { OnOk result (AreFound self.new) }
        ensures names { OnOk result (self.new.names.keys ≡ with_name self.old.names.keys text.now) }
    {
        add_name(&mut self.names, alloc, text)
    }

    /// Puts the names of a row's run of numbers behind the others.
    pub(crate) fn add_run(&mut self, alloc: Global, row: &Row<'a>, run: Run) -> Result<(), Memory>
        requires found { AreFound self.old }
        requires named { AreNamed row.now run }
        ensures found { OnOk result (AreFound self.new) }
        ensures names { OnOk result (self.new.names.keys ≡ fold with_name self.old.names.keys (names_of row.now run)) }
    {
        let known = self
            .known
            .get(row)
            .copied()
            .unwrap_or(Run { first: 0, end: 0 });
        if known.covers(run) {
            return Ok(());
        }
        add_numbers(&mut self.names, alloc, row, run, known)?;
        self.known.insert(*row, known.joined(run))?;
        Ok(())
    }
}
