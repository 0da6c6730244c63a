//! Processor numbers, as they are read.

ghost use Rattle.std.specs.Prelude.{◌≡◌, ◌<◌, ◌≤◌, ◌+◌, ◌-◌, ◌++◌, ℕ, [], List, All, length, IfOk, IfSome, IsSomeAnd, true};
ghost use Rattle.std.specs.List.{range_with_len};
ghost use Rattle.std.specs.Str.{byte};
ghost use Rattle.table_texts.specs.Ranges.{ranges_text, run_text};
ghost use Rattle.orders_text.specs.Fields.{AreCpus, IsCut, lacks};

use crate::fields::{cut, read_number};
use plain_data::CpuIds;
use small_texts::memory_error::Memory;
use std::alloc::Global;
use table_texts::ranges::push_cpus;

const GREATEST_CPU: u64 = 1023;

// The ends of a run, `a-b`; a number alone is both.
fn ends_of(text: &[u8]) -> (&[u8], &[u8])
    ensures cut { (front back : List ℕ) → IsCut text.now (byte "-") front back
        → (result.0.now ≡ front) × (result.1.now ≡ back) }
    ensures whole { lacks (byte "-") text.now ≡ true → (result.0.now ≡ text.now) × (result.1.now ≡ text.now) }
{
    match cut(text, b'-') {
        Some(ends) => ends,
        None => (text, text),
    }
}

// The first and the last number of `a` or `a-b`.
fn read_run(text: &[u8]) -> Option<(u32, u32)>
    ensures small { IfSome result (λ run. run.1 < 1024) }
    ensures only { (first last : ℕ) → first ≤ last → last < 1024 → run_text first last ≡ text.now
        → IsSomeAnd result (λ run. (run.0 ≡ first) × (run.1 ≡ last)) }
{
    let (first, last) = ends_of(text);
    let first = read_number(first, GREATEST_CPU)?;
    let last = read_number(last, GREATEST_CPU)?;
    Some((first as u32, last as u32))
}

// Adds the numbers from the first to the last.
fn add_run(cpus: &mut CpuIds, first: u32, last: u32)
    requires { last < 1024 }
    ensures { All (λ number. number < first) cpus.old → first ≤ last
        → cpus.new ≡ cpus.old ++ range_with_len first (last + 1 - first) }
{
    for number in first..last + 1 {
        cpus.insert(number);
    }
}

// The first run of a text, and what follows its comma.
fn first_run(text: &[u8]) -> (&[u8], &[u8])
    ensures cut { (front back : List ℕ) → IsCut text.now (byte ",") front back
        → (result.0.now ≡ front) × (result.1.now ≡ back) }
    ensures whole { lacks (byte ",") text.now ≡ true → (result.0.now ≡ text.now) × (result.1.now ≡ []) }
    ensures shorter { 0 < length text.now → length result.1.now < length text.now }
{
    match cut(text, b',') {
        Some(parts) => parts,
        None => text.split_at(text.len()),
    }
}

// The numbers of which a text's runs are, if they are written as they are printed.
fn read_runs(text: &[u8]) -> Option<CpuIds>
    ensures { (cpus : List ℕ) → AreCpus cpus → ranges_text cpus ≡ text.now → IsSomeAnd result (λ read. read ≡ cpus) }
{
    let mut cpus = CpuIds::none();
    let mut rest = text;
    while !rest.is_empty() {
        let (run, behind) = first_run(rest);
        let (first, last) = read_run(run)?;
        add_run(&mut cpus, first, last);
        rest = behind;
    }
    Some(cpus)
}

/// The processor numbers that are printed so, `0-3,6`; other ways to write them are refused, by printing them again.
/// Linear in the text and in the bits of their row.
pub(crate) fn read_cpus(alloc: Global, text: &[u8]) -> Result<Option<CpuIds>, Memory>
    ensures some { IfOk result (λ read. IfSome read (λ cpus. AreCpus cpus × (ranges_text cpus ≡ text.now))) }
    ensures only { (cpus : List ℕ) → AreCpus cpus → ranges_text cpus ≡ text.now
        → IfOk result (λ read. IsSomeAnd read (λ same. same ≡ cpus)) }
{
    let Some(cpus) = read_runs(text) else {
        return Ok(None);
    };
    cpus.tell_rising();
    let mut printed = Vec::new(alloc);
    push_cpus(&mut printed, &cpus)?;
    if printed.as_slice() == text {
        Ok(Some(cpus))
    } else {
        Ok(None)
    }
}
