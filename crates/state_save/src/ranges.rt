//! Processor numbers.

ghost use Rattle.std.specs.Prelude.{◌≡◌, ◌+◌, ◌-◌, ◌<◌, ◌≤◌, ◌++◌, Some, None, All, IfOk, IsErrOf};
ghost use Rattle.std.specs.List.{range_with_len};
ghost use Rattle.std.specs.Str.{byte};
ghost use Rattle.table_texts.specs.Ranges.{ranges_text};
ghost use Rattle.state_save.specs.Meanings.{run_in, is_run_from, rising_from, runs_in, cpus_in};
ghost use Rattle.state_save.specs.Fitting.{AreCpus};

use crate::numbers::read_u32;
use crate::word::Word;
use plain_data::CpuIds;
use plain_data::items::Items;
use small_texts::fields::{UpToThree, up_to_three};
use small_texts::memory_error::Memory;
use std::alloc::Global;
use table_texts::ranges::push_cpus;
use text_values::lists::{Grammar, read_parts};
use text_values::refusal::ValueRefusal;

/// A run of processor numbers, from its first to its last.
#[derive(Clone, Copy)]
pub struct Run {
    first: u32,
    last: u32,
}

// The grammar of a run, `a` or `a-b`.
#[derive(Clone, Copy)]
struct RunText;

#[tactic(auto, unfolding(crate::specs::Meanings::run_of))]
fn read_run(text: &[u8]) -> Option<Run>
    ensures { result ≡ run_in text.now }
{
    match up_to_three(text, b'-') {
        UpToThree::One(number) => {
            let number = read_u32(number)?;
            Some(Run {
                first: number,
                last: number,
            })
        }
        UpToThree::Two(first, last) => {
            let first = read_u32(first)?;
            let last = read_u32(last)?;
            Some(Run { first, last })
        }
        _ => None,
    }
}

impl Grammar for RunText {
    type Value = Run;

    ghost meaning = { run_in };

    fn read(_alloc: Global, text: &[u8]) -> Result<Run, ValueRefusal> {
        read_run(text).ok_or(ValueRefusal::BadValue)
    }
}

fn read_runs(alloc: Global, text: &[u8]) -> Result<Items<Run>, ValueRefusal>
    ensures value { IfOk result (λ runs. runs_in text.now ≡ Some runs) }
    ensures refused { IsErrOf result ValueRefusal.BadValue → runs_in text.now ≡ None }
{
    if text.is_empty() {
        return Ok(Items::from_vec(Vec::new(alloc)));
    }
    read_parts::<RunText>(alloc, text, b',')
}

// Whether the run goes up, from a number on.
fn is_run_from(least: u32, run: Run) -> bool
    ensures { result ≡ is_run_from least run }
{
    least <= run.first && run.first <= run.last && run.last < 1024
}

// Adds the numbers from the first to the last.
fn add_run(cpus: &mut CpuIds, first: u32, last: u32)
    requires { last < 1024 }
    ensures { All (λ number. number < first) cpus.old → first ≤ last
        → cpus.new ≡ cpus.old ++ range_with_len first (last + 1 - first) }
{
    for number in first..last + 1 {
        cpus.insert(number);
    }
}

// The numbers of runs that rise.
#[tactic(auto, using(crate::proofs::Rising::rising_steps))]
fn numbers_of(runs: &[Run]) -> Option<CpuIds>
    ensures { result ≡ rising_from 0 runs.now }
{
    let mut cpus = CpuIds::none();
    let mut least = 0;
    let mut rest = runs;
    while let Some((run, others)) = rest.split_first() {
        if !is_run_from(least, *run) {
            return None;
        }
        add_run(&mut cpus, run.first, run.last);
        least = run.last + 1;
        rest = others;
    }
    Some(cpus)
}

impl Word for CpuIds {
    ghost text = { ranges_text };

    ghost meaning = { cpus_in };

    ghost fits = { AreCpus };

    fn push_word(&self, out: &mut Vec<u8>) -> Result<(), Memory> {
        push_cpus(out, self)
    }

    fn read_word(alloc: Global, word: &[u8]) -> Result<CpuIds, ValueRefusal> {
        let runs = read_runs(alloc, word)?;
        numbers_of(runs.as_slice()).ok_or(ValueRefusal::BadValue)
    }

    #[tactic(auto, using(crate::proofs::Rising::cpus_sound))]
    fn tell_fits() {}
}
