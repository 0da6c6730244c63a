//! Processor numbers.

ghost use Rattle.std.specs.Prelude.{◌≡◌, ◌==◌, ◌+◌, ◌++◌, OnOk};
ghost use Rattle.table_texts.specs.Ranges.{run_text, ranges_text};

use plain_data::CpuIds;
use small_texts::memory_error::Memory;
use small_texts::pieces::{push_labelled, push_number, push_text};

/// Writes processor numbers. Linear in the bits of their row.
pub fn push_cpus(out: &mut Vec<u8>, cpus: &CpuIds) -> Result<(), Memory>
    ensures { OnOk result (out.new.items ≡ out.old.items ++ ranges_text cpus.now) }
{
    let numbers = cpus.to_vec(*out.allocator())?;
    push_ranges(out, numbers.as_slice())
}

/// Writes numbers that rise, neighbours as `a-b`, with commas between the runs.
pub fn push_ranges(out: &mut Vec<u8>, numbers: &[u32]) -> Result<(), Memory>
    ensures { OnOk result (out.new.items ≡ out.old.items ++ ranges_text numbers.now) }
{
    let Some((first, others)) = numbers.split_first() else {
        return Ok(());
    };
    let mut first = *first;
    let mut last = first;
    for number in others {
        if !is_next(last, *number) {
            push_run(out, first, last)?;
            push_text(out, b",")?;
            first = *number;
        }
        last = *number;
    }
    push_run(out, first, last)
}

#[tactic(auto, unfolding(crate::specs::Ranges::run_text))]
fn push_run(out: &mut Vec<u8>, first: u32, last: u32) -> Result<(), Memory>
    ensures { OnOk result (out.new.items ≡ out.old.items ++ run_text first last) }
{
    push_number(out, u64::from(first))?;
    if first != last {
        push_labelled(out, b"-", u64::from(last))?;
    }
    Ok(())
}

fn is_next(last: u32, number: u32) -> bool
    ensures { result ≡ (number == last + 1) }
{
    u64::from(number) == u64::from(last) + 1
}
