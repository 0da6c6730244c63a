//! The summary of a replay.

ghost use Rattle.std.specs.Prelude.{◌≡◌, ◌++◌, OnOk};
ghost use Rattle.replay_texts.specs.Summaries.{all_sums_text, capacity_of, counts_text, hour_line, hour_lines, hour_start, hour_table, hours_text, reach_line, reach_text, seconds_of, summary_text, sums_text, tables_text};

use crate::cells::{push_label, push_number_cell};
use crate::groups::{push_groups, push_sums, push_titles, push_use};
use itoa::Buffer;
use replay_report::{Counts, Reach, Summary, Sums};
use small_texts::memory_error::Memory;
use small_texts::pieces::push_text;
use std::alloc::Global;

/// The seconds of an hour.
const HOUR: u64 = 3600;

/// A replay, how many processors its cluster has, and how many passes were made in it (own).
#[derive(Debug, Drop)]
pub struct Worked {
    pub processors: u64,
    pub passes: u64,
    pub summary: Summary,
}

/// For how many seconds a replay goes on.
pub(crate) fn seconds_of(reach: Option<Reach>) -> u64
    ensures { result ≡ seconds_of reach }
{
    match reach {
        Some(reach) => reach.last.saturating_sub(reach.first),
        None => 0,
    }
}

/// The processor-seconds that a cluster has in so many seconds.
pub(crate) fn capacity_of(processors: u64, seconds: u64) -> u64
    ensures { result ≡ capacity_of processors seconds }
{
    processors.saturating_mul(seconds)
}

#[tactic(auto, unfolding(crate::specs::Summaries::counts_text))]
fn push_counts(out: &mut Vec<u8>, counts: Counts) -> Result<(), Memory>
    ensures { OnOk result (out.new.items ≡ out.old.items ++ counts_text counts) }
{
    push_text(
        out,
        b"FATE                          RAN      WAITING    FORGOTTEN      REFUSED     LEFT_OUT\n",
    )?;
    push_label(out, b"all")?;
    push_number_cell(out, counts.ran)?;
    push_number_cell(out, counts.waits)?;
    push_number_cell(out, counts.forgotten)?;
    push_number_cell(out, counts.refused)?;
    push_number_cell(out, counts.left_out)?;
    push_text(out, b"\n")?;
    Ok(())
}

fn push_reach_line(
    out: &mut Vec<u8>,
    processors: u64,
    passes: u64,
    reach: Reach,
) -> Result<(), Memory>
    ensures { OnOk result (out.new.items ≡ out.old.items ++ reach_line processors passes reach) }
{
    push_text(
        out,
        b"\nTIME                        FIRST         LAST      SECONDS   PROCESSORS       PASSES\n",
    )?;
    push_label(out, b"all")?;
    push_number_cell(out, reach.first)?;
    push_number_cell(out, reach.last)?;
    push_number_cell(out, seconds_of(Some(reach)))?;
    push_number_cell(out, processors)?;
    push_number_cell(out, passes)?;
    push_text(out, b"\n")?;
    Ok(())
}

fn push_reach(
    out: &mut Vec<u8>,
    processors: u64,
    passes: u64,
    reach: Option<Reach>,
) -> Result<(), Memory>
    ensures { OnOk result (out.new.items ≡ out.old.items ++ reach_text processors passes reach) }
{
    match reach {
        Some(reach) => push_reach_line(out, processors, passes, reach),
        None => Ok(()),
    }
}

#[tactic(auto, unfolding(crate::specs::Summaries::sums_text))]
fn push_all_sums(alloc: Global, out: &mut Vec<u8>, capacity: u64, sums: Sums) -> Result<(), Memory>
    ensures { OnOk result (out.new.items ≡ out.old.items ++ sums_text capacity sums) }
{
    push_text(out, b"\n")?;
    push_titles(out, b"JOBS")?;
    push_label(out, b"all")?;
    push_sums(alloc, out, capacity, sums)?;
    Ok(())
}

// Writes the line of an hour that begins then.
#[tactic(auto, unfolding(crate::specs::Summaries::hour_line))]
fn push_hour(
    alloc: Global,
    out: &mut Vec<u8>,
    capacity: u64,
    hour: u64,
    start: u64,
    used: u64,
) -> Result<(), Memory>
    ensures { OnOk result (out.new.items ≡ out.old.items ++ hour_line capacity hour start used) }
{
    let mut buffer = Buffer::new();
    push_label(out, buffer.format(hour).as_bytes())?;
    push_number_cell(out, start)?;
    push_use(alloc, out, capacity, used)?;
    push_text(out, b"\n")?;
    Ok(())
}

// The second at which an hour begins.
fn hour_start(first: u64, hour: u64) -> u64
    ensures { result ≡ hour_start first hour }
{
    first.saturating_add(HOUR.saturating_mul(hour))
}

fn push_hour_lines(
    alloc: Global,
    out: &mut Vec<u8>,
    capacity: u64,
    first: u64,
    hours: &[u64],
) -> Result<(), Memory>
    ensures { OnOk result (out.new.items ≡ out.old.items ++ hour_lines capacity first 0 hours.now) }
{
    for (place, used) in hours.iter().enumerate() {
        let hour = place as u64;
        let start = hour_start(first, hour);
        push_hour(alloc, out, capacity, hour, start, *used)?;
    }
    Ok(())
}

#[tactic(auto, unfolding(crate::specs::Summaries::hour_table))]
fn push_hour_table(
    alloc: Global,
    out: &mut Vec<u8>,
    capacity: u64,
    first: u64,
    hours: &[u64],
) -> Result<(), Memory>
    ensures { OnOk result (out.new.items ≡ out.old.items ++ hour_table capacity first hours.now) }
{
    push_text(
        out,
        b"\nHOUR                        START  CPU_SECONDS          USE\n",
    )?;
    push_hour_lines(alloc, out, capacity, first, hours)
}

fn push_hours(
    alloc: Global,
    out: &mut Vec<u8>,
    processors: u64,
    reach: Option<Reach>,
    hours: &[u64],
) -> Result<(), Memory>
    ensures { OnOk result (out.new.items ≡ out.old.items ++ hours_text processors reach hours.now) }
{
    match reach {
        Some(reach) => {
            let capacity = capacity_of(processors, HOUR);
            push_hour_table(alloc, out, capacity, reach.first, hours)
        }
        None => Ok(()),
    }
}

#[tactic(auto, unfolding(crate::specs::Summaries::tables_text))]
fn push_tables(
    alloc: Global,
    out: &mut Vec<u8>,
    capacity: u64,
    summary: &Summary,
) -> Result<(), Memory>
    ensures { OnOk result (out.new.items ≡ out.old.items ++ tables_text capacity summary.now) }
{
    push_groups(
        alloc,
        out,
        b"ACCOUNT",
        capacity,
        summary.accounts.as_slice(),
    )?;
    push_groups(
        alloc,
        out,
        b"PARTITION",
        capacity,
        summary.partitions.as_slice(),
    )?;
    push_groups(alloc, out, b"QOS", capacity, summary.qos.as_slice())?;
    Ok(())
}

// Writes the sums over all jobs, and those by group.
#[tactic(auto, unfolding(crate::specs::Summaries::all_sums_text))]
fn push_sum_tables(
    alloc: Global,
    out: &mut Vec<u8>,
    processors: u64,
    summary: &Summary,
) -> Result<(), Memory>
    ensures { OnOk result (out.new.items ≡ out.old.items ++ all_sums_text processors summary.now) }
{
    let capacity = capacity_of(processors, seconds_of(summary.reach));
    push_all_sums(alloc, out, capacity, summary.sums)?;
    push_tables(alloc, out, capacity, summary)?;
    Ok(())
}

/// Writes the summary of a replay: how many jobs had which fate, from when to when it went and in how many passes, the sums
/// over all jobs and by account, partition and quality of service, and the use by hour. An hour counts as a whole one, also
/// the last.
#[tactic(auto, unfolding(crate::specs::Summaries::summary_text))]
pub fn push_summary(alloc: Global, out: &mut Vec<u8>, worked: &Worked) -> Result<(), Memory>
    ensures { OnOk result (out.new.items ≡ out.old.items ++ summary_text worked.now) }
{
    let summary = &worked.summary;
    push_counts(out, summary.counts)?;
    push_reach(out, worked.processors, worked.passes, summary.reach)?;
    push_sum_tables(alloc, out, worked.processors, summary)?;
    push_hours(
        alloc,
        out,
        worked.processors,
        summary.reach,
        summary.hours.as_slice(),
    )?;
    Ok(())
}
