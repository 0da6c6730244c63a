//! A line for each job, with commas between its fields.

ghost use Rattle.std.specs.Prelude.{◌≡◌, ◌++◌, OnOk, flat_map};
ghost use Rattle.replay_texts.specs.Csv.{csv_line, csv_text, real_text};

use crate::fates::push_fate;
use crate::values::{push_id, push_known, push_name};
use replay_report::JobOutcome;
use small_texts::memory_error::Memory;
use small_texts::pieces::push_text;

// Writes what the trace tells of a job.
fn push_real(out: &mut Vec<u8>, outcome: &JobOutcome) -> Result<(), Memory>
    ensures { OnOk result (out.new.items ≡ out.old.items ++ real_text outcome.now) }
{
    push_id(out, outcome.id)?;
    push_name(out, &outcome.names.user)?;
    push_known(out, outcome.times.submit)?;
    push_known(out, outcome.times.start)?;
    push_known(out, outcome.times.end)?;
    Ok(())
}

#[tactic(auto, unfolding(crate::specs::Csv::csv_line))]
fn push_line(out: &mut Vec<u8>, outcome: &JobOutcome) -> Result<(), Memory>
    ensures { OnOk result (out.new.items ≡ out.old.items ++ csv_line outcome.now) }
{
    push_real(out, outcome)?;
    push_fate(out, outcome.times.submit, &outcome.fate)?;
    push_text(out, b"\n")
}

fn push_lines(out: &mut Vec<u8>, outcomes: &[JobOutcome]) -> Result<(), Memory>
    ensures { OnOk result (out.new.items ≡ out.old.items ++ flat_map csv_line outcomes.now) }
{
    for outcome in outcomes {
        push_line(out, outcome)?;
    }
    Ok(())
}

/// Writes the line of the columns, and a line for each job. Linear in the jobs.
pub fn push_csv(out: &mut Vec<u8>, outcomes: &[JobOutcome]) -> Result<(), Memory>
    ensures { OnOk result (out.new.items ≡ out.old.items ++ csv_text outcomes.now) }
{
    push_text(
        out,
        b"JOB,USER,SUBMIT,REAL_START,REAL_END,START,END,WAIT,NODES,STATE\n",
    )?;
    push_lines(out, outcomes)
}
