//! The line of a job that scontrol(1) shows.

ghost use Rattle.std.specs.Prelude.{◌≡◌, ◌++◌, flat_map, OnOk};
ghost use Rattle.table_texts.specs.ShowJob.{reason_text, one_or_zero, end_text, part_text, later_part, parts_text, job_pairs, owner_pairs, state_pairs, start_pairs, length_pairs, time_pairs, place_pairs, held_pairs, job_line};

use crate::columns::{push_elapsed, push_limit, push_moment, reason_name, state_word};
use crate::dependency::push_dependency;
use crate::ranges::push_cpus;
use crate::sprio::push_nice_number;
use crate::values::{push_hosts_or_null, push_moment_or_null, push_number_or_null, push_pair};
use reply_data::view::{EndAt, JobRow, NamedPart};
use request_data::state::Reason;
use small_texts::memory_error::Memory;
use small_texts::pieces::{push_labelled, push_text};
use std::alloc::Global;

/// Writes the line of a job. Linear in the text, but for the names of its nodes, which are sorted, and for each of its
/// parts in the bits of a row of processors.
#[tactic(auto, unfolding(crate::specs::ShowJob::job_line))]
pub fn push_job_line(alloc: Global, out: &mut Vec<u8>, row: &JobRow) -> Result<(), Memory>
    ensures { OnOk result (out.new.items ≡ out.old.items ++ job_line row.now) }
{
    push_job_pairs(out, row)?;
    push_owner_pairs(out, row)?;
    push_state_pairs(out, row)?;
    push_start_pairs(out, row)?;
    push_length_pairs(out, row)?;
    push_time_pairs(out, row)?;
    push_place_pairs(alloc, out, row)?;
    push_held_pairs(out, row)?;
    push_text(out, b"\n")?;
    Ok(())
}

#[tactic(auto, unfolding(crate::specs::ShowJob::job_pairs))]
fn push_job_pairs(out: &mut Vec<u8>, row: &JobRow) -> Result<(), Memory>
    ensures { OnOk result (out.new.items ≡ out.old.items ++ job_pairs row.now) }
{
    push_labelled(out, b"JobId=", u64::from(row.id))?;
    push_pair(out, b" JobName=", row.name.as_bytes())?;
    push_number_or_null(out, b" ArrayJobId=", row.array)?;
    push_number_or_null(out, b" ArrayTaskId=", row.index)?;
    Ok(())
}

#[tactic(auto, unfolding(crate::specs::ShowJob::owner_pairs))]
fn push_owner_pairs(out: &mut Vec<u8>, row: &JobRow) -> Result<(), Memory>
    ensures { OnOk result (out.new.items ≡ out.old.items ++ owner_pairs row.now) }
{
    push_pair(out, b" UserId=", row.user.as_bytes())?;
    push_pair(out, b" Account=", row.account.as_bytes())?;
    push_pair(out, b" QOS=", row.qos.as_bytes())?;
    push_labelled(out, b" Priority=", u64::from(row.priority))?;
    push_text(out, b" Nice=")?;
    push_nice_number(out, row.nice)?;
    Ok(())
}

#[tactic(auto, unfolding(crate::specs::ShowJob::state_pairs))]
fn push_state_pairs(out: &mut Vec<u8>, row: &JobRow) -> Result<(), Memory>
    ensures { OnOk result (out.new.items ≡ out.old.items ++ state_pairs row.now) }
{
    push_pair(out, b" JobState=", state_word(row.state))?;
    push_pair(out, b" Reason=", reason_or_none(row.reason))?;
    push_text(out, b" Dependency=")?;
    push_dependency(out, &row.dependency)?;
    Ok(())
}

#[tactic(auto, unfolding(crate::specs::ShowJob::start_pairs))]
fn push_start_pairs(out: &mut Vec<u8>, row: &JobRow) -> Result<(), Memory>
    ensures { OnOk result (out.new.items ≡ out.old.items ++ start_pairs row.now) }
{
    push_pair(out, b" Requeue=", digit(row.requeue))?;
    push_labelled(out, b" Restarts=", u64::from(row.restarts))?;
    push_number_or_null(out, b" ExitCode=", row.exit)?;
    Ok(())
}

#[tactic(auto, unfolding(crate::specs::ShowJob::length_pairs))]
fn push_length_pairs(out: &mut Vec<u8>, row: &JobRow) -> Result<(), Memory>
    ensures { OnOk result (out.new.items ≡ out.old.items ++ length_pairs row.now) }
{
    push_text(out, b" RunTime=")?;
    push_elapsed(out, row.elapsed.get())?;
    push_text(out, b" TimeLimit=")?;
    push_limit(out, row.limit)?;
    Ok(())
}

#[tactic(auto, unfolding(crate::specs::ShowJob::time_pairs))]
fn push_time_pairs(out: &mut Vec<u8>, row: &JobRow) -> Result<(), Memory>
    ensures { OnOk result (out.new.items ≡ out.old.items ++ time_pairs row.now) }
{
    push_text(out, b" SubmitTime=")?;
    push_moment(out, row.submit)?;
    push_text(out, b" EligibleTime=")?;
    push_moment(out, row.eligible)?;
    push_text(out, b" StartTime=")?;
    push_moment_or_null(out, row.start)?;
    push_text(out, b" EndTime=")?;
    push_end(out, row.end)?;
    Ok(())
}

#[tactic(auto, unfolding(crate::specs::ShowJob::place_pairs))]
fn push_place_pairs(alloc: Global, out: &mut Vec<u8>, row: &JobRow) -> Result<(), Memory>
    ensures { OnOk result (out.new.items ≡ out.old.items ++ place_pairs row.now) }
{
    push_pair(out, b" Partition=", row.partition.as_bytes())?;
    push_text(out, b" NodeList=")?;
    push_hosts_or_null(alloc, out, row.node_names.as_slice())?;
    Ok(())
}

#[tactic(auto, unfolding(crate::specs::ShowJob::held_pairs))]
fn push_held_pairs(out: &mut Vec<u8>, row: &JobRow) -> Result<(), Memory>
    ensures { OnOk result (out.new.items ≡ out.old.items ++ held_pairs row.now) }
{
    push_labelled(out, b" NumNodes=", row.nodes)?;
    push_labelled(out, b" NumCPUs=", row.cpus)?;
    push_labelled(out, b" NumTasks=", row.tasks)?;
    push_text(out, b" Alloc=")?;
    push_parts(out, row.parts.as_slice())?;
    Ok(())
}

fn reason_or_none(reason: Option<Reason>) -> &'static [u8]
    ensures { result.now ≡ reason_text reason }
{
    match reason {
        Some(reason) => reason_name(reason),
        None => b"None",
    }
}

fn digit(holds: bool) -> &'static [u8]
    ensures { result.now ≡ one_or_zero holds }
{
    if holds { b"1" } else { b"0" }
}

fn push_end(out: &mut Vec<u8>, end: EndAt) -> Result<(), Memory>
    ensures { OnOk result (out.new.items ≡ out.old.items ++ end_text end) }
{
    match end {
        EndAt::Nothing => push_text(out, b"(null)"),
        EndAt::Unknown => push_text(out, b"Unknown"),
        EndAt::At(second) => push_moment(out, second),
    }
}

#[tactic(auto, unfolding(crate::specs::ShowJob::parts_text))]
fn push_parts(out: &mut Vec<u8>, parts: &[NamedPart]) -> Result<(), Memory>
    ensures { OnOk result (out.new.items ≡ out.old.items ++ parts_text parts.now) }
{
    let Some((first, others)) = parts.split_first() else {
        return push_text(out, b"(null)");
    };
    push_part(out, first)?;
    push_later_parts(out, others)
}

fn push_later_parts(out: &mut Vec<u8>, parts: &[NamedPart]) -> Result<(), Memory>
    ensures { OnOk result (out.new.items ≡ out.old.items ++ flat_map later_part parts.now) }
{
    for part in parts {
        push_text(out, b";")?;
        push_part(out, part)?;
    }
    Ok(())
}

fn push_part(out: &mut Vec<u8>, part: &NamedPart) -> Result<(), Memory>
    ensures { OnOk result (out.new.items ≡ out.old.items ++ part_text part.now) }
{
    push_text(out, part.node.as_bytes())?;
    push_text(out, b":")?;
    push_cpus(out, &part.cpus)?;
    push_labelled(out, b":", part.mem)
}
