//! The text of a refusal.

ghost use Rattle.std.specs.Prelude.{◌≡◌, ◌++◌, OnOk};
ghost use Rattle.slurm_print.specs.Refusal.{refusal_line, refusal_name, refusal_number, refusal_details, which_name};

use reply_data::refusal::{Refusal, Which};
use small_texts::memory_error::Memory;
use small_texts::pieces::{push_labelled, push_text};

/// Writes the line of a refusal, which begins with the command.
pub(crate) fn push_refusal(
    out: &mut Vec<u8>,
    command: &[u8],
    refusal: &Refusal,
) -> Result<(), Memory>
    ensures { OnOk result (out.new.items ≡ out.old.items ++ refusal_line command.now refusal.now) }
{
    push_text(out, command)?;
    push_text(out, b": error: ")?;
    push_text(out, name(refusal))?;
    push_labelled(out, b" (", number(refusal))?;
    push_text(out, b")")?;
    push_details(out, refusal)?;
    push_text(out, b"\n")?;
    Ok(())
}

fn name(refusal: &Refusal) -> &'static [u8]
    ensures { result.now ≡ refusal_name refusal.now }
{
    match refusal {
        Refusal::PartitionClosed => b"PartitionClosed",
        Refusal::InvalidAccount => b"InvalidAccount",
        Refusal::InvalidPartition => b"InvalidPartition",
        Refusal::InvalidQos => b"InvalidQos",
        Refusal::NodesNotAvailable => b"NodesNotAvailable",
        Refusal::NotAllowedHere => b"NotAllowedHere",
        Refusal::SubmitLimit { .. } => b"SubmitLimit",
        Refusal::JobTableFull => b"JobTableFull",
        Refusal::ArrayTooLarge => b"ArrayTooLarge",
        Refusal::InvalidJobId => b"InvalidJobId",
        Refusal::AccessDenied => b"AccessDenied",
        Refusal::AlreadyDone => b"AlreadyDone",
        Refusal::BadDependency => b"BadDependency",
        Refusal::InvalidReservation => b"InvalidReservation",
        Refusal::ReservationOverlap => b"ReservationOverlap",
        Refusal::UnknownNode => b"UnknownNode",
        Refusal::StaleReport { .. } => b"StaleReport",
        Refusal::HistoryFull => b"HistoryFull",
        Refusal::JobIdsSpent => b"JobIdsSpent",
        Refusal::MomentTooLarge => b"MomentTooLarge",
        Refusal::WrongState => b"WrongState",
        Refusal::ShuttingDown => b"ShuttingDown",
        Refusal::NotRequeueable => b"NotRequeueable",
        Refusal::CannotShrink { .. } => b"CannotShrink",
    }
}

fn number(refusal: &Refusal) -> u64
    ensures { result ≡ refusal_number refusal.now }
{
    match refusal {
        Refusal::PartitionClosed => 1,
        Refusal::InvalidAccount => 2,
        Refusal::InvalidPartition => 3,
        Refusal::InvalidQos => 4,
        Refusal::NodesNotAvailable => 5,
        Refusal::NotAllowedHere => 6,
        Refusal::SubmitLimit { .. } => 7,
        Refusal::JobTableFull => 8,
        Refusal::ArrayTooLarge => 9,
        Refusal::InvalidJobId => 10,
        Refusal::AccessDenied => 11,
        Refusal::AlreadyDone => 12,
        Refusal::BadDependency => 13,
        Refusal::InvalidReservation => 14,
        Refusal::ReservationOverlap => 15,
        Refusal::UnknownNode => 16,
        Refusal::StaleReport { .. } => 17,
        Refusal::HistoryFull => 18,
        Refusal::JobIdsSpent => 19,
        Refusal::MomentTooLarge => 20,
        Refusal::WrongState => 21,
        Refusal::ShuttingDown => 22,
        Refusal::NotRequeueable => 23,
        Refusal::CannotShrink { .. } => 24,
    }
}

fn push_details(out: &mut Vec<u8>, refusal: &Refusal) -> Result<(), Memory>
    ensures { OnOk result (out.new.items ≡ out.old.items ++ refusal_details refusal.now) }
{
    match refusal {
        Refusal::SubmitLimit { which, limit } => {
            push_text(out, b" ")?;
            push_text(out, which_name(*which))?;
            push_labelled(out, b" ", *limit)
        }
        Refusal::StaleReport { boot, number } => {
            push_labelled(out, b" ", *boot)?;
            push_labelled(out, b" ", *number)
        }
        Refusal::CannotShrink { name } => {
            push_text(out, b" ")?;
            push_text(out, name.as_bytes())
        }
        _ => Ok(()),
    }
}

fn which_name(which: Which) -> &'static [u8]
    ensures { result.now ≡ which_name which }
{
    match which {
        Which::AssocMaxSubmitJobs => b"AssocMaxSubmitJobs",
        Which::AssocGrpSubmitJobs => b"AssocGrpSubmitJobs",
        Which::QosGrpSubmitJobs => b"QOSGrpSubmitJobs",
        Which::QosMaxSubmitJobsPerUser => b"QOSMaxSubmitJobsPerUser",
    }
}
