//! What became of a job, in words.

ghost use Rattle.std.specs.Prelude.{◌≡◌, ◌++◌, OnOk};
ghost use Rattle.replay_texts.specs.Fates.{fate_text, final_word, here_text, left_word, refused_word, state_word, word_text};

use crate::values::{push_known, push_names, wait_known};
use replay_report::Fate;
use reply_data::refusal::Refusal;
use request_data::state::{Final, JobState};
use small_texts::memory_error::Memory;
use small_texts::name::Name;
use small_texts::pieces::push_text;
use trace_text::LeftOut;

fn final_word(last: Final) -> &'static [u8]
    ensures { result.now ≡ final_word last }
{
    match last {
        Final::Completed => b"COMPLETED",
        Final::Cancelled => b"CANCELLED",
        Final::Failed => b"FAILED",
        Final::Timeout => b"TIMEOUT",
        Final::NodeFail => b"NODE_FAIL",
        Final::Requeue => b"REQUEUED",
    }
}

fn state_word(state: JobState) -> &'static [u8]
    ensures { result.now ≡ state_word state }
{
    match state {
        JobState::Pending => b"PENDING",
        JobState::Running => b"RUNNING",
        JobState::Completing(_) => b"COMPLETING",
        JobState::Ended(last) => final_word(last),
    }
}

fn refused_word(refusal: Refusal) -> &'static [u8]
    ensures { result.now ≡ refused_word refusal }
{
    match refusal {
        Refusal::PartitionClosed => b"PartitionClosed",
        Refusal::InvalidAccount => b"InvalidAccount",
        Refusal::InvalidPartition => b"InvalidPartition",
        Refusal::InvalidQos => b"InvalidQos",
        Refusal::NodesNotAvailable => b"NodesNotAvailable",
        Refusal::NotAllowedHere => b"NotAllowedHere",
        Refusal::SubmitLimit { .. } => b"SubmitLimit",
        Refusal::JobTableFull => b"JobTableFull",
        Refusal::HistoryFull => b"HistoryFull",
        _ => b"Refused",
    }
}

fn left_word(reason: LeftOut) -> &'static [u8]
    ensures { result.now ≡ left_word reason }
{
    match reason {
        LeftOut::NoSubmit => b"NoSubmit",
        LeftOut::NoUser => b"NoUser",
        LeftOut::NoRun => b"NoRun",
        LeftOut::OutOfRange => b"OutOfRange",
    }
}

// Writes when it started and ended here, how long it waited, on which nodes it was, and a word.
fn push_here(
    out: &mut Vec<u8>,
    submit: Option<u64>,
    start: Option<u64>,
    end: Option<u64>,
    nodes: &[Name],
    word: &[u8],
) -> Result<(), Memory>
    ensures { OnOk result (out.new.items ≡ out.old.items ++ here_text submit start end nodes.now word.now) }
{
    push_known(out, start)?;
    push_known(out, end)?;
    push_known(out, wait_known(submit, start))?;
    push_names(out, nodes)?;
    push_text(out, b",")?;
    push_text(out, word)?;
    Ok(())
}

// Writes a word behind fields that are empty.
fn push_word(out: &mut Vec<u8>, word: &[u8]) -> Result<(), Memory>
    ensures { OnOk result (out.new.items ≡ out.old.items ++ word_text word.now) }
{
    push_text(out, b",,,,,")?;
    push_text(out, word)
}

/// Writes what became of a job that was handed in then.
pub(crate) fn push_fate(out: &mut Vec<u8>, submit: Option<u64>, fate: &Fate) -> Result<(), Memory>
    ensures { OnOk result (out.new.items ≡ out.old.items ++ fate_text submit fate.now) }
{
    match fate {
        Fate::Ran(run) => {
            let nodes = run.nodes.as_slice();
            push_here(
                out,
                submit,
                Some(run.start),
                Some(run.end),
                nodes,
                final_word(run.last),
            )
        }
        Fate::Waits(standing) => {
            let nodes = standing.nodes.as_slice();
            let word = state_word(standing.state);
            push_here(out, submit, standing.start, standing.end, nodes, word)
        }
        Fate::Forgotten => push_word(out, b"UNKNOWN"),
        Fate::Refused(refusal) => push_word(out, refused_word(*refusal)),
        Fate::LeftOut(reason) => push_word(out, left_word(*reason)),
    }
}
