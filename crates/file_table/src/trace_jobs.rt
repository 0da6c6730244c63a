//! How a job of a trace is shown: a line with a word before each of its parts, and `-` for what isn't known.

use plain_data::limit::Limit;
use small_texts::memory_error::Memory;
use small_texts::name::Name;
use small_texts::pieces::{push_labelled, push_number, push_text};
use trace_text::{Outcome, TraceId, TraceJob, TraceMemory, TraceNames, TraceNeeds, TraceTimes};

fn push_id(out: &mut Vec<u8>, id: TraceId) -> Result<(), Memory> {
    match id {
        TraceId::Job(job) => push_number(out, job),
        TraceId::Task { array, task } => {
            push_number(out, array)?;
            push_labelled(out, b" task ", task)
        }
        TraceId::WaitingTasks { array } => {
            push_number(out, array)?;
            push_text(out, b" waiting tasks")
        }
        TraceId::Component { job, place } => {
            push_number(out, job)?;
            push_labelled(out, b" component ", place)
        }
    }
}

fn push_known(out: &mut Vec<u8>, word: &[u8], number: Option<u64>) -> Result<(), Memory> {
    push_text(out, word)?;
    match number {
        Some(number) => push_number(out, number),
        None => push_text(out, b"-"),
    }
}

fn push_times(out: &mut Vec<u8>, times: TraceTimes) -> Result<(), Memory> {
    push_known(out, b" submit ", times.submit)?;
    push_known(out, b" start ", times.start)?;
    push_known(out, b" end ", times.end)?;
    push_known(out, b" run ", times.run)
}

fn push_limit(out: &mut Vec<u8>, limit: &Option<Limit>) -> Result<(), Memory> {
    push_text(out, b" limit ")?;
    match limit {
        None => push_text(out, b"-"),
        Some(Limit::Unlimited) => push_text(out, b"unlimited"),
        Some(Limit::Minutes(minutes)) => push_number(out, minutes.get()),
    }
}

fn push_memory(out: &mut Vec<u8>, memory: Option<TraceMemory>) -> Result<(), Memory> {
    match memory {
        None => push_text(out, b" memory -"),
        Some(TraceMemory::PerProcessor(amount)) => {
            push_labelled(out, b" memory ", amount)?;
            push_text(out, b" a processor")
        }
        Some(TraceMemory::PerNode(amount)) => {
            push_labelled(out, b" memory ", amount)?;
            push_text(out, b" a node")
        }
        Some(TraceMemory::InAll(amount)) => push_labelled(out, b" memory ", amount),
    }
}

fn push_needs(out: &mut Vec<u8>, needs: TraceNeeds) -> Result<(), Memory> {
    push_limit(out, &needs.limit)?;
    push_known(out, b" nodes ", needs.nodes)?;
    push_known(out, b" processors ", needs.processors)?;
    push_memory(out, needs.memory)
}

fn outcome_word(outcome: Option<Outcome>) -> &'static [u8] {
    match outcome {
        None => b" -",
        Some(Outcome::Completed) => b" completed",
        Some(Outcome::Failed) => b" failed",
        Some(Outcome::Cancelled) => b" cancelled",
        Some(Outcome::TimedOut) => b" timed out",
        Some(Outcome::Unfinished) => b" unfinished",
    }
}

fn push_name(out: &mut Vec<u8>, word: &[u8], name: &Option<Name>) -> Result<(), Memory> {
    push_text(out, word)?;
    match name {
        Some(name) => push_text(out, name.as_bytes()),
        None => push_text(out, b"-"),
    }
}

fn push_names(out: &mut Vec<u8>, names: &TraceNames) -> Result<(), Memory> {
    push_name(out, b" user ", &names.user)?;
    push_name(out, b" account ", &names.account)?;
    push_name(out, b" partition ", &names.partition)?;
    push_name(out, b" qos ", &names.qos)
}

/// The line of a job.
pub fn push_job(out: &mut Vec<u8>, job: &TraceJob) -> Result<(), Memory> {
    push_id(out, job.id)?;
    push_times(out, job.times)?;
    push_needs(out, job.needs)?;
    push_text(out, outcome_word(job.outcome))?;
    push_names(out, &job.names)?;
    push_text(out, b"\n")
}
