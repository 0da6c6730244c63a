//! The texts of the columns of squeue(1).

ghost use Rattle.std.specs.Prelude.{◌≡◌, ◌≤◌, ◌++◌, OnOk};
ghost use Rattle.plain_data.specs.Elapsed.{elapsed_text};
ghost use Rattle.small_texts.specs.Moment.{moment_text};
ghost use Rattle.table_texts.specs.Squeue;

use plain_data::limit::Limit;
use plain_data::print_elapsed;
use plain_data::seconds::{FOREVER, Second};
use request_data::query::JobColumn;
use request_data::state::{Final, JobState, Reason};
use small_texts::memory_error::Memory;
use small_texts::moment::print_moment;
use small_texts::pieces::{push_labelled, push_number, push_text};

/// Writes a reason in parentheses.
pub fn push_reason(out: &mut Vec<u8>, reason: Reason) -> Result<(), Memory>
    ensures { OnOk result (out.new.items ≡ out.old.items ++ Squeue.reason_text reason) }
{
    out.push(b'(')?;
    push_text(out, reason_name(reason))?;
    out.push(b')')?;
    Ok(())
}

/// The title of a column.
#[tactic(auto, unfolding(crate::specs::Squeue::title))]
pub fn title(column: JobColumn) -> &'static [u8]
    ensures { result.now ≡ Squeue.title column }
{
    match column {
        JobColumn::Id => b"JOBID",
        JobColumn::Partition => b"PARTITION",
        JobColumn::JobName => b"NAME",
        JobColumn::User => b"USER",
        JobColumn::Account => b"ACCOUNT",
        JobColumn::Qos => b"QOS",
        JobColumn::Code => b"ST",
        JobColumn::State => b"STATE",
        JobColumn::Time => b"TIME",
        JobColumn::Nodes => b"NODES",
        JobColumn::Place => b"NODELIST(REASON)",
        JobColumn::Start => b"START_TIME",
        JobColumn::Priority => b"PRIORITY",
        JobColumn::Limit => b"TIME_LIMIT",
        JobColumn::Cpus => b"CPUS",
    }
}

/// Writes the number of an array and the index of its task.
pub fn push_task(out: &mut Vec<u8>, array: u32, index: u32) -> Result<(), Memory>
    ensures { OnOk result (out.new.items ≡ out.old.items ++ Squeue.task_of array index) }
{
    push_number(out, u64::from(array))?;
    push_labelled(out, b"_", u64::from(index))
}

/// Writes the job's number; a task of an array is named by the array and its index.
pub fn push_id(
    out: &mut Vec<u8>,
    id: u32,
    array: Option<u32>,
    index: Option<u32>,
) -> Result<(), Memory>
    ensures { OnOk result (out.new.items ≡ out.old.items ++ Squeue.id_of id array index) }
{
    match (array, index) {
        (Some(array), Some(index)) => push_task(out, array, index),
        _ => push_number(out, u64::from(id)),
    }
}

/// Writes a length of time.
pub fn push_elapsed(out: &mut Vec<u8>, seconds: u64) -> Result<(), Memory>
    requires { seconds ≤ FOREVER }
    ensures { OnOk result (out.new.items ≡ out.old.items ++ elapsed_text seconds) }
{
    let mut text = [0; 32];
    let len = print_elapsed(seconds, &mut text);
    push_text(out, &text[..len])
}

/// Writes a moment.
pub fn push_moment(out: &mut Vec<u8>, second: Second) -> Result<(), Memory>
    ensures { OnOk result (out.new.items ≡ out.old.items ++ moment_text second) }
{
    let mut text = [0; 19];
    print_moment(second.get(), &mut text);
    push_text(out, &text)
}

/// Writes a limit.
pub fn push_limit(out: &mut Vec<u8>, limit: Limit) -> Result<(), Memory>
    ensures { OnOk result (out.new.items ≡ out.old.items ++ Squeue.limit_of limit) }
{
    match limit {
        Limit::Unlimited => push_text(out, b"UNLIMITED"),
        Limit::Minutes(minutes) => push_elapsed(out, minutes.get() * 60),
    }
}

/// The code of a state.
pub fn state_code(state: JobState) -> &'static [u8]
    ensures { result.now ≡ Squeue.state_code state }
{
    match state {
        JobState::Pending => b"PD",
        JobState::Running => b"R",
        JobState::Completing(_) => b"CG",
        JobState::Ended(Final::Completed) => b"CD",
        JobState::Ended(Final::Cancelled) => b"CA",
        JobState::Ended(Final::Failed) => b"F",
        JobState::Ended(Final::Timeout) => b"TO",
        JobState::Ended(Final::NodeFail) => b"NF",
        JobState::Ended(Final::Requeue) => b"RQ",
    }
}

/// The word of a state.
pub fn state_word(state: JobState) -> &'static [u8]
    ensures { result.now ≡ Squeue.state_word state }
{
    match state {
        JobState::Pending => b"PENDING",
        JobState::Running => b"RUNNING",
        JobState::Completing(_) => b"COMPLETING",
        JobState::Ended(Final::Completed) => b"COMPLETED",
        JobState::Ended(Final::Cancelled) => b"CANCELLED",
        JobState::Ended(Final::Failed) => b"FAILED",
        JobState::Ended(Final::Timeout) => b"TIMEOUT",
        JobState::Ended(Final::NodeFail) => b"NODE_FAIL",
        JobState::Ended(Final::Requeue) => b"REQUEUED",
    }
}

/// The name of a reason.
pub fn reason_name(reason: Reason) -> &'static [u8]
    ensures { result.now ≡ Squeue.reason_name reason }
{
    match reason {
        Reason::JobHeldAdmin => b"JobHeldAdmin",
        Reason::JobHeldUser => b"JobHeldUser",
        Reason::DependencyNeverSatisfied => b"DependencyNeverSatisfied",
        Reason::Dependency => b"Dependency",
        Reason::BeginTime => b"BeginTime",
        Reason::PartitionInactive => b"PartitionInactive",
        Reason::PartitionDown => b"PartitionDown",
        Reason::PartitionTimeLimit => b"PartitionTimeLimit",
        Reason::PartitionNodeLimit => b"PartitionNodeLimit",
        Reason::QosMaxWallDurationPerJobLimit => b"QOSMaxWallDurationPerJobLimit",
        Reason::JobArrayTaskLimit => b"JobArrayTaskLimit",
        Reason::AssocGrpJobsLimit => b"AssocGrpJobsLimit",
        Reason::AssocGrpCpuLimit => b"AssocGrpCpuLimit",
        Reason::AssocMaxJobsLimit => b"AssocMaxJobsLimit",
        Reason::QosGrpJobsLimit => b"QOSGrpJobsLimit",
        Reason::QosGrpCpuLimit => b"QOSGrpCpuLimit",
        Reason::QosMaxJobsPerUserLimit => b"QOSMaxJobsPerUserLimit",
        Reason::QosMaxCpuPerUserLimit => b"QOSMaxCpuPerUserLimit",
        Reason::Reservation => b"Reservation",
        Reason::ReqNodeNotAvail => b"ReqNodeNotAvail",
        Reason::Resources => b"Resources",
        Reason::Priority => b"Priority",
    }
}
