//! Traces: what a line of a Standard Workload Format file and a line of sacct(1) say of a job that once ran, and all jobs
//! of a text, or its first bad line.
#![tactic(auto)]

mod desc;
mod fault;
mod fields;
mod job;
mod laws;
mod names;
mod plan;
mod sacct_line;
mod sacct_values;
mod sizes;
mod submission;
mod swf_line;
mod swf_values;
mod traces;

pub use fault::{BadLine, LineFault, TraceRefusal};
pub use job::{Outcome, TraceId, TraceJob, TraceMemory, TraceNames, TraceNeeds, TraceTimes};
pub use laws::no_job_is_lost;
pub use plan::{ReplayPlan, plan_replay};
pub use submission::{LeftOut, LeftOutJob, Submission, TakenNames};
pub use traces::{TraceKind, read_trace};
