//! The jobs of a trace, line by line.

ghost use Rattle.std.specs.Prelude.{◌≡◌, ◌++◌, IfOk, OnOk, MatchResult, IsErrOf, Ok, Err};
ghost use Rattle.std.specs.Str.{byte};
ghost use Rattle.small_texts.specs.Fields.{fields};
ghost use Rattle.trace_text.specs.Traces.{fault_in, jobs_in, jobs_said, line_said, trace_in};
ghost use Rattle.trace_text.specs.declared.fault.BadLine.{BadLine};

use crate::fault::{BadLine, LineFault, TraceRefusal};
use crate::job::TraceJob;
use crate::sacct_line::sacct_line;
use crate::swf_line::swf_line;
use small_texts::fields::first_field;
use small_texts::memory_error::Memory;
use std::alloc::Global;

/// The kinds of traces (own).
#[derive(Clone, Copy, Debug, PartialEq, Eq)]
pub enum TraceKind {
    /// The Standard Workload Format.
    Swf,
    /// `sacct -P -n -o JobID,User,Account,Partition,QOS,Submit,Start,End,Timelimit,ReqNodes,ReqCPUS,ReqMem,State`.
    Sacct,
}

// What a line says.
#[tactic(auto, unfolding(crate::specs::Traces::line_said))]
fn line_said(
    alloc: Global,
    kind: TraceKind,
    line: &[u8],
) -> Result<Result<Option<TraceJob>, LineFault>, Memory>
    ensures { IfOk result (λ said. said ≡ line_said kind line.now) }
{
    match kind {
        TraceKind::Swf => swf_line(alloc, line),
        TraceKind::Sacct => sacct_line(alloc, line),
    }
}

// Takes the job of a line behind others, if the line tells of one; else tells what is wrong with it.
fn take_line(
    alloc: Global,
    kind: TraceKind,
    line: &[u8],
    jobs: &mut Vec<TraceJob>,
) -> Result<Option<LineFault>, Memory>
    ensures fault { IfOk result (λ fault. fault ≡ fault_in (line_said kind line.now)) }
    ensures jobs { OnOk result (jobs.new.items ≡ jobs.old.items ++ jobs_said (line_said kind line.now)) }
{
    match line_said(alloc, kind, line)? {
        Ok(Some(job)) => {
            jobs.push(job)?;
            Ok(None)
        }
        Ok(None) => Ok(None),
        Err(fault) => Ok(Some(fault)),
    }
}

#[tactic(auto, using(crate::proofs::LineSteps::line_steps))]
fn read_lines(
    alloc: Global,
    kind: TraceKind,
    text: &[u8],
) -> Result<Result<Vec<TraceJob>, BadLine>, Memory>
    ensures { IfOk result (λ read. MatchResult read
        (λ jobs. jobs_in kind 1 (fields (byte "\n") text.now) ≡ Ok jobs.items)
        (λ bad. jobs_in kind 1 (fields (byte "\n") text.now) ≡ Err bad)) }
{
    let mut jobs = Vec::new(alloc);
    let mut rest = Some(text);
    let mut number: usize = 1;
    while let Some(lines) = rest {
        let (line, behind) = first_field(lines, b'\n');
        if let Some(fault) = take_line(alloc, kind, line, &mut jobs)? {
            return Ok(Err(BadLine {
                line: number,
                fault,
            }));
        }
        number += 1;
        rest = behind;
    }
    Ok(Ok(jobs))
}

/// The jobs of a trace of this kind, in the order of its lines. An error tells the first bad line and in it the first bad
/// field. Linear in the text.
#[tactic(auto, unfolding(crate::specs::Traces::trace_in))]
pub fn read_trace(
    alloc: Global,
    kind: TraceKind,
    text: &[u8],
) -> Result<Vec<TraceJob>, TraceRefusal>
    ensures value { IfOk result (λ jobs. trace_in kind text.now ≡ Ok jobs.items) }
    ensures refused { (bad : BadLine) → IsErrOf result (TraceRefusal.Bad bad) → trace_in kind text.now ≡ Err bad }
{
    match read_lines(alloc, kind, text) {
        Ok(Ok(jobs)) => Ok(jobs),
        Ok(Err(bad)) => Err(TraceRefusal::Bad(bad)),
        Err(Memory) => Err(TraceRefusal::Memory),
    }
}
