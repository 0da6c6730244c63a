//! The jobs of a trace, or its first bad line.

use crate::trace_jobs::push_job;
use small_texts::memory_error::Memory;
use std::alloc::Global;
use std::io;
use trace_text::{TraceJob, TraceKind, TraceRefusal, read_trace};

/// Tells it of a trace of a kind.
pub(crate) fn answer(
    rt: &impl Print,
    alloc: Global,
    kind: TraceKind,
    text: &[u8],
) -> io::Result<()> {
    match told(alloc, kind, text) {
        Ok(lines) => rt.write_all(lines.as_slice()),
        Err(refusal) => rt.println(refusal),
    }
}

fn job_lines(alloc: Global, jobs: &[TraceJob]) -> Result<Vec<u8>, Memory> {
    let mut out = Vec::new(alloc);
    for job in jobs {
        push_job(&mut out, job)?;
    }
    Ok(out)
}

fn told(alloc: Global, kind: TraceKind, text: &[u8]) -> Result<Vec<u8>, TraceRefusal> {
    let jobs = read_trace(alloc, kind, text)?;
    let lines = job_lines(alloc, jobs.as_slice())?;
    Ok(lines)
}
