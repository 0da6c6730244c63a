//! The text of a run.

ghost use Rattle.std.specs.Prelude.{◌≡◌, false, IfOk, IsErrOf, Err};
ghost use Rattle.replay_report.specs.Changes.{AreMostChanged, changes_in};
ghost use Rattle.replay_texts.specs.Comparisons.{comparison_text};
ghost use Rattle.replay_texts.specs.Csv.{csv_text};
ghost use Rattle.replay_texts.specs.Summaries.{summary_text};
ghost use Rattle.replay_run.specs.Replays.{CameTo};
ghost use Rattle.replay_run.specs.Reports.{AreCompared, IsComparedWith, IsReport, IsReportOfPlan, IsReportOn, IsSummed, IsTold, assocs_used, is_compared, text_or};
ghost use Rattle.trace_text.specs.Traces.{trace_in};
ghost use Rattle.trace_text.specs.declared.fault.BadLine.{BadLine};

use crate::refusal::{RunRefusal, WorkRefusal, of_work};
use crate::watching::Watch;
use crate::words::Wanted;
use crate::working::{Trace, Worked, work};
use replay_report::{Change, Direction, changes, most_changed, summary_of};
use replay_texts::{self, push_comparison, push_csv, push_summary, with_users};
use small_texts::memory_error::Memory;
use std::alloc::Global;
use trace_text::{TraceJob, TraceRefusal, plan_replay, read_trace};

/// What comes of a run.
#[derive(Drop)]
pub struct Report {
    pub text: Vec<u8>,
    /// The text of the picture, where one is wanted.
    pub picture: Option<Vec<u8>>,
    /// That of the picture of the other replay, where one is wanted.
    pub other_picture: Option<Vec<u8>>,
}

/// The texts of the files that are wanted.
#[derive(Clone, Copy)]
pub struct Texts<'a> {
    pub conf: &'a [u8],
    pub assocs: &'a [u8],
    pub trace: &'a [u8],
    pub other_conf: Option<&'a [u8]>,
    pub other_assocs: Option<&'a [u8]>,
}

// The association file, with the users of the trace where they are wanted.
fn assocs_for(
    alloc: Global,
    wanted: &Wanted<'_>,
    assocs: &[u8],
    jobs: &[TraceJob],
) -> Result<Vec<u8>, Memory>
    ensures { IfOk result (λ whole. whole.items ≡ assocs_used wanted.now.add_users assocs.now jobs.now) }
{
    if wanted.add_users {
        with_users(alloc, assocs, jobs)
    } else {
        Ok(Vec::from_slice(alloc, assocs)?)
    }
}

// Works a trace at the cluster of two files.
fn work_at<W: Watch>(
    alloc: Global,
    wanted: &Wanted<'_>,
    is_drawn: bool,
    conf: &[u8],
    assocs: &[u8],
    trace: Trace<'_>,
    watch: &mut W,
) -> Result<Worked, WorkRefusal>
    ensures { IfOk result (λ worked. CameTo wanted.now.interval conf.now (assocs_used wanted.now.add_users assocs.now trace.entry.jobs.now)
        trace.entry.jobs.now trace.entry.plan.now worked.processors worked.outcomes.items) }
{
    let assocs = assocs_for(alloc, wanted, assocs, trace.jobs)?;
    work(
        alloc,
        wanted.interval,
        is_drawn,
        conf,
        assocs.as_slice(),
        trace,
        watch,
    )
}

fn summed(alloc: Global, worked: &Worked) -> Result<replay_texts::Worked, Memory>
    ensures { IfOk result (IsSummed worked.now.processors worked.now.outcomes.items) }
{
    Ok(replay_texts::Worked {
        processors: worked.processors,
        passes: worked.passes,
        summary: summary_of(alloc, worked.outcomes.as_slice())?,
    })
}

fn most_in(
    alloc: Global,
    wanted: &Wanted<'_>,
    direction: Direction,
    before: &Worked,
    after: &Worked,
) -> Result<Vec<Change>, Memory>
    ensures { IfOk result (λ first. AreMostChanged direction wanted.now.most
        (changes_in after.now.outcomes.items 0 before.now.outcomes.items) first.items) }
{
    let changes = changes(alloc, before.outcomes.as_slice(), after.outcomes.as_slice())?;
    most_changed(alloc, direction, wanted.most, changes.as_slice())
}

// The text of two replays side by side, by their sums and by the jobs that wait less and more.
fn comparison_of(
    alloc: Global,
    one: &replay_texts::Worked,
    other: &replay_texts::Worked,
    less: &[Change],
    more: &[Change],
) -> Result<Vec<u8>, Memory>
    ensures { IfOk result (λ text. text.items ≡ comparison_text one.now other.now less.now more.now) }
{
    let mut out = Vec::new(alloc);
    push_comparison(alloc, &mut out, one, other, less, more)?;
    Ok(out)
}

// The same, by their sums.
fn compared_by(
    alloc: Global,
    wanted: &Wanted<'_>,
    before: &Worked,
    after: &Worked,
    one: &replay_texts::Worked,
    other: &replay_texts::Worked,
) -> Result<Vec<u8>, Memory>
    requires one { IsSummed before.now.processors before.now.outcomes.items one.now }
    requires other { IsSummed after.now.processors after.now.outcomes.items other.now }
    ensures { IfOk result (λ text. AreCompared wanted.now.most before.now.processors after.now.processors
        before.now.outcomes.items after.now.outcomes.items text.items) }
{
    let less = most_in(alloc, wanted, Direction::Less, before, after)?;
    let more = most_in(alloc, wanted, Direction::More, before, after)?;
    comparison_of(alloc, one, other, less.as_slice(), more.as_slice())
}

fn compared(
    alloc: Global,
    wanted: &Wanted<'_>,
    before: &Worked,
    after: &Worked,
) -> Result<Vec<u8>, Memory>
    ensures { IfOk result (λ text. AreCompared wanted.now.most before.now.processors after.now.processors
        before.now.outcomes.items after.now.outcomes.items text.items) }
{
    let one = summed(alloc, before)?;
    let other = summed(alloc, after)?;
    compared_by(alloc, wanted, before, after, &one, &other)
}

// A line for each job of a replay.
fn listed(alloc: Global, worked: &Worked) -> Result<Vec<u8>, Memory>
    ensures { IfOk result (λ text. text.items ≡ csv_text worked.now.outcomes.items) }
{
    let mut out = Vec::new(alloc);
    push_csv(&mut out, worked.outcomes.as_slice())?;
    Ok(out)
}

// The text of the sums of a replay.
fn summary_of_sums(alloc: Global, sums: &replay_texts::Worked) -> Result<Vec<u8>, Memory>
    ensures { IfOk result (λ text. text.items ≡ summary_text sums.now) }
{
    let mut out = Vec::new(alloc);
    push_summary(alloc, &mut out, sums)?;
    Ok(out)
}

fn summarized(alloc: Global, worked: &Worked) -> Result<Vec<u8>, Memory>
    ensures { IfOk result (λ text. IsTold false worked.now.processors worked.now.outcomes.items text.items) }
{
    let sums = summed(alloc, worked)?;
    summary_of_sums(alloc, &sums)
}

// The text of one replay.
fn told(alloc: Global, wanted: &Wanted<'_>, worked: &Worked) -> Result<Vec<u8>, Memory>
    ensures { IfOk result (λ text. IsTold wanted.now.csv worked.now.processors worked.now.outcomes.items text.items) }
{
    if wanted.csv {
        listed(alloc, worked)
    } else {
        summarized(alloc, worked)
    }
}

fn is_compared(texts: &Texts<'_>) -> bool
    ensures { result ≡ is_compared texts.now }
{
    texts.other_conf.is_some() || texts.other_assocs.is_some()
}

// A text where there is one, else another.
fn text_or<'a>(text: Option<&'a [u8]>, other: &'a [u8]) -> &'a [u8]
    ensures { result.now ≡ text_or text.entry other.now }
{
    match text {
        Some(text) => text,
        None => other,
    }
}

// The report on one replay.
fn report_alone(alloc: Global, wanted: &Wanted<'_>, worked: Worked) -> Result<Report, WorkRefusal>
    ensures { IfOk result (λ report. IsTold wanted.now.csv worked.processors worked.outcomes.items report.text.items) }
{
    let text = told(alloc, wanted, &worked)?;
    Ok(Report {
        text,
        picture: worked.picture,
        other_picture: None,
    })
}

// The report on two replays.
fn report_both(
    alloc: Global,
    wanted: &Wanted<'_>,
    before: Worked,
    after: Worked,
) -> Result<Report, WorkRefusal>
    ensures { IfOk result (λ report. AreCompared wanted.now.most before.processors after.processors
        before.outcomes.items after.outcomes.items report.text.items) }
{
    let text = compared(alloc, wanted, &before, &after)?;
    Ok(Report {
        text,
        picture: before.picture,
        other_picture: after.picture,
    })
}

// The report on a replay and on another one, which is worked now.
fn report_other<W: Watch>(
    alloc: Global,
    wanted: &Wanted<'_>,
    texts: &Texts<'_>,
    trace: Trace<'_>,
    before: Worked,
    watch: &mut W,
) -> Result<Report, WorkRefusal>
    ensures { IfOk result (λ report. IsComparedWith wanted.now texts.now trace.entry.jobs.now trace.entry.plan.now
        before.processors before.outcomes.items report.text.items) }
{
    let conf = text_or(texts.other_conf, texts.conf);
    let assocs = text_or(texts.other_assocs, texts.assocs);
    let is_drawn = wanted.other_svg.is_some();
    let after = work_at(alloc, wanted, is_drawn, conf, assocs, trace, watch)?;
    report_both(alloc, wanted, before, after)
}

// The report on what is handed in for the jobs of a trace.
fn report_planned<W: Watch>(
    alloc: Global,
    wanted: &Wanted<'_>,
    texts: &Texts<'_>,
    trace: Trace<'_>,
    watch: &mut W,
) -> Result<Report, WorkRefusal>
    ensures { IfOk result (λ report. IsReportOfPlan wanted.now texts.now trace.entry.jobs.now trace.entry.plan.now report.text.items) }
{
    let is_drawn = wanted.svg.is_some();
    let (conf, assocs) = (texts.conf, texts.assocs);
    let before = work_at(alloc, wanted, is_drawn, conf, assocs, trace, watch)?;
    if is_compared(texts) {
        report_other(alloc, wanted, texts, trace, before, watch)
    } else {
        report_alone(alloc, wanted, before)
    }
}

// The report on the jobs of a trace.
fn report_of<W: Watch>(
    alloc: Global,
    wanted: &Wanted<'_>,
    texts: &Texts<'_>,
    jobs: &[TraceJob],
    watch: &mut W,
) -> Result<Report, WorkRefusal>
    ensures { IfOk result (λ report. IsReport wanted.now texts.now jobs.now report.text.items) }
{
    let plan = plan_replay(alloc, wanted.taken, jobs)?;
    report_planned(alloc, wanted, texts, Trace { jobs, plan: &plan }, watch)
}

// The same, where the trace was read.
fn report_read<W: Watch>(
    alloc: Global,
    wanted: &Wanted<'_>,
    texts: &Texts<'_>,
    jobs: &[TraceJob],
    watch: &mut W,
) -> Result<Report, RunRefusal>
    ensures report { IfOk result (λ report. IsReport wanted.now texts.now jobs.now report.text.items) }
    ensures no_trace { (bad : TraceRefusal) → IsErrOf result (RunRefusal.BadTrace bad) → ⊥ }
{
    match report_of(alloc, wanted, texts, jobs, watch) {
        Ok(report) => Ok(report),
        Err(refusal) => Err(of_work(refusal)),
    }
}

/// The text of a run: a summary of the replay of the trace at the cluster of the two files, a line for each job, or two
/// replays side by side.
pub fn make_report<W: Watch>(
    alloc: Global,
    wanted: &Wanted<'_>,
    texts: &Texts<'_>,
    watch: &mut W,
) -> Result<Report, RunRefusal>
    ensures report { IfOk result (λ report. IsReportOn wanted.now texts.now report.text.items) }
    ensures bad_trace { (bad : BadLine) → IsErrOf result (RunRefusal.BadTrace (TraceRefusal.Bad bad))
        → trace_in wanted.now.kind texts.now.trace.now ≡ Err bad }
{
    match read_trace(alloc, wanted.kind, texts.trace) {
        Ok(jobs) => report_read(alloc, wanted, texts, jobs.as_slice(), watch),
        Err(refusal) => Err(RunRefusal::BadTrace(refusal)),
    }
}
