//! The picture of a replay: a bar for each job that ran, a row for each node.

use crate::gathering::look;
use crate::working::Trace;
use ctl_desk::own_desk::OwnDesk;
use plain_data::items::Items;
use plain_data::seconds::Second;
use replay::{Played, Replayed, Run};
use replay_picture::{NodePart, Period, Picture, PictureBar, PictureNode, WaitingStep, picture};
use reply_data::reply::Reply;
use reply_data::view::{EndAt, JobRow, NodeRow, Row};
use request_data::query::Query;
use request_data::state::JobState;
use small_texts::memory_error::Memory;
use small_texts::name::Name;
use small_texts::pieces::{push_labelled, push_number, push_text};
use std::alloc::Global;
use trace_text::{ReplayPlan, Submission, TraceId};

/// How many groups have colours of their own; all others share the next one.
const OWN_COLOURS: usize = 11;

/// The group of all others.
const OTHERS: u32 = 11;

/// The bars of a picture, and whose they are.
#[derive(Drop)]
struct Bars {
    /// By the numbers of their jobs.
    bars: Vec<PictureBar>,
    ids: Vec<u32>,
    /// Which start of its job each bar is.
    starts: Vec<u32>,
    /// The accounts, in the order in which they come.
    accounts: Vec<Name>,
}

fn rows_of(reply: &Reply) -> &[Row] {
    match reply {
        Reply::Shown(view) => view.rows.as_slice(),
        _ => &[],
    }
}

// The number of a job in its trace.
fn push_trace_id(out: &mut Vec<u8>, id: TraceId) -> Result<(), Memory> {
    match id {
        TraceId::Job(job) => push_number(out, job),
        TraceId::Task { array, task } => {
            push_number(out, array)?;
            push_labelled(out, b"_", task)
        }
        TraceId::WaitingTasks { array } => {
            push_number(out, array)?;
            push_text(out, b"_[]")
        }
        TraceId::Component { job, place } => {
            push_number(out, job)?;
            push_labelled(out, b"+", place)
        }
    }
}

fn end_of(end: &EndAt, last: u64) -> Option<u64> {
    match end {
        EndAt::Nothing => None,
        EndAt::Unknown => Some(last),
        EndAt::At(second) => Some(second.get()),
    }
}

// When a job ended that started; one that still runs does so until the last moment.
fn last_of(row: &JobRow, last: u64) -> Option<u64> {
    match row.state {
        JobState::Pending => None,
        JobState::Running => Some(last),
        JobState::Completing(_) | JobState::Ended(_) => end_of(&row.end, last),
    }
}

fn start_of(row: &JobRow) -> Option<u64> {
    match &row.start {
        Some(second) => Some(second.get()),
        None => None,
    }
}

// The period of the last start of a job that ran.
fn span_of(row: &JobRow, last: u64) -> Option<Period> {
    Some(Period {
        first: Second::try_new(start_of(row)?)?,
        last: Second::try_new(last_of(row, last)?)?,
    })
}

// The group of an account: its place, where it has a colour of its own.
fn group_of(accounts: &mut Vec<Name>, account: &Name) -> Result<u32, Memory> {
    if let Some(place) = accounts.iter().position(|one| one.is(account)) {
        return Ok(u32::try_from(place).unwrap_or(OTHERS));
    }
    if accounts.len() < OWN_COLOURS {
        accounts.push(account.copy()?)?;
        return Ok(u32::try_from(accounts.len() - 1).unwrap_or(OTHERS));
    }
    Ok(OTHERS)
}

// What is shown of a job while a pointer rests on it.
fn push_title(out: &mut Vec<u8>, id: TraceId, row: &JobRow) -> Result<(), Memory> {
    push_trace_id(out, id)?;
    push_text(out, b": ")?;
    push_text(out, row.user.as_bytes())?;
    push_text(out, b" in ")?;
    push_text(out, row.account.as_bytes())?;
    push_labelled(out, b", tasks ", row.tasks)?;
    push_labelled(out, b", ran ", row.elapsed.get())?;
    push_text(out, b" s")
}

fn title_of(alloc: Global, id: TraceId, row: &JobRow) -> Result<Items<u8>, Memory> {
    let mut title = Vec::new(alloc);
    push_title(&mut title, id, row)?;
    Ok(Items::from_vec(title))
}

fn label_of(alloc: Global, id: TraceId) -> Result<Items<u8>, Memory> {
    let mut label = Vec::new(alloc);
    push_trace_id(&mut label, id)?;
    Ok(Items::from_vec(label))
}

fn bar_of(
    alloc: Global,
    id: TraceId,
    row: &JobRow,
    group: u32,
    span: Period,
) -> Result<PictureBar, Memory> {
    let label = label_of(alloc, id)?;
    let title = title_of(alloc, id, row)?;
    Ok(PictureBar {
        label,
        title,
        group,
        start: span.first,
        end: span.last,
    })
}

// Adds the bar of a job that ran.
fn push_bar(
    alloc: Global,
    bars: &mut Bars,
    id: TraceId,
    row: &JobRow,
    last: u64,
) -> Result<(), Memory> {
    let Some(span) = span_of(row, last) else {
        return Ok(());
    };
    let group = group_of(&mut bars.accounts, &row.account)?;
    bars.bars.push(bar_of(alloc, id, row, group, span)?)?;
    bars.ids.push(row.id)?;
    bars.starts.push(row.restarts.saturating_add(1))?;
    Ok(())
}

// The record at a place, where it is of the job of this number.
fn row_at(rows: &[Row], place: usize, id: u32) -> Option<&JobRow> {
    match rows.get(place) {
        Some(Row::Job(job)) if job.id == id => Some(job),
        _ => None,
    }
}

// Adds the bars of all jobs that ran. Records and submissions are in the order of the numbers that jobs get.
fn push_bars(
    alloc: Global,
    bars: &mut Bars,
    trace: Trace<'_>,
    replies: &[Reply],
    rows: &[Row],
    last: u64,
) -> Result<(), Memory> {
    let mut place = 0;
    for (submission, reply) in trace.plan.submissions.iter().zip(replies) {
        if let Reply::Submitted { id } = reply
            && let Some(row) = row_at(rows, place, *id)
            && let Some(job) = trace.jobs.get(submission.place)
        {
            push_bar(alloc, bars, job.id, row, last)?;
            place = place.saturating_add(1);
        }
    }
    Ok(())
}

fn bars_of(alloc: Global, trace: Trace<'_>, end: &Replayed, shown: &Reply) -> Result<Bars, Memory> {
    let mut bars = Bars {
        bars: Vec::new(alloc),
        ids: Vec::new(alloc),
        starts: Vec::new(alloc),
        accounts: Vec::new(alloc),
    };
    push_bars(
        alloc,
        &mut bars,
        trace,
        end.replies.as_slice(),
        rows_of(shown),
        end.moment,
    )?;
    Ok(bars)
}

// What a run holds of a node, where it is the last start of its job.
fn part_of(bars: &Bars, run: &Run) -> Option<NodePart> {
    let place = bars.ids.as_slice().binary_search(&run.start.id).ok()?;
    if *bars.starts.as_slice().get(place)? == run.start.number {
        Some(NodePart {
            bar: place,
            processors: run.processors,
        })
    } else {
        None
    }
}

// Adds what runs hold of a node.
fn push_parts(parts: &mut Vec<NodePart>, bars: &Bars, runs: &[Run]) -> Result<(), Memory> {
    for run in runs {
        if let Some(part) = part_of(bars, run) {
            parts.push(part)?;
        }
    }
    Ok(())
}

fn parts_of(alloc: Global, bars: &Bars, runs: &[Run]) -> Result<Items<NodePart>, Memory> {
    let mut parts = Vec::new(alloc);
    push_parts(&mut parts, bars, runs)?;
    Ok(Items::from_vec(parts))
}

fn node_of(
    alloc: Global,
    bars: &Bars,
    node: &NodeRow,
    played: &Played,
) -> Result<PictureNode, Memory> {
    let parts = parts_of(alloc, bars, played.launched.as_slice())?;
    let name = text_of(alloc, node.name.as_bytes())?;
    Ok(PictureNode {
        name,
        processors: node.cpus.min(1_048_576) as u32,
        parts,
        shades: Items::from_vec(Vec::new(alloc)),
    })
}

// Adds the nodes, each with its daemon: both are in the order in which the controller shows nodes.
fn push_nodes(
    alloc: Global,
    nodes: &mut Vec<PictureNode>,
    bars: &Bars,
    rows: &[Row],
    played: &[Played],
) -> Result<(), Memory> {
    for (row, one) in rows.iter().zip(played) {
        if let Row::Node(node) = row {
            nodes.push(node_of(alloc, bars, node, one)?)?;
        }
    }
    Ok(())
}

fn nodes_of(
    alloc: Global,
    bars: &Bars,
    shown: &Reply,
    played: &[Played],
) -> Result<Items<PictureNode>, Memory> {
    let mut nodes = Vec::new(alloc);
    push_nodes(alloc, &mut nodes, bars, rows_of(shown), played)?;
    Ok(Items::from_vec(nodes))
}

fn push_all_starts(starts: &mut Vec<u64>, bars: &[PictureBar]) -> Result<(), Memory> {
    for bar in bars {
        starts.push(bar.start.get())?;
    }
    Ok(())
}

// The starts of those that ran, in order.
fn starts_of(alloc: Global, bars: &[PictureBar]) -> Result<Vec<u64>, Memory> {
    let mut starts = Vec::new(alloc);
    push_all_starts(&mut starts, bars)?;
    starts.sort_unstable();
    Ok(starts)
}

/// How many wait, as far as it is known.
#[derive(Drop)]
struct Line {
    steps: Vec<WaitingStep>,
    jobs: u32,
}

// From a moment on so many wait.
fn push_step(line: &mut Line, moment: u64, jobs: u32) -> Result<(), Memory> {
    line.jobs = jobs;
    if let Some(moment) = Second::try_new(moment) {
        line.steps.push(WaitingStep { moment, jobs })?;
    }
    Ok(())
}

// The starts before a moment, each of which waits no more; tells how many they are.
fn push_starts(line: &mut Line, starts: &[u64], before: u64) -> Result<usize, Memory> {
    for (place, start) in starts.iter().enumerate() {
        if *start >= before {
            return Ok(place);
        }
        let jobs = line.jobs.saturating_sub(1);
        push_step(line, *start, jobs)?;
    }
    Ok(starts.len())
}

// How many wait from each change on: one more from each submission that was taken, one less from each start.
fn push_steps(
    line: &mut Line,
    submissions: &[Submission],
    replies: &[Reply],
    starts: &[u64],
) -> Result<(), Memory> {
    let mut rest = starts;
    for (submission, reply) in submissions.iter().zip(replies) {
        if let Reply::Submitted { .. } = reply {
            let moment = submission.moment.get();
            let count = push_starts(line, rest, moment)?;
            rest = rest.get(count..).unwrap_or(&[]);
            let jobs = line.jobs.saturating_add(1);
            push_step(line, moment, jobs)?;
        }
    }
    push_starts(line, rest, u64::MAX)?;
    Ok(())
}

fn waiting_beside(
    alloc: Global,
    plan: &ReplayPlan,
    end: &Replayed,
    starts: &[u64],
) -> Result<Items<WaitingStep>, Memory> {
    let mut line = Line {
        steps: Vec::new(alloc),
        jobs: 0,
    };
    let (submissions, replies) = (plan.submissions.as_slice(), end.replies.as_slice());
    push_steps(&mut line, submissions, replies, starts)?;
    Ok(Items::from_vec(line.steps))
}

fn waiting_of(
    alloc: Global,
    plan: &ReplayPlan,
    end: &Replayed,
    bars: &[PictureBar],
) -> Result<Items<WaitingStep>, Memory> {
    let starts = starts_of(alloc, bars)?;
    waiting_beside(alloc, plan, end, starts.as_slice())
}

fn text_of(alloc: Global, text: &[u8]) -> Result<Items<u8>, Memory> {
    Ok(Items::from_vec(Vec::from_slice(alloc, text)?))
}

fn push_names(alloc: Global, groups: &mut Vec<Items<u8>>, accounts: &[Name]) -> Result<(), Memory> {
    for account in accounts {
        groups.push(text_of(alloc, account.as_bytes())?)?;
    }
    Ok(())
}

// The names of the groups: the accounts, and behind them that of all others.
fn push_groups(
    alloc: Global,
    groups: &mut Vec<Items<u8>>,
    accounts: &[Name],
) -> Result<(), Memory> {
    push_names(alloc, groups, accounts)?;
    if accounts.len() == OWN_COLOURS {
        groups.push(text_of(alloc, b"others")?)?;
    }
    Ok(())
}

fn groups_of(alloc: Global, accounts: &[Name]) -> Result<Items<Items<u8>>, Memory> {
    let mut groups = Vec::new(alloc);
    push_groups(alloc, &mut groups, accounts)?;
    Ok(Items::from_vec(groups))
}

fn first_of(plan: &ReplayPlan) -> u64 {
    match plan.submissions.as_slice() {
        [submission, ..] => submission.moment.get(),
        [] => 0,
    }
}

// What is drawn beside its bars and its nodes.
fn with_bars(
    alloc: Global,
    plan: &ReplayPlan,
    end: &Replayed,
    period: Period,
    bars: Bars,
    nodes: Items<PictureNode>,
) -> Result<Picture, Memory> {
    let waiting = waiting_of(alloc, plan, end, bars.bars.as_slice())?;
    let groups = groups_of(alloc, bars.accounts.as_slice())?;
    Ok(Picture {
        period,
        groups,
        nodes,
        bars: Items::from_vec(bars.bars),
        waiting,
    })
}

// What the picture of a replay shows, by the records of its jobs and of the nodes.
fn scene_of(
    alloc: Global,
    trace: Trace<'_>,
    end: &Replayed,
    jobs: &Reply,
    nodes: &Reply,
    period: Period,
) -> Result<Picture, Memory> {
    let bars = bars_of(alloc, trace, end, jobs)?;
    let nodes = nodes_of(alloc, &bars, nodes, end.played.as_slice())?;
    with_bars(alloc, trace.plan, end, period, bars, nodes)
}

// The time that the picture shows.
fn period_of(plan: &ReplayPlan, end: &Replayed) -> Option<Period> {
    Some(Period {
        first: Second::try_new(first_of(plan))?,
        last: Second::try_new(end.moment)?,
    })
}

fn drawn(
    alloc: Global,
    trace: Trace<'_>,
    end: &Replayed,
    jobs: &Reply,
    nodes: &Reply,
) -> Result<Vec<u8>, Memory> {
    match period_of(trace.plan, end) {
        Some(period) => {
            let scene = scene_of(alloc, trace, end, jobs, nodes, period)?;
            picture(alloc, &scene)
        }
        None => Err(Memory),
    }
}

/// The text of the picture of a replay at a desk, by the records of its jobs: an SVG file. The jobs have the colours of their
/// accounts. The desk is asked for its nodes.
pub(crate) fn picture_text(
    alloc: Global,
    desk: &mut OwnDesk,
    trace: Trace<'_>,
    end: &Replayed,
    jobs: &Reply,
) -> Result<Vec<u8>, Memory> {
    let nodes = look(alloc, desk, end.moment, Query::ShowNode(None))?;
    drawn(alloc, trace, end, jobs, &nodes)
}
