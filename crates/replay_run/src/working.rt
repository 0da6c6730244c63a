//! A trace worked at one cluster.

ghost use Rattle.std.specs.Prelude.{◌≡◌, true, IfOk, OnOk, Ok};
ghost use Rattle.cluster_opening.specs.Cluster.{opening_in};
ghost use Rattle.cluster_opening.specs.Files.{fresh};
ghost use Rattle.ctl_desk.specs.Desk.{state_of};
ghost use Rattle.ctl_state.specs.State.{State};
ghost use Rattle.reply_data.specs.declared.reply.Reply.{Reply};
ghost use Rattle.replay.specs.Replay.{leads_to};
ghost use Rattle.replay_report.specs.Outcomes.{all_outcomes};
ghost use Rattle.replay_run.specs.Replays.{CameTo, HasCome, IsSite, MayBeLookedAt, MayStand, pace_of, processors_in, reports_of};

use crate::gathering::{Records, all_shown, gather};
use crate::picture::picture_text;
use crate::refusal::WorkRefusal;
use crate::watching::{Progress, Watch};
use cluster_opening::{ClusterRefusal, open_desk, renewed};
use conf_reader::read_conf;
use ctl_desk::desk::Desk;
use ctl_desk::own_desk::OwnDesk;
use plain_data::conf::{Conf, NodeConf};
use replay::{Pace, ReplayRefusal, Replayed, Replaying, Rest, begin, finish, go_on};
use replay_report::{JobOutcome, outcomes_of};
use reply_data::reply::Reply;
use resource_profile::{Plain, Steps, start};
use small_texts::memory_error::Memory;
use std::alloc::Global;
use trace_text::{ReplayPlan, Submission, TraceJob};

/// How many entries a book has at least before a replay goes on from a new one.
const MOST_ENTRIES: u64 = 131_072;

/// How many events a replay may have at one book, and how many books: it is spent long before.
const MOST_EVENTS: u32 = 4_000_000_000;

/// It rests behind each event.
const AT_ONCE: Rest = Rest {
    moment: 0,
    entries: 0,
};

/// The jobs of a trace, and what is handed in for them.
#[derive(Clone, Copy)]
pub(crate) struct Trace<'a> {
    pub(crate) jobs: &'a [TraceJob],
    pub(crate) plan: &'a ReplayPlan,
}

/// What came of a trace at a cluster of so many processors.
#[derive(Drop)]
pub(crate) struct Worked {
    pub(crate) processors: u64,
    /// How many passes were made.
    pub(crate) passes: u64,
    pub(crate) outcomes: Vec<JobOutcome>,
    /// The text of the picture, where one is wanted.
    pub(crate) picture: Option<Vec<u8>>,
}

/// A cluster, by the texts of its two files.
#[derive(Clone, Copy)]
struct Site<'a> {
    conf: &'a [u8],
    assocs: &'a [u8],
    /// How many processors it has.
    processors: u64,
    pace: Pace,
    /// How many seconds lie between two looks at the jobs that have ended; None where their records are kept for good.
    looks: Option<u64>,
    /// Whether its picture is wanted.
    is_drawn: bool,
}

/// What is kept of a replay beside what goes on.
#[derive(Drop)]
struct Kept {
    records: Records,
    /// When the jobs that have ended are looked at next.
    look_at: u64,
    /// How many passes were made.
    passes: u64,
}

// How many processors nodes have.
fn processors_in(nodes: &[NodeConf]) -> u64
    ensures { result ≡ processors_in nodes.now }
{
    nodes
        .iter()
        .fold(0, |count, node| count.saturating_add(node.cpus.get()))
}

// How many seconds may lie between two looks. A record is kept for MinJobAge seconds, and passes are no more than the interval
// apart: so each record is there at one look at least.
fn looks_of(conf: &Conf, interval: u64) -> Option<u64> {
    match conf.settings.min_job_age.get() {
        0 => None,
        age => Some(age.saturating_sub(interval) / 2),
    }
}

// How many seconds lie between two reports of all nodes at the most: half of SlurmdTimeout, so that none falls silent. Where that
// says 0 none ever does, and they report only what ends and what they launch.
fn reports_of(conf: &Conf) -> u64
    ensures { result ≡ reports_of conf.now.settings.slurmd_timeout }
{
    match conf.settings.slurmd_timeout.get() {
        0 => u64::MAX,
        timeout => (timeout / 2).max(1),
    }
}

// The pace of a replay. Passes are as far apart as the words say, else as bf_interval says.
fn pace_of(conf: &Conf, interval: Option<u64>) -> Pace
    ensures { result ≡ pace_of interval conf.now }
{
    let usual = conf.settings.bf_interval.get();
    Pace {
        passes: interval.unwrap_or(usual).max(1),
        reports: reports_of(conf),
    }
}

fn site_of<'a>(
    alloc: Global,
    interval: Option<u64>,
    is_drawn: bool,
    conf: &'a [u8],
    assocs: &'a [u8],
) -> Result<Site<'a>, ClusterRefusal>
    ensures conf { IfOk result (λ site. site.conf.now ≡ conf.now) }
    ensures assocs { IfOk result (λ site. site.assocs.now ≡ assocs.now) }
    ensures is { IfOk result (λ site. IsSite interval conf.now site.pace site.processors) }
{
    let said = read_conf(alloc, conf)?;
    let pace = pace_of(&said, interval);
    Ok(Site {
        conf,
        assocs,
        processors: processors_in(said.nodes.as_slice()),
        pace,
        looks: looks_of(&said, pace.passes),
        is_drawn,
    })
}

fn of_replay(refusal: ReplayRefusal) -> WorkRefusal {
    match refusal {
        ReplayRefusal::Spent => WorkRefusal::Spent,
        ReplayRefusal::Memory => WorkRefusal::Memory,
    }
}

// Makes the next event.
fn make_event(
    alloc: Global,
    site: &Site<'_>,
    submissions: &[Submission],
    desk: &mut OwnDesk,
    steps: &mut Steps<Plain>,
    replaying: Replaying,
) -> Result<Replaying, WorkRefusal>
    ensures { IfOk result (λ after. leads_to site.now.pace submissions.now (state_of desk.new) after
        ≡ leads_to site.now.pace submissions.now (state_of desk.old) replaying) }
{
    let rest = Some(AT_ONCE);
    match go_on(alloc, site.pace, submissions, rest, desk, steps, replaying) {
        Ok(replaying) => Ok(replaying),
        Err(refusal) => Err(of_replay(refusal)),
    }
}

// Looks at the jobs that have ended, where it is time for that.
fn look(
    alloc: Global,
    site: &Site<'_>,
    desk: &mut OwnDesk,
    moment: u64,
    kept: &mut Kept,
) -> Result<(), Memory>
    ensures { OnOk result (MayBeLookedAt (state_of desk.old) (state_of desk.new)) }
{
    match site.looks {
        Some(seconds) if kept.look_at <= moment => {
            kept.look_at = moment.saturating_add(seconds);
            gather(alloc, desk, moment, &mut kept.records)
        }
        _ => Ok(()),
    }
}

// Goes on by an event, in which a pass is made.
fn go_further(
    alloc: Global,
    site: &Site<'_>,
    submissions: &[Submission],
    desk: &mut OwnDesk,
    steps: &mut Steps<Plain>,
    replaying: Replaying,
    kept: &mut Kept,
) -> Result<Replaying, WorkRefusal>
    requires { MayStand site.now.conf.now site.now.assocs.now site.now.pace submissions.now (state_of desk.old) replaying }
    ensures { IfOk result (λ after.
        MayStand site.now.conf.now site.now.assocs.now site.now.pace submissions.now (state_of desk.new) after) }
{
    let replaying = make_event(alloc, site, submissions, desk, steps, replaying)?;
    look(alloc, site, desk, replaying.moment(), kept)?;
    kept.passes = kept.passes.saturating_add(1);
    Ok(replaying)
}

// How far a replay is: what is due was handed in.
fn progress_of(submissions: &[Submission], moment: u64, passes: u64) -> Progress {
    Progress {
        handed_in: submissions
            .iter()
            .filter(|submission| submission.moment.get() <= moment)
            .count(),
        jobs: submissions.len(),
        passes,
    }
}

// Whether a desk's history has grown long.
fn is_full(desk: &OwnDesk) -> bool {
    desk.seen_len() >= MOST_ENTRIES
}

// Makes events at a desk until all is over, or its history has grown long.
fn work_on<W: Watch>(
    alloc: Global,
    site: &Site<'_>,
    submissions: &[Submission],
    desk: &mut OwnDesk,
    steps: &mut Steps<Plain>,
    replaying: Replaying,
    kept: &mut Kept,
    watch: &mut W,
) -> Result<Replaying, WorkRefusal>
    requires { MayStand site.now.conf.now site.now.assocs.now site.now.pace submissions.now (state_of desk.old) replaying }
    ensures { IfOk result (λ after.
        MayStand site.now.conf.now site.now.assocs.now site.now.pace submissions.now (state_of desk.new) after) }
{
    let mut replaying = replaying;
    for _ in 0..MOST_EVENTS {
        if is_full(desk) || replaying.is_over() {
            return Ok(replaying);
        }
        replaying = go_further(alloc, site, submissions, desk, steps, replaying, kept)?;
        if watch.is_due() {
            watch.tell(progress_of(submissions, replaying.moment(), kept.passes));
        }
    }
    Err(WorkRefusal::Spent)
}

// A desk with room for more, where the replay goes on: a new one, where the history has grown long.
fn with_room(
    alloc: Global,
    site: &Site<'_>,
    submissions: &[Submission],
    desk: OwnDesk,
    replaying: Replaying,
) -> Result<(OwnDesk, Replaying), WorkRefusal>
    requires { MayStand site.now.conf.now site.now.assocs.now site.now.pace submissions.now (state_of desk) replaying }
    ensures { IfOk result (λ way.
        MayStand site.now.conf.now site.now.assocs.now site.now.pace submissions.now (state_of way.0) way.1) }
{
    if !is_full(&desk) {
        return Ok((desk, replaying));
    }
    match renewed(alloc, site.conf, site.assocs, desk) {
        Ok(desk) => Ok((desk, replaying)),
        Err(refusal) => Err(WorkRefusal::BadCluster(refusal)),
    }
}

// Makes the events of a replay that one desk has room for; tells where it goes on.
fn work_at<W: Watch>(
    alloc: Global,
    site: &Site<'_>,
    submissions: &[Submission],
    desk: OwnDesk,
    steps: &mut Steps<Plain>,
    replaying: Replaying,
    kept: &mut Kept,
    watch: &mut W,
) -> Result<(OwnDesk, Replaying), WorkRefusal>
    requires { MayStand site.now.conf.now site.now.assocs.now site.now.pace submissions.now (state_of desk) replaying }
    ensures { IfOk result (λ way.
        MayStand site.now.conf.now site.now.assocs.now site.now.pace submissions.now (state_of way.0) way.1) }
{
    let mut desk = desk;
    match work_on(
        alloc,
        site,
        submissions,
        &mut desk,
        steps,
        replaying,
        kept,
        watch,
    ) {
        Ok(replaying) => with_room(alloc, site, submissions, desk, replaying),
        Err(refusal) => {
            desk.into_book().let_go();
            Err(refusal)
        }
    }
}

// Works a replay until it is over, at one desk after the other.
fn work_through<W: Watch>(
    alloc: Global,
    site: &Site<'_>,
    submissions: &[Submission],
    desk: OwnDesk,
    replaying: Replaying,
    kept: &mut Kept,
    watch: &mut W,
) -> Result<(OwnDesk, Replaying), WorkRefusal>
    requires { MayStand site.now.conf.now site.now.assocs.now site.now.pace submissions.now (state_of desk) replaying }
    ensures stands { IfOk result (λ way.
        MayStand site.now.conf.now site.now.assocs.now site.now.pace submissions.now (state_of way.0) way.1) }
    ensures over { IfOk result (λ way. way.1.over ≡ true) }
{
    let mut steps = start();
    let mut desk = desk;
    let mut replaying = replaying;
    for _ in 0..MOST_EVENTS {
        let (next, after) = work_at(
            alloc,
            site,
            submissions,
            desk,
            &mut steps,
            replaying,
            kept,
            watch,
        )?;
        desk = next;
        replaying = after;
        if replaying.is_over() {
            return Ok((desk, replaying));
        }
    }
    desk.into_book().let_go();
    Err(WorkRefusal::Spent)
}

// The picture of a replay, where one is wanted.
fn draw(
    alloc: Global,
    site: &Site<'_>,
    desk: &mut OwnDesk,
    trace: Trace<'_>,
    end: &Replayed,
    shown: &Reply,
) -> Result<Option<Vec<u8>>, Memory> {
    if site.is_drawn {
        Ok(Some(picture_text(alloc, desk, trace, end, shown)?))
    } else {
        Ok(None)
    }
}

// What a replay came to, by the records of its jobs.
fn worked_of(
    alloc: Global,
    site: &Site<'_>,
    desk: &mut OwnDesk,
    trace: Trace<'_>,
    end: &Replayed,
    shown: &Reply,
    passes: u64,
) -> Result<Worked, Memory>
    ensures processors { IfOk result (λ worked. worked.processors ≡ site.now.processors) }
    ensures outcomes { IfOk result (λ worked. worked.outcomes.items ≡ all_outcomes trace.entry.jobs.now
        trace.entry.plan.now.submissions.items trace.entry.plan.now.left_out.items end.now.replies.items shown.now) }
{
    let picture = draw(alloc, site, desk, trace, end, shown)?;
    let replies = end.replies.as_slice();
    let outcomes = outcomes_of(alloc, trace.jobs, trace.plan, replies, shown)?;
    Ok(Worked {
        processors: site.processors,
        passes,
        outcomes,
        picture,
    })
}

// What a replay came to that is over, with the records of all its jobs that were seen.
fn ended(
    alloc: Global,
    site: &Site<'_>,
    desk: &mut OwnDesk,
    trace: Trace<'_>,
    replaying: Replaying,
    kept: &mut Kept,
) -> Result<Worked, Memory>
    ensures processors { IfOk result (λ worked. worked.processors ≡ site.now.processors) }
    ensures outcomes { IfOk result (λ worked. (shown : Reply) × (worked.outcomes.items ≡ all_outcomes trace.entry.jobs.now
        trace.entry.plan.now.submissions.items trace.entry.plan.now.left_out.items replaying.course.replies.items shown)) }
{
    let end = finish(alloc, desk, replaying)?;
    let shown = all_shown(alloc, &end, &mut kept.records)?;
    worked_of(alloc, site, desk, trace, &end, &shown, kept.passes)
}

// The same, where the desk is let go of.
fn ended_at(
    alloc: Global,
    site: &Site<'_>,
    desk: OwnDesk,
    trace: Trace<'_>,
    replaying: Replaying,
    kept: &mut Kept,
) -> Result<Worked, WorkRefusal>
    ensures processors { IfOk result (λ worked. worked.processors ≡ site.now.processors) }
    ensures outcomes { IfOk result (λ worked. (shown : Reply) × (worked.outcomes.items ≡ all_outcomes trace.entry.jobs.now
        trace.entry.plan.now.submissions.items trace.entry.plan.now.left_out.items replaying.course.replies.items shown)) }
{
    let mut desk = desk;
    let worked = ended(alloc, site, &mut desk, trace, replaying, kept);
    desk.into_book().let_go();
    match worked {
        Ok(worked) => Ok(worked),
        Err(Memory) => Err(WorkRefusal::Memory),
    }
}

// Works a replay that has begun.
fn work_begun<W: Watch>(
    alloc: Global,
    site: &Site<'_>,
    desk: OwnDesk,
    trace: Trace<'_>,
    replaying: Replaying,
    watch: &mut W,
) -> Result<Worked, WorkRefusal>
    requires { MayStand site.now.conf.now site.now.assocs.now site.now.pace trace.plan.now.submissions.items (state_of desk) replaying }
    ensures processors { IfOk result (λ worked. worked.processors ≡ site.now.processors) }
    ensures outcomes { IfOk result (λ worked. HasCome site.now.conf.now site.now.assocs.now site.now.pace trace.entry.jobs.now
        trace.entry.plan.now worked.outcomes.items) }
{
    let mut kept = Kept {
        records: Records::new(alloc),
        look_at: 0,
        passes: 0,
    };
    let submissions = trace.plan.submissions.as_slice();
    let (desk, replaying) = work_through(
        alloc,
        site,
        submissions,
        desk,
        replaying,
        &mut kept,
        watch,
    )?;
    watch.end(progress_of(submissions, replaying.moment(), kept.passes));
    ended_at(alloc, site, desk, trace, replaying, &mut kept)
}

// Works a replay at a desk at which nothing was asked, and lets the desk go.
fn replayed<W: Watch>(
    alloc: Global,
    site: &Site<'_>,
    desk: OwnDesk,
    trace: Trace<'_>,
    watch: &mut W,
) -> Result<Worked, WorkRefusal>
    requires { (s : State) × (opening_in site.now.conf.now site.now.assocs.now ≡ Ok s) × (desk ≡ fresh s) }
    ensures processors { IfOk result (λ worked. worked.processors ≡ site.now.processors) }
    ensures outcomes { IfOk result (λ worked. HasCome site.now.conf.now site.now.assocs.now site.now.pace trace.entry.jobs.now
        trace.entry.plan.now worked.outcomes.items) }
{
    let mut desk = desk;
    match begin(alloc, trace.plan.submissions.as_slice(), &mut desk) {
        Ok(replaying) => {
            watch.begin();
            work_begun(alloc, site, desk, trace, replaying, watch)
        }
        Err(Memory) => {
            desk.into_book().let_go();
            Err(WorkRefusal::Memory)
        }
    }
}

/// Works a trace at the cluster of a slurm.conf(5) and an association file, and draws its picture where that is wanted. Where the
/// history grows long the replay goes on from a new book, which opens as the cluster stands, so that its length costs no more
/// memory.
pub(crate) fn work<W: Watch>(
    alloc: Global,
    interval: Option<u64>,
    is_drawn: bool,
    conf: &[u8],
    assocs: &[u8],
    trace: Trace<'_>,
    watch: &mut W,
) -> Result<Worked, WorkRefusal>
    ensures { IfOk result (λ worked.
        CameTo interval conf.now assocs.now trace.entry.jobs.now trace.entry.plan.now worked.processors worked.outcomes.items) }
{
    let site = match site_of(alloc, interval, is_drawn, conf, assocs) {
        Ok(site) => site,
        Err(refusal) => return Err(WorkRefusal::BadCluster(refusal)),
    };
    match open_desk(alloc, conf, assocs) {
        Ok(desk) => replayed(alloc, &site, desk, trace, watch),
        Err(refusal) => Err(WorkRefusal::BadCluster(refusal)),
    }
}
