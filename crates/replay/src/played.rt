//! A daemon that is played.

ghost use Rattle.std.specs.Prelude.{◌≡◌, ◌++◌, IfOk, OnOk, map, filter_map, option_map};
ghost use Rattle.node_daemon.specs.Daemon.{is_among, is_same};
ghost use Rattle.replay.specs.Replay.{ended_start, ended_starts, has_ended, is_killed, is_running, later, least, run_of, runs_left, runs_ordered};

use node_daemon::daemon::DaemonState;
use plain_data::items::Items;
use reply_data::orders::Launch;
use reply_data::reply::Reply;
use request_data::report::Start;
use small_texts::memory_error::Memory;
use std::alloc::Global;
use std::mem;

/// What a daemon was ordered to run (own).
#[derive(Clone, Copy)]
pub struct Run {
    pub start: Start,
    /// The second of its launch.
    pub begun: u64,
    /// When it ends by itself; None elsewhere than on the batch host.
    pub end: Option<u64>,
    /// How many processors it has there.
    pub processors: u32,
}

/// The daemon of a node (own).
#[derive(Drop)]
pub struct Played {
    pub daemon: DaemonState,
    /// What it was ordered to run, and hasn't told to be over.
    pub runs: Items<Run>,
    /// All that it was ever ordered to launch, in this order.
    pub launched: Items<Run>,
    /// Whether the controller held other processors of its node than it ran on, when that was looked at last.
    pub called: bool,
}

fn end_of(now: u64, launch: &Launch) -> Option<u64>
    ensures { result ≡ option_map (λ run. later now run) launch.now.run }
{
    match launch.run {
        Some(run) => Some(now.saturating_add(u64::from(run))),
        None => None,
    }
}

fn run_of(now: u64, launch: &Launch) -> Run
    ensures { result ≡ run_of now launch.now }
{
    Run {
        start: launch.start,
        begun: now,
        end: end_of(now, launch),
        processors: launch.cpus.len() as u32,
    }
}

// What launches bring.
fn runs_launched(alloc: Global, now: u64, launches: &[Launch]) -> Result<Vec<Run>, Memory>
    ensures { IfOk result (λ runs. runs.items ≡ map (run_of now) launches.now) }
{
    Ok(
        launches
            .iter()
            .map(|launch| run_of(now, launch))
            .collect(alloc)?,
    )
}

// What orders bring.
fn runs_ordered(alloc: Global, now: u64, reply: &Reply) -> Result<Vec<Run>, Memory>
    ensures { IfOk result (λ runs. runs.items ≡ runs_ordered now reply.now) }
{
    match reply {
        Reply::Orders(orders) => runs_launched(alloc, now, orders.launches.as_slice()),
        _ => Ok(Vec::new(alloc)),
    }
}

/// Whether a run has ended by itself.
pub(crate) fn has_ended(now: u64, run: &Run) -> bool
    ensures { result ≡ has_ended now run.now }
{
    match run.end {
        Some(end) => end <= now,
        None => false,
    }
}

fn is_same(one: &Start, other: &Start) -> bool
    ensures { result ≡ is_same one.now other.now }
{
    one.id == other.id && one.number == other.number
}

/// Whether a start is among these.
pub(crate) fn is_among(starts: &[Start], start: &Start) -> bool
    ensures { result ≡ is_among starts.now start.now }
{
    starts.iter().any(|one| is_same(one, start))
}

// Whether orders say to kill a run.
fn is_killed(reply: &Reply, run: &Run) -> bool
    ensures { result ≡ is_killed reply.now run.now }
{
    match reply {
        Reply::Orders(orders) => is_among(orders.kills.as_slice(), &run.start),
        _ => false,
    }
}

// The runs that go on.
fn runs_left(alloc: Global, now: u64, reply: &Reply, runs: &[Run]) -> Result<Vec<Run>, Memory>
    ensures { IfOk result (λ left. left.items ≡ runs_left now reply.now runs.now) }
{
    Ok(
        runs.iter()
            .copied()
            .filter(|run| !has_ended(now, run) && !is_killed(reply, run))
            .collect(alloc)?,
    )
}

/// The runs behind a reply.
pub(crate) fn runs_behind(
    alloc: Global,
    now: u64,
    runs: &Items<Run>,
    reply: &Reply,
) -> Result<Items<Run>, Memory>
    ensures { IfOk result (λ behind. behind ≡ runs_left now reply.now runs.now ++ runs_ordered now reply.now) }
{
    let mut behind = runs_left(alloc, now, reply, runs.as_slice())?;
    let ordered = runs_ordered(alloc, now, reply)?;
    behind.extend_from_slice(ordered.as_slice())?;
    Ok(Items::from_vec(behind))
}

/// Notes what orders bring.
pub(crate) fn note_launches(
    alloc: Global,
    now: u64,
    launched: &mut Items<Run>,
    reply: &Reply,
) -> Result<(), Memory>
    ensures { OnOk result (launched.new ≡ launched.old ++ runs_ordered now reply.now) }
{
    let ordered = runs_ordered(alloc, now, reply)?;
    let mut all = mem::replace(launched, Items::from_vec(Vec::new(alloc))).into_vec();
    all.extend_from_slice(ordered.as_slice())?;
    *launched = Items::from_vec(all);
    Ok(())
}

fn ended_start(now: u64, run: &Run) -> Option<Start>
    ensures { result ≡ ended_start now run.now }
{
    if has_ended(now, run) {
        Some(run.start)
    } else {
        None
    }
}

// The starts of those that have ended by themselves.
fn ended_runs(alloc: Global, now: u64, runs: &[Run]) -> Result<Vec<Start>, Memory>
    ensures { IfOk result (λ starts. starts.items ≡ filter_map (ended_start now) runs.now) }
{
    Ok(
        runs.iter()
            .filter_map(|run| ended_start(now, run))
            .collect(alloc)?,
    )
}

/// The starts that have ended by themselves on any node.
pub(crate) fn ended_starts(alloc: Global, now: u64, played: &[Played]) -> Result<Vec<Start>, Memory>
    ensures { IfOk result (λ starts. starts.items ≡ ended_starts now played.now) }
{
    let mut starts = Vec::new(alloc);
    for one in played {
        let ended = ended_runs(alloc, now, one.runs.as_slice())?;
        starts.extend_from_slice(ended.as_slice())?;
    }
    Ok(starts)
}

/// The least of the ends, or another moment before them.
pub(crate) fn least(most: u64, runs: &[Run]) -> u64
    ensures { result ≡ least most runs.now }
{
    runs.iter()
        .fold(most, |least, run| least.min(run.end.unwrap_or(least)))
}

/// Whether something runs that will end by itself.
pub(crate) fn is_running(one: &Played) -> bool
    ensures { result ≡ is_running one.now }
{
    one.runs.as_slice().iter().any(|run| run.end.is_some())
}
