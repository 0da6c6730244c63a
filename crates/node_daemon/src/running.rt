//! What runs on a node.

ghost use Rattle.std.specs.Prelude.{◌≡◌, ◌≤◌, ◌+◌, ◌++◌, unwrap_or, option_map, map, length, vec_len, vec_capacity, IfOk};
ghost use Rattle.node_daemon.specs.Daemon.{has_ended, is_over, launched, not_killed, script_begun, still_running, told_of, told_over};

use crate::starts::is_among;
use plain_data::CpuIds;
use reply_data::orders::{Launch, Starts};
use request_data::report::{Done, Start};
use small_texts::memory_error::Memory;
use std::alloc::Global;

/// A script that ends by itself.
#[derive(Clone, Copy, Debug, PartialEq, Eq)]
pub struct Script {
    /// The second at which it began.
    pub begun: u64,
    /// How long it runs, in seconds.
    pub run: u32,
    /// The exit code that it ends with.
    pub exit: u32,
}

/// A start that runs on the node.
#[derive(Drop)]
pub struct Running {
    pub start: Start,
    /// The processors that it has.
    pub cpus: CpuIds,
    /// The memory that it has, in megabytes.
    pub mem: u64,
    /// Its script, where this node runs it; elsewhere the start runs until it is killed.
    pub script: Option<Script>,
}

impl Script {
    // Whether it has ended at a moment.
    fn has_ended(&self, now: u64) -> bool
        ensures { result ≡ has_ended now self.now }
    {
        self.begun <= now && u64::from(self.run) <= now - self.begun
    }
}

impl Running {
    // What runs once this was launched.
    fn of_launch(launch: &Launch, now: u64) -> Running
        ensures { result ≡ launched now launch.now }
    {
        Running {
            start: launch.start,
            cpus: launch.cpus.copy(),
            mem: launch.mem,
            script: script_of(launch, now),
        }
    }

    // Whether it is over at a moment.
    fn is_over(&self, now: u64) -> bool
        ensures { result ≡ is_over now self.now }
    {
        match &self.script {
            Some(script) => script.has_ended(now),
            None => false,
        }
    }

    // What is told of it once it is over.
    fn told(&self) -> Option<Done>
        ensures { result ≡ told_of self.now }
    {
        let script = self.script?;
        Some(Done {
            start: self.start,
            exit: script.exit,
        })
    }
}

// The script that begins when this is launched, where it runs on this node. Without an exit code it ends with 0.
fn script_of(launch: &Launch, now: u64) -> Option<Script>
    ensures { result ≡ option_map (script_begun now (unwrap_or launch.now.exit 0)) launch.now.run }
{
    let run = launch.run?;
    Some(Script {
        begun: now,
        run,
        exit: launch.exit.unwrap_or(0),
    })
}

/// What is told of those that are over at a moment. Linear in what runs.
pub(crate) fn told_over(alloc: Global, running: &[Running], now: u64) -> Result<Vec<Done>, Memory>
    ensures { IfOk result (λ told. told.items ≡ told_over now running.now) }
{
    Ok(
        running
            .iter()
            .filter(|one| one.is_over(now))
            .filter_map(|one| one.told())
            .collect(alloc)?,
    )
}

/// The starts that go on at a moment. Linear in what runs.
pub(crate) fn starts_left(
    alloc: Global,
    running: &[Running],
    now: u64,
) -> Result<Vec<Start>, Memory>
    ensures { IfOk result (λ starts. starts.items
        ≡ map (λ (one : Running). one.start) (still_running now running.now)) }
{
    Ok(
        running
            .iter()
            .filter(|one| !one.is_over(now))
            .map(|one| one.start)
            .collect(alloc)?,
    )
}

/// Drops those that are over at a moment. Linear in what runs; it takes no memory.
pub(crate) fn drop_over(running: &mut Vec<Running>, now: u64)
    ensures { running.new.items ≡ still_running now running.old.items }
{
    running.retain(|one| !one.is_over(now));
}

/// What runs of these launches. Linear in them.
pub(crate) fn launched(alloc: Global, launches: &[Launch], now: u64) -> Result<Vec<Running>, Memory>
    ensures running { IfOk result (λ running. running.items ≡ map (launched now) launches.now) }
    ensures len { IfOk result (λ running. vec_len running ≡ length launches.now) }
{
    Ok(
        launches
            .iter()
            .map(|launch| Running::of_launch(launch, now))
            .collect(alloc)?,
    )
}

/// Drops those that are to be killed. Linear in what runs, and for each of them logarithmic in what is to be killed; it
/// takes no memory.
pub(crate) fn kill(running: &mut Vec<Running>, kills: &Starts)
    ensures left { running.new.items ≡ not_killed kills.now running.old.items }
    ensures fewer { vec_len running.new ≤ vec_len running.old }
    ensures room { vec_capacity running.new ≡ vec_capacity running.old }
{
    running.retain(|one| !is_among(kills, &one.start));
}

/// Has these run beside the others, for which there is room. Linear in them.
pub(crate) fn run_also(running: &mut Vec<Running>, more: Vec<Running>)
    requires { vec_len running.old + vec_len more ≤ vec_capacity running.old }
    ensures { running.new.items ≡ running.old.items ++ more.items }
{
    let mut more = more;
    running.append(&mut more).unwrap();
}
