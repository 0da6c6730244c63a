//! The daemon of a node.

ghost use Rattle.std.specs.Prelude.{◌≡◌, ◌<◌, ◌+◌, ◌^◌, IfOk, OnOk, OnErr};
ghost use Rattle.std.specs.Bool.{Decides};
ghost use Rattle.node_daemon.specs.Daemon.{accepted, are_due, finished, given, polled, reported, started};

use crate::over::{forget, with_over};
use crate::running::{Running, drop_over, kill, launched, run_also, starts_left};
use plain_data::items::Items;
use reply_data::orders::Orders;
use request_data::report::{Done, Report};
use small_texts::memory_error::Memory;
use small_texts::name::Name;
use std::alloc::Global;
use std::marker::Model;

/// The daemon of one node, as the controller meets it (own). It keeps what it was launched to run, with the processors
/// and the memory that each start was given, what is over and not forgotten, and how far its reports are.
#[derive(Drop)]
pub struct DaemonState {
    node: Name,
    /// Which of the daemon's lives it is.
    boot: u64,
    /// The number of its last report; 0 before the first.
    number: u64,
    running: Vec<Running>,
    over: Vec<Done>,
    /// Whether orders for its last report were taken, or there is none.
    taken: bool,
}

impl Model for DaemonState {
    ghost use Rattle.node_daemon.specs.Daemon.{Daemon};

    ghost Value = { Daemon };

    ghost view = { λ d. record {
      node = d.node;
      boot = d.boot;
      number = d.number;
      running = d.running.items;
      over = d.over.items;
      taken = d.taken;
    } };
}

impl DaemonState {
    /// A daemon that was just started. One that was restarted has a greater boot number, and nothing of what ran
    /// before.
    pub fn new(alloc: Global, node: &Name, boot: u64) -> Result<DaemonState, Memory>
        ensures { IfOk result (λ daemon. daemon ≡ started node.now boot) }
    {
        Ok(DaemonState {
            node: node.copy()?,
            boot,
            number: 0,
            running: Vec::new(alloc),
            over: Vec::new(alloc),
            taken: true,
        })
    }

    /// Whether there is a number for a further report. It takes no memory.
    pub fn can_report(&self) -> bool
        ensures { Decides result (self.now.number + 1 < 2 ^ 64) }
    {
        self.number < u64::MAX
    }

    /// Sees which scripts have ended at a moment, and tells what runs and what is over, in a report with the next
    /// number. Linear in these. After want of memory it is as it was.
    pub fn poll(&mut self, now: u64) -> Result<Report, Memory>
        requires { self.old.number + 1 < 2 ^ 64 }
        ensures report { IfOk result (λ report. report ≡ reported (polled now self.old)) }
        ensures after { OnOk result (self.new ≡ polled now self.old) }
        ensures err { OnErr result (self.new ≡ self.old) }
    {
        let alloc = *self.over.allocator();
        let over = with_over(alloc, self.over.as_slice(), self.running.as_slice(), now)?;
        let report = self.report(over.as_slice(), now)?;
        self.finish(over, now);
        Ok(report)
    }

    // The next report, where these are over at its moment.
    fn report(&self, over: &[Done], now: u64) -> Result<Report, Memory>
        requires last { self.now.number + 1 < 2 ^ 64 }
        requires over { over.now ≡ (finished now self.now).over }
        ensures { IfOk result (λ report. report ≡ reported (polled now self.now)) }
    {
        let alloc = *self.over.allocator();
        Ok(Report {
            node: self.node.copy()?,
            boot: self.boot,
            number: self.number + 1,
            running: Items::from_vec(starts_left(alloc, self.running.as_slice(), now)?),
            done: Items::from_vec(Vec::from_slice(alloc, over)?),
        })
    }

    // Goes on to what it has told: these are over.
    fn finish(&mut self, over: Vec<Done>, now: u64)
        requires last { self.old.number + 1 < 2 ^ 64 }
        requires over { over.items ≡ (finished now self.old).over }
        ensures { self.new ≡ polled now self.old }
    {
        drop_over(&mut self.running, now);
        self.over = over;
        self.number += 1;
        self.taken = false;
    }

    /// Takes orders at a moment, where they are for its last report, and none for it were taken; tells whether it did.
    /// Linear in what runs, what is over and what is launched, times the logarithm of what is killed and forgotten.
    /// After want of memory it is as it was.
    pub fn accept(&mut self, orders: &Orders, now: u64) -> Result<bool, Memory>
        ensures due { IfOk result (λ accepts. accepts ≡ are_due orders.now self.old) }
        ensures after { OnOk result (self.new ≡ given now orders.now self.old) }
        ensures err { OnErr result (self.new ≡ self.old) }
    {
        if !self.are_due(orders) {
            return Ok(false);
        }
        self.obey(orders, now)?;
        Ok(true)
    }

    // Whether the orders are for its last report, and none for it were taken.
    fn are_due(&self, orders: &Orders) -> bool
        ensures { result ≡ are_due orders.now self.now }
    {
        !self.taken
            && self.node.is(&orders.node)
            && self.boot == orders.boot
            && self.number == orders.number
    }

    // Does what is ordered.
    fn obey(&mut self, orders: &Orders, now: u64) -> Result<(), Memory>
        ensures ok { OnOk result (self.new ≡ accepted now orders.now self.old) }
        ensures err { OnErr result (self.new ≡ self.old) }
    {
        let launches = orders.launches.as_slice();
        self.running.reserve(launches.len())?;
        let more = launched(*self.over.allocator(), launches, now)?;
        kill(&mut self.running, &orders.kills);
        run_also(&mut self.running, more);
        forget(&mut self.over, &orders.forgets);
        self.taken = true;
        Ok(())
    }
}
