//! Orders in the making.

ghost use Rattle.std.specs.Prelude.{◌≡◌, ◌<◌, ◌++◌, ◌∷◌, [], IfOk, length, option_map};
ghost use Rattle.reply_data.specs.Starts.{is_before};
ghost use Rattle.reply_data.specs.declared.orders.Launch.{Launch};
ghost use Rattle.orders_text.specs.Drafts.{Adds, TakesLine, comes_behind, last_of, nothing};
ghost use Rattle.orders_text.specs.Fields.{FitsStart};
ghost use Rattle.orders_text.specs.Orders.{AreOrders, FitsLaunch, FitsOrder, listed};
ghost use Rattle.orders_text.specs.declared.order.Order.TheVariants as order;

use crate::order::{Order, read_order};
use reply_data::orders::{Launch, Launches, Orders, Starts};
use request_data::report::Start;
use small_texts::memory_error::Memory;
use small_texts::name::Name;
use std::alloc::Global;
use std::marker::Model;

/// What was ordered so far, each kind for itself.
#[derive(Drop)]
pub(crate) struct Draft {
    kills: Vec<Start>,
    forgets: Vec<Start>,
    launches: Vec<Launch>,
}

impl Model for Draft {
    ghost use Rattle.orders_text.specs.Orders.{Listed};

    ghost Value = { Listed };

    ghost view = { λ d. record { kills = d.kills.items; forgets = d.forgets.items; launches = d.launches.items } };
}

// Whether one start comes before another.
fn is_before(one: &Start, other: &Start) -> bool
    ensures { result ≡ is_before one.now other.now }
{
    one.id < other.id || (one.id == other.id && one.number < other.number)
}

// Whether the start may stand behind these.
fn comes_behind(starts: &[Start], start: &Start) -> bool
    ensures { result ≡ comes_behind (last_of starts.now) start.now }
{
    match starts.last() {
        Some(last) => is_before(last, start),
        None => true,
    }
}

// Whether the launch may stand behind these.
fn launches_behind(launches: &[Launch], launch: &Launch) -> bool
    ensures { result ≡ comes_behind (option_map (λ (one : Launch). one.start) (last_of launches.now)) launch.now.start }
{
    match launches.last() {
        Some(last) => is_before(&last.start, &launch.start),
        None => true,
    }
}

impl Draft {
    /// Nothing is ordered.
    pub(crate) fn new(alloc: Global) -> Draft
        ensures { result ≡ nothing }
    {
        Draft {
            kills: Vec::new(alloc),
            forgets: Vec::new(alloc),
            launches: Vec::new(alloc),
        }
    }

    fn add_kill(&mut self, start: Start) -> Result<bool, Memory>
        requires orders { AreOrders self.old }
        requires fits { FitsStart start }
        ensures { IfOk result (Adds self.old self.new (order.Kill start)) }
    {
        if !self.forgets.is_empty() || !self.launches.is_empty() {
            return Ok(false);
        }
        if !comes_behind(self.kills.as_slice(), &start) {
            return Ok(false);
        }
        self.kills.push(start)?;
        Ok(true)
    }

    fn add_forget(&mut self, start: Start) -> Result<bool, Memory>
        requires orders { AreOrders self.old }
        requires fits { FitsStart start }
        ensures { IfOk result (Adds self.old self.new (order.Forget start)) }
    {
        if !self.launches.is_empty() {
            return Ok(false);
        }
        if !comes_behind(self.forgets.as_slice(), &start) {
            return Ok(false);
        }
        self.forgets.push(start)?;
        Ok(true)
    }

    fn add_launch(&mut self, launch: Launch) -> Result<bool, Memory>
        requires orders { AreOrders self.old }
        requires fits { FitsLaunch launch }
        ensures { IfOk result (Adds self.old self.new (order.Launch launch)) }
    {
        if !launches_behind(self.launches.as_slice(), &launch) {
            return Ok(false);
        }
        self.launches.push(launch)?;
        Ok(true)
    }

    // Adds an order, where it may stand behind the others.
    fn add(&mut self, order: Order) -> Result<bool, Memory>
        requires orders { AreOrders self.old }
        requires fits { FitsOrder order }
        ensures { IfOk result (Adds self.old self.new order) }
    {
        match order {
            Order::Kill(start) => self.add_kill(start),
            Order::Forget(start) => self.add_forget(start),
            Order::Launch(launch) => self.add_launch(launch),
        }
    }

    /// Adds the order that a line is, where it is one and may stand behind the others.
    pub(crate) fn read_line(&mut self, alloc: Global, line: &[u8]) -> Result<bool, Memory>
        requires orders { AreOrders self.old }
        requires some { 0 < length line.now }
        ensures { IfOk result (TakesLine self.old self.new line.now) }
    {
        match read_order(alloc, line)? {
            Some(order) => self.add(order),
            None => Ok(false),
        }
    }

    /// These orders for a node, in answer to a report.
    pub(crate) fn into_orders(self, node: Name, boot: u64, number: u64) -> Orders
        requires { AreOrders self }
        ensures head { (result.node ≡ node) × (result.boot ≡ boot) × (result.number ≡ number) }
        ensures listed { listed result ≡ self }
    {
        Orders {
            node,
            boot,
            number,
            kills: Starts::from_vec(self.kills),
            forgets: Starts::from_vec(self.forgets),
            launches: Launches::from_vec(self.launches),
        }
    }
}
