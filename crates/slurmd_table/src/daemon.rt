// The daemon of a node: what it tells when it polls, and which orders it takes.

use crate::orders::push_start;
use node_daemon::daemon::DaemonState;
use orders_text::{OrdersRefusal, read_orders};
use reply_data::orders::Orders;
use request_data::report::{Done, Report};
use small_texts::name::Name;
use std::alloc::Global;
use table_lines::answer::{Unanswered, push};
use table_lines::fields::{LONGEST, number};

// Puts what is over behind what is there, with its exit code.
fn push_done(out: &mut Vec<u8>, done: &Done) -> Result<(), Unanswered> {
    push_start(out, b" over ", &done.start)?;
    out.extend_from_slice(b" exit ")?;
    push(out, &done.exit)
}

// Puts what a report says behind what is there: its number, what runs, and what is over.
fn push_report(out: &mut Vec<u8>, report: &Report) -> Result<(), Unanswered> {
    out.extend_from_slice(b"report ")?;
    push(out, &report.number)?;
    for start in report.running.as_slice() {
        push_start(out, b" runs ", start)?;
    }
    for done in report.done.as_slice() {
        push_done(out, done)?;
    }
    Ok(())
}

// The daemon polls.
fn poll(out: &mut Vec<u8>, daemon: &mut DaemonState, now: u64) -> Result<(), Unanswered> {
    if !daemon.can_report() {
        return Err(Unanswered::Arguments);
    }
    let report = daemon.poll(now)?;
    push_report(out, &report)
}

// The orders that a text is.
fn orders_of(alloc: Global, text: &[u8], node: &Name) -> Result<Orders, Unanswered> {
    if text.len() > LONGEST {
        return Err(Unanswered::Arguments);
    }
    match read_orders(alloc, text, node) {
        Ok(orders) => Ok(orders),
        Err(OrdersRefusal::BadOrders { .. }) => Err(Unanswered::Arguments),
        Err(OrdersRefusal::Memory) => Err(Unanswered::Memory),
    }
}

// Orders come to the daemon.
fn take(
    out: &mut Vec<u8>,
    daemon: &mut DaemonState,
    now: u64,
    orders: &Orders,
) -> Result<(), Unanswered> {
    let word: &[u8] = if daemon.accept(orders, now)? {
        b"taken"
    } else {
        b"refused"
    };
    out.extend_from_slice(word)?;
    Ok(())
}

/// What becomes of a daemon that was just started: its node, its boot number, and what comes to it at second 1, at second 2
/// and so on: `poll`, or the text of orders. Of a poll the report is told, of orders whether they are taken.
pub fn follow(alloc: Global, arguments: &[&[u8]]) -> Result<Vec<u8>, Unanswered> {
    let [node, boot, events @ ..] = arguments else {
        return Err(Unanswered::Arguments);
    };
    let node = Name::read(alloc, node)?;
    let mut daemon = DaemonState::new(alloc, &node, number(boot)?)?;
    let mut out = Vec::new(alloc);
    let mut now = 0u64;
    for event in events {
        if !out.is_empty() {
            out.extend_from_slice(b", ")?;
        }
        now = now.saturating_add(1);
        if *event == b"poll".as_slice() {
            poll(&mut out, &mut daemon, now)?;
        } else {
            let orders = orders_of(alloc, event, &node)?;
            take(&mut out, &mut daemon, now, &orders)?;
        }
    }
    Ok(out)
}
