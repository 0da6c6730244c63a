// The texts of orders.

use orders_text::{OrdersRefusal, read_orders};
use reply_data::orders::{Launch, Orders};
use request_data::report::Start;
use small_texts::name::Name;
use std::alloc::Global;
use table_lines::answer::{Unanswered, push};
use table_lines::fields::LONGEST;

/// Puts a start behind a word.
pub fn push_start(out: &mut Vec<u8>, word: &[u8], start: &Start) -> Result<(), Unanswered> {
    out.extend_from_slice(word)?;
    push(out, &start.id)?;
    out.extend_from_slice(b"/")?;
    push(out, &start.number)
}

// Puts a number behind a word, or the word `none`.
fn push_number(out: &mut Vec<u8>, word: &[u8], number: Option<u32>) -> Result<(), Unanswered> {
    out.extend_from_slice(word)?;
    match number {
        Some(number) => push(out, &number),
        None => Ok(out.extend_from_slice(b"none")?),
    }
}

// Puts a launch behind what is there: how many processors it has among 0 to 1023, and its least one.
fn push_launch(out: &mut Vec<u8>, launch: &Launch) -> Result<(), Unanswered> {
    push_start(out, b" launch ", &launch.start)?;
    out.extend_from_slice(b" cpus")?;
    for cpu in 0..1024 {
        if launch.cpus.contains(cpu) {
            out.extend_from_slice(b" ")?;
            push(out, &cpu)?;
        }
    }
    out.extend_from_slice(b" mem ")?;
    push(out, &launch.mem)?;
    push_number(out, b" run ", launch.run)?;
    push_number(out, b" exit ", launch.exit)
}

// What orders say.
fn told(alloc: Global, orders: &Orders) -> Result<Vec<u8>, Unanswered> {
    let mut out = Vec::new(alloc);
    push(&mut out, &orders.boot)?;
    out.extend_from_slice(b" ")?;
    push(&mut out, &orders.number)?;
    for start in orders.kills.as_slice() {
        push_start(&mut out, b" kill ", start)?;
    }
    for start in orders.forgets.as_slice() {
        push_start(&mut out, b" forget ", start)?;
    }
    for launch in orders.launches.as_slice() {
        push_launch(&mut out, launch)?;
    }
    Ok(out)
}

// What a refusal says.
fn refused(alloc: Global, line: u32) -> Result<Vec<u8>, Unanswered> {
    let mut out = Vec::from_slice(alloc, b"bad at line ")?;
    push(&mut out, &line)?;
    Ok(out)
}

/// What a text orders a node, or its first bad line.
pub fn read(alloc: Global, arguments: &[&[u8]]) -> Result<Vec<u8>, Unanswered> {
    let [node, text] = *arguments else {
        return Err(Unanswered::Arguments);
    };
    if text.len() > LONGEST {
        return Err(Unanswered::Arguments);
    }
    let node = Name::read(alloc, node)?;
    match read_orders(alloc, text, &node) {
        Ok(orders) => told(alloc, &orders),
        Err(OrdersRefusal::BadOrders { line }) => refused(alloc, line),
        Err(OrdersRefusal::Memory) => Err(Unanswered::Memory),
    }
}
