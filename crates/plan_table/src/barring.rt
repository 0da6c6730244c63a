// Times at which a job may not have nodes.

use backfill_planner::{Barred, BarredList};
use plain_data::NodePlaces;
use std::alloc::Global;
use table_lines::answer::Unanswered;
use table_lines::fields::{narrow_numbers, number, parts};

// Some nodes, as `0+1`.
fn node_row(alloc: Global, text: &[u8]) -> Result<NodePlaces, Unanswered> {
    let mut row = NodePlaces::none();
    for node in &narrow_numbers(alloc, text, b'+')? {
        if *node >= 1024 {
            return Err(Unanswered::Arguments);
        }
        row.insert(*node);
    }
    Ok(row)
}

// `FROM-UNTIL`.
fn seconds(alloc: Global, text: &[u8]) -> Result<(u64, u64), Unanswered> {
    let [from, until] = *parts(alloc, text, b'-')?.as_slice() else {
        return Err(Unanswered::Arguments);
    };
    Ok((number(from)?, number(until)?))
}

// `NODES@FROM-UNTIL`.
fn barred(alloc: Global, text: &[u8]) -> Result<Barred, Unanswered> {
    let [nodes, window] = *parts(alloc, text, b'@')?.as_slice() else {
        return Err(Unanswered::Arguments);
    };
    let (from, until) = seconds(alloc, window)?;
    Ok(Barred {
        nodes: node_row(alloc, nodes)?,
        from,
        until,
    })
}

/// The times, with `;` between two; none of an empty text.
pub fn barred_list(alloc: Global, text: &[u8]) -> Result<BarredList, Unanswered> {
    let mut times = Vec::new(alloc);
    if !text.is_empty() {
        for part in &parts(alloc, text, b';')? {
            times.push(barred(alloc, part)?)?;
        }
    }
    Ok(BarredList::by_node(times)?)
}
