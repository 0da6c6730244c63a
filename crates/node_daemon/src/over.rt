//! What is over on a node.

ghost use Rattle.std.specs.Prelude.{◌≡◌, ◌++◌, IfOk};
ghost use Rattle.node_daemon.specs.Daemon.{not_forgotten, told_over};

use crate::running::{Running, told_over};
use crate::starts::is_among;
use reply_data::orders::Starts;
use request_data::report::Done;
use small_texts::memory_error::Memory;
use std::alloc::Global;

/// These, which were over, and behind them those that are over at a moment. Linear in both.
pub(crate) fn with_over(
    alloc: Global,
    over: &[Done],
    running: &[Running],
    now: u64,
) -> Result<Vec<Done>, Memory>
    ensures { IfOk result (λ all. all.items ≡ over.now ++ told_over now running.now) }
{
    let told = told_over(alloc, running, now)?;
    let mut all = Vec::from_slice(alloc, over)?;
    all.extend_from_slice(told.as_slice())?;
    Ok(all)
}

/// Drops those that are to be forgotten. Linear in what is over, and for each of them logarithmic in what is to be
/// forgotten; it takes no memory.
pub(crate) fn forget(over: &mut Vec<Done>, forgets: &Starts)
    ensures { over.new.items ≡ not_forgotten forgets.now over.old.items }
{
    over.retain(|done| !is_among(forgets, &done.start));
}
