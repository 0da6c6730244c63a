//! The line that tells of a simulation.

ghost use Rattle.std.specs.Prelude.{◌≡◌, IfOk};
ghost use Rattle.simulation.specs.Simulation.{summary};

use crate::tally::Tally;
use small_texts::memory_error::Memory;
use small_texts::pieces::{push_labelled, push_text};
use std::alloc::Global;

/// The line of what was counted.
#[tactic(auto, unfolding(crate::specs::Simulation::summary))]
pub(crate) fn summary(alloc: Global, tally: &Tally) -> Result<Vec<u8>, Memory>
    ensures { IfOk result (λ line. line.items ≡ summary tally.now) }
{
    let mut out = Vec::new(alloc);
    push_labelled(&mut out, b"generated 500 started ", tally.started)?;
    push_labelled(&mut out, b" completed ", tally.completed)?;
    push_labelled(&mut out, b" timeout ", tally.timeout)?;
    push_labelled(&mut out, b" last ", tally.moment)?;
    push_text(&mut out, b"\n")?;
    Ok(out)
}
