//! Lanes that stand beside one another.

ghost use Rattle.std.specs.Prelude.{◌≡◌, ◌==◌, ◌+◌, IfOk};
ghost use Rattle.replay_picture.specs.Lanes.{runs};

use small_texts::memory_error::Memory;
use std::alloc::Global;

/// Neighbouring lanes: the first and the last.
#[derive(Clone, Copy)]
pub(crate) struct LaneRun {
    pub(crate) first: u32,
    pub(crate) last: u32,
}

fn is_next(last: u32, place: u32) -> bool
    ensures { result ≡ (place == last + 1) }
{
    u64::from(place) == u64::from(last) + 1
}

fn alone(place: u32) -> LaneRun
    ensures { result ≡ record { first = place; last = place } }
{
    LaneRun {
        first: place,
        last: place,
    }
}

/// The longest runs of neighbours among places that rise.
pub(crate) fn runs(alloc: Global, places: &[u32]) -> Result<Vec<LaneRun>, Memory>
    ensures { IfOk result (λ found. found.items ≡ runs places.now) }
{
    let mut found = Vec::new(alloc);
    let Some((first, others)) = places.split_first() else {
        return Ok(found);
    };
    let mut run = alone(*first);
    for place in others {
        if is_next(run.last, *place) {
            run.last = *place;
        } else {
            found.push(run)?;
            run = alone(*place);
        }
    }
    found.push(run)?;
    Ok(found)
}
