//! The timelines of all associations, in their order.

ghost use Rattle.std.specs.Prelude.{◌≡◌, ◌≤◌, ◌<◌, ℕ, All, IfOk, OnOk, length, map, slice_index, slice_index_or, vec_len};
ghost use Rattle.sacct_book.specs.declared.timeline.Timeline.{Timeline};
ghost use Rattle.sacct_book.specs.Times as spec;

use crate::timeline::Timeline;
use small_texts::memory_error::Memory;
use std::alloc::Global;

/// From a moment on each holds so many processors; nothing was before.
pub(crate) fn begin(alloc: Global, held: &[u64], moment: u64) -> Result<Vec<Timeline>, Memory>
    ensures { IfOk result (λ timelines. map spec.times_of timelines.items ≡ map (spec.begun moment) held.now) }
{
    let mut timelines = Vec::with_capacity(alloc, held.len())?;
    for cpus in held {
        timelines.push(Timeline::new(alloc, *cpus, moment))?;
    }
    Ok(timelines)
}

/// Takes the room for one more stretch in each.
pub(crate) fn make_room(timelines: &mut Vec<Timeline>) -> Result<(), Memory>
    ensures len { vec_len timelines.new ≡ vec_len timelines.old }
    ensures same { map spec.times_of timelines.new.items ≡ map spec.times_of timelines.old.items }
    ensures room { OnOk result (All spec.HasRoom timelines.new.items) }
{
    for place in 0..timelines.len() {
        timelines[place].make_room()?;
    }
    Ok(())
}

/// From a moment on each holds so many processors. Linear in them; it takes no memory.
pub(crate) fn go_on(timelines: &mut Vec<Timeline>, held: &[u64], moment: u64)
    requires room { All spec.HasRoom timelines.old.items }
    requires each { length held.now ≡ vec_len timelines.old }
    requires since { All (λ (timeline : Timeline). timeline.since ≤ moment) timelines.old.items }
    ensures len { vec_len timelines.new ≡ vec_len timelines.old }
    ensures goes { (place : ℕ) (d : Timeline) → place < vec_len timelines.old
        → spec.GoesOn moment (slice_index held.now place) (spec.times_of (slice_index_or timelines.old.items place d))
        (spec.times_of (slice_index_or timelines.new.items place d)) }
{
    for place in 0..timelines.len() {
        timelines[place].go_on(held[place], moment);
    }
}
