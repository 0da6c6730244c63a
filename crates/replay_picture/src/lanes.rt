//! The lanes of a row.

ghost use Rattle.std.specs.Prelude.{◌≡◌, ◌++◌, ◌<◌, ◌^◌, IfOk, OnOk, length, replicate};
ghost use Rattle.replay_picture.specs.Lanes.{lane_behind, lane_drawn, lanes_behind, lanes_drawn, takes, wanted_behind};
ghost use Rattle.replay_picture.specs.Nodes.{free_lane};

use small_texts::memory_error::Memory;
use std::alloc::Global;

/// A lane: until when a run has it, and how far it is drawn, in tenths of a unit.
#[derive(Clone, Copy)]
pub(crate) struct Lane {
    pub(crate) busy_until: u64,
    pub(crate) drawn_until: u64,
}

/// A run: from when to when it lasts, and between which places of the picture.
#[derive(Clone, Copy)]
pub(crate) struct Stay {
    pub(crate) start: u64,
    pub(crate) end: u64,
    pub(crate) left: u64,
    pub(crate) right: u64,
}

/// The lanes of a node, none of which was ever busy.
pub(crate) fn free_lanes(alloc: Global, processors: u32) -> Result<Vec<Lane>, Memory>
    ensures { IfOk result (λ lanes. lanes.items ≡ replicate processors free_lane) }
{
    let mut lanes = Vec::new(alloc);
    for _ in 0..processors {
        lanes.push(Lane {
            busy_until: 0,
            drawn_until: 0,
        })?;
    }
    Ok(lanes)
}

fn takes(stay: Stay, wanted: u32, lane: Lane) -> bool
    ensures { result ≡ takes stay wanted lane }
{
    wanted > 0 && lane.busy_until <= stay.start
}

// How many a run wants still behind a lane.
fn wanted_behind(stay: Stay, wanted: u32, lane: Lane) -> u32
    ensures { result ≡ wanted_behind stay wanted lane }
{
    if takes(stay, wanted, lane) {
        wanted.saturating_sub(1)
    } else {
        wanted
    }
}

fn lane_behind(stay: Stay, wanted: u32, lane: Lane) -> Lane
    ensures { result ≡ lane_behind stay wanted lane }
{
    if takes(stay, wanted, lane) {
        Lane {
            busy_until: lane.busy_until.max(stay.end),
            drawn_until: lane.drawn_until.max(stay.right),
        }
    } else {
        lane
    }
}

// Notes the place of a lane in which a run is drawn.
fn note_lane(
    places: &mut Vec<u32>,
    stay: Stay,
    wanted: u32,
    place: u32,
    lane: Lane,
) -> Result<(), Memory>
    ensures { OnOk result (places.new.items ≡ places.old.items ++ lane_drawn stay wanted place lane) }
{
    if takes(stay, wanted, lane) && lane.drawn_until < stay.right {
        places.push(place)?;
    }
    Ok(())
}

/// The places of the lanes that a run is drawn in, which wants so many. They rise.
pub(crate) fn lanes_drawn(
    alloc: Global,
    stay: Stay,
    wanted: u32,
    lanes: &[Lane],
) -> Result<Vec<u32>, Memory>
    requires { length lanes.now < 2 ^ 32 }
    ensures { IfOk result (λ places. places.items ≡ lanes_drawn stay wanted 0 lanes.now) }
{
    let mut places = Vec::new(alloc);
    let mut wanted = wanted;
    let mut place: u32 = 0;
    for lane in lanes {
        note_lane(&mut places, stay, wanted, place, *lane)?;
        wanted = wanted_behind(stay, wanted, *lane);
        place += 1;
    }
    Ok(places)
}

/// A run takes so many lanes.
pub(crate) fn take_lanes(stay: Stay, wanted: u32, lanes: &mut [Lane])
    ensures { lanes.new ≡ lanes_behind stay wanted lanes.old }
{
    let mut wanted = wanted;
    for lane in lanes.iter_mut() {
        let was = *lane;
        *lane = lane_behind(stay, wanted, was);
        wanted = wanted_behind(stay, wanted, was);
    }
}
