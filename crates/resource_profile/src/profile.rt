ghost use Rattle.std.specs.Prelude.{◌≡◌, ◌≢◌, ℕ, ◌+◌, ◌*◌, ◌^◌, ◌≤◌, ◌<◌, [], ◌∷◌, ◌++◌, length, slice_index_or, vec_len, vec_capacity, IfOk, OnOk, OnErr, IfSome, IfNone, All, Contains};
ghost use Rattle.std.specs.List.Sorted.{IsPermutation};
ghost use Rattle.resource_profile.specs.Free.{free_cpus, free_mem, least_over};
ghost use Rattle.resource_profile.specs.Profiles.{AreWithin, HasFree, IsNextEnd};
ghost use Rattle.resource_profile.specs.Windows.{free_of, IsShort, IsSteady};
ghost use Rattle.resource_profile.specs.Timelines.{IsTimeline, StaysAsItWas};
ghost use Rattle.resource_profile.specs.declared.timeline.Timeline.{Timeline as OneTimeline};

use crate::ends::{End, add_end, drop_end, next_end};
use crate::levels::{Amount, Window, least_free, short_until};
use crate::timeline::Timeline;
use crate::{Hold, NodeRoom};
use small_texts::memory_error::Memory;
use std::alloc::Global;
use std::marker::Model;

/// The rooms of the nodes and the holds on them. Beside the list of the holds it keeps what each node has free over
/// time, and in order the moments at which holds end, each once.
#[derive(Drop)]
pub struct Profile {
    rooms: Vec<NodeRoom>,
    holds: Vec<Hold>,
    // The moments at which holds end, upwards, each once.
    ends: Vec<End>,
    // One for each room.
    timelines: Vec<Timeline>,
    // How many holds can be added without taking memory.
    room_for: u32,
}

impl Model for Profile {
    ghost use Rattle.std.specs.Prelude.{◌+◌, ◌≤◌, vec_len, vec_capacity};
    ghost use Rattle.resource_profile.specs.Profiles.{ProfileView};
    ghost use Rattle.resource_profile.specs.Timelines.{AreKept};

    ghost Value = { ProfileView };

    ghost view = { λ profile. record {
      rooms = profile.rooms.items;
      holds = profile.holds.items;
      spare = profile.room_for;
    } };

    ghost invariant = { λ profile.
        AreKept profile.rooms.items profile.holds.items profile.ends.items profile.timelines.items profile.room_for
        × (vec_len profile.holds + profile.room_for ≤ vec_capacity profile.holds)
        × (vec_len profile.ends + profile.room_for ≤ vec_capacity profile.ends) };
}

// A timeline for each of the rooms, with no holds.
fn fresh(alloc: Global, rooms: &[NodeRoom]) -> Result<Vec<Timeline>, Memory>
    ensures long { IfOk result (λ timelines. length timelines.items ≡ length rooms.now) }
    ensures each { IfOk result (λ timelines. (node : ℕ) (d : OneTimeline) → node < length rooms.now
        → IsTimeline rooms.now [] node 0 (slice_index_or timelines.items node d)) }
{
    let mut timelines = Vec::with_capacity(alloc, rooms.len())?;
    for room in rooms {
        let timeline = Timeline::new(alloc, room)?;
        timelines.push(timeline).unwrap();
    }
    Ok(timelines)
}

// Makes place on each node for so many more holds.
fn reserve_each(timelines: &mut Vec<Timeline>, count: u32) -> Result<(), Memory>
    requires holds { All (λ (timeline : OneTimeline). 2 * timeline.holds < 2 ^ 64) timelines.old.items }
    ensures long { length timelines.new.items ≡ length timelines.old.items }
    ensures each { (node : ℕ) (d : OneTimeline) → node < length timelines.old.items
        → StaysAsItWas (slice_index_or timelines.old.items node d) (slice_index_or timelines.new.items node d) }
    ensures room { OnOk result (All (λ (timeline : OneTimeline).
        vec_len timeline.levels + (2 * timeline.holds + 4 * count) ≤ vec_capacity timeline.levels)
        timelines.new.items) }
{
    for i in 0..timelines.len() {
        timelines[i].reserve(u64::from(count))?;
    }
    Ok(())
}

// The place of a hold among the holds.
fn place_of(holds: &[Hold], hold: &Hold) -> usize
    requires { Contains holds.now hold.now }
    ensures inside { result < length holds.now }
    ensures is { slice_index_or holds.now result hold.now ≡ hold.now }
{
    let mut place = 0;
    while holds[place] != *hold {
        place += 1;
    }
    place
}

impl Profile {
    /// These rooms with no holds.
    pub fn new(alloc: Global, rooms: &[NodeRoom]) -> Result<Self, Memory>
        ensures rooms { IfOk result (λ profile. profile.rooms ≡ rooms.now) }
        ensures holds { IfOk result (λ profile. profile.holds ≡ []) }
    {
        Profile::with_list(alloc, rooms, 0)
    }

    // These rooms with no holds, whose list has place for so many.
    fn with_list(alloc: Global, rooms: &[NodeRoom], count: usize) -> Result<Self, Memory>
        ensures rooms { IfOk result (λ profile. profile.rooms ≡ rooms.now) }
        ensures holds { IfOk result (λ profile. profile.holds ≡ []) }
    {
        let timelines = fresh(alloc, rooms)?;
        Ok(Profile {
            rooms: Vec::from_slice(alloc, rooms)?,
            holds: Vec::with_capacity(alloc, count)?,
            ends: Vec::with_capacity(alloc, count)?,
            timelines,
            room_for: 0,
        })
    }

    /// These rooms with these holds, which must be within them.
    pub fn with_holds(alloc: Global, rooms: &[NodeRoom], holds: &[Hold]) -> Result<Self, Memory>
        requires { AreWithin rooms.now holds.now }
        ensures rooms { IfOk result (λ profile. profile.rooms ≡ rooms.now) }
        ensures holds { IfOk result (λ profile. profile.holds ≡ holds.now) }
    {
        let mut profile = Profile::with_list(alloc, rooms, holds.len())?;
        for hold in holds {
            profile.hold(hold)?;
        }
        Ok(profile)
    }

    /// Makes `spare` at least `count`. Rooms and holds stay. It takes memory on each node for so many holds.
    pub fn reserve(&mut self, count: u32) -> Result<(), Memory>
        ensures rooms { self.new.rooms ≡ self.old.rooms }
        ensures holds { self.new.holds ≡ self.old.holds }
        ensures spare { OnOk result (count ≤ self.new.spare) }
        ensures kept { self.old.spare ≤ self.new.spare }
    {
        if count <= self.room_for {
            return Ok(());
        }
        self.holds.reserve(count as usize)?;
        self.ends.reserve(count as usize)?;
        reserve_each(&mut self.timelines, count)?;
        self.room_for = count;
        Ok(())
    }

    /// Adds the hold behind the others, and takes the memory that it needs. Where that is wanting, all stays as it was.
    /// Linear in the levels of the node, and in the later ends where no other hold ends when this one does.
    pub fn hold(&mut self, hold: &Hold) -> Result<(), Memory>
        requires { HasFree self.old.rooms self.old.holds hold.now }
        ensures rooms { self.new.rooms ≡ self.old.rooms }
        ensures holds { OnOk result (self.new.holds ≡ self.old.holds ++ hold.now ∷ []) }
        ensures err { OnErr result (self.new.holds ≡ self.old.holds) }
        ensures spare { self.new.spare ≡ self.old.spare }
    {
        let more = u64::from(self.room_for) + 1;
        self.holds.reserve(more as usize)?;
        self.ends.reserve(more as usize)?;
        self.timelines[hold.node as usize].reserve(more)?;
        self.holds.push(*hold).unwrap();
        add_end(&mut self.ends, hold.until);
        self.timelines[hold.node as usize].add(hold);
        Ok(())
    }

    /// Adds the hold. The order of the holds is left open. It costs what `hold` does, and takes no memory.
    pub fn add_hold(&mut self, hold: &Hold)
        requires spare { 1 ≤ self.old.spare }
        requires free { HasFree self.old.rooms self.old.holds hold.now }
        ensures rooms { self.new.rooms ≡ self.old.rooms }
        ensures holds { IsPermutation (hold.now ∷ self.old.holds) self.new.holds }
        ensures spare { self.old.spare ≤ self.new.spare + 1 }
    {
        self.holds.push(*hold).unwrap();
        add_end(&mut self.ends, hold.until);
        self.timelines[hold.node as usize].add(hold);
        self.room_for -= 1;
    }

    /// Drops one hold that equals this one. The order of the holds is left open. It looks for the hold along the list.
    pub fn drop_hold(&mut self, hold: &Hold)
        requires { Contains self.old.holds hold.now }
        ensures rooms { self.new.rooms ≡ self.old.rooms }
        ensures holds { IsPermutation self.old.holds (hold.now ∷ self.new.holds) }
        ensures spare { self.old.spare ≤ self.new.spare }
    {
        let room = self.rooms[hold.node as usize];
        let place = place_of(&self.holds, hold);
        let _ = self.holds.swap_remove(place);
        drop_end(&mut self.ends, hold.until);
        self.timelines[hold.node as usize].drop_hold(hold, room);
    }

    /// The holds in some order. At no second do those of a node pass its room.
    pub fn holds(&self) -> &[Hold]
        ensures holds { result.now ≡ self.now.holds }
        ensures within { AreWithin self.now.rooms result.now }
    {
        self.holds.as_slice()
    }

    /// What the node has free over the window, and how far the window may move with nothing changed. Logarithmic in the
    /// holds of the node, and linear in those that begin or end within the window, or behind it up to where the window
    /// may end that has moved.
    pub fn free_over(&self, node: u32, from: u64, until: u64) -> Window
        requires node { node < length self.now.rooms }
        requires window { from < until }
        ensures { IsSteady (λ moment. free_of self.now.rooms self.now.holds node moment) from until result }
    {
        least_free(&self.timelines[node as usize].levels, from, until)
    }

    /// Where the last part of the window ends in which the node has less free than the amount; None where it has no less
    /// throughout. Before that, and for windows that end no earlier, it is too little. Logarithmic in the holds of the
    /// node, and linear in those that begin or end within the window behind it.
    pub fn short_until(&self, node: u32, from: u64, until: u64, amount: Amount) -> Option<u64>
        requires node { node < length self.now.rooms }
        requires window { from < until }
        ensures { IfSome result
            (IsShort (λ moment. free_of self.now.rooms self.now.holds node moment) amount from until) }
    {
        short_until(&self.timelines[node as usize].levels, from, until, amount)
    }

    /// Up to when no processor of the node is free, where that is so at some second of the window; before that, every
    /// window that ends no earlier has such a second. None where none is known: of each node the last such seconds are.
    /// Constant time.
    pub fn full_until(&self, node: u32, from: u64, until: u64) -> Option<u64>
        requires { node < length self.now.rooms }
        ensures { IfSome result (IsShort (λ moment. free_of self.now.rooms self.now.holds node moment)
            (record { cpus = 1; mem = 0 }) from until) }
    {
        let full = &self.timelines[node as usize].full;
        if full.crosses(from, until) {
            Some(full.until)
        } else {
            None
        }
    }

    /// The least processors and the least megabytes that the node has free over every second of the window; none where
    /// there is no such node.
    pub fn free_min(&self, node: u32, from: u64, until: u64) -> (u32, u64)
        requires { from < until }
        ensures cpus { result.0
            ≡ least_over (λ moment. free_cpus self.now.rooms self.now.holds node moment) from until }
        ensures mem { result.1 ≡ least_over (λ moment. free_mem self.now.rooms self.now.holds node moment) from until }
    {
        if node as usize >= self.rooms.len() {
            return (0, 0);
        }
        let window = self.free_over(node, from, until);
        (window.free.cpus, window.free.mem)
    }

    /// The least end of a hold that is later than `after`. Logarithmic in the ends.
    pub fn next_rise(&self, after: u64) -> Option<u64>
        ensures some { IfSome result (IsNextEnd self.now.holds after) }
        ensures none { IfNone result (All (λ hold. hold.until ≤ after) self.now.holds) }
    {
        next_end(&self.ends, after)
    }
}
