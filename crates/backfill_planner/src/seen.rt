ghost use Rattle.std.specs.Prelude.{◌≡◌, ℕ, ◌≤◌, ◌<◌, List, [], length, slice_index_or, IfOk, IfSome, OnOk, All};
ghost use Rattle.resource_profile.specs.declared.NodeRoom.{NodeRoom as Room};
ghost use Rattle.resource_profile.specs.declared.Hold.{Hold};
ghost use Rattle.backfill_planner.specs.Lesser.{HaveSameNodes, NoneBefore};
ghost use Rattle.backfill_planner.specs.Searches.{IsSeen};
ghost use Rattle.backfill_planner.specs.declared.seen.Seen.{Seen as OneSeen};
ghost use Rattle.backfill_planner.specs.declared.job.PlanJob.{PlanJob as AJob};

use crate::job::PlanJob;
use crate::laws::lower_laws;
use crate::lesser::{have_same_nodes, is_lesser};
use small_texts::memory_error::Memory;
use std::alloc::Global;

// How many searches are kept in mind.
const MOST: usize = 64;

// A job that was searched for, by its place in the list, and the second before which none of its sets fits.
#[derive(Clone, Copy)]
pub(crate) struct Seen {
    pub(crate) place: usize,
    pub(crate) bound: u64,
    // The place of a job that may have the same nodes: the same one for all such.
    pub(crate) alike: usize,
}

// The last searches that told most.
#[derive(Drop)]
pub(crate) struct Searches {
    seen: Vec<Seen>,
}

impl Searches {
    pub(crate) fn new(alloc: Global) -> Result<Self, Memory>
        ensures { IfOk result (λ searches. searches.seen.items ≡ []) }
    {
        Ok(Searches {
            seen: Vec::with_capacity(alloc, MOST)?,
        })
    }

    // The place by which those are known that were searched for and may have the same nodes as the job.
    fn first_alike(&self, ranked: &[PlanJob], job: &PlanJob) -> Option<usize>
        requires { All (λ (one : OneSeen). one.alike < length ranked.now) self.now.seen.items }
        ensures there { IfSome result (λ alike. alike < length ranked.now) }
        ensures alike { IfSome result (λ alike. (d : AJob)
            → HaveSameNodes (slice_index_or ranked.now alike d) job.now) }
    {
        for one in self.seen.as_slice() {
            if have_same_nodes(&ranked[one.alike], job) {
                return Some(one.alike);
            }
        }
        None
    }

    // The bound of the first search that is kept of a job that asks no more, among those that are known by this place,
    // where it is `least` or a later second: no set of the job fits before it. Those that tell most come first.
    fn told_from(&self, ranked: &[PlanJob], alike: usize, job: &PlanJob, least: u64) -> Option<u64>
        requires there { All (λ (one : OneSeen). one.place < length ranked.now) self.now.seen.items }
        requires alike { (d : AJob) → HaveSameNodes (slice_index_or ranked.now alike d) job.now }
        ensures least { IfSome result (λ bound. least ≤ bound) }
        ensures none { IfSome result (λ bound. (rooms : List Room) (holds : List Hold) (now : ℕ)
            → All (IsSeen rooms holds ranked.now now) self.now.seen.items
            → NoneBefore rooms holds job.now now bound) }
    {
        lower_laws();
        for one in self.seen.as_slice() {
            if one.bound < least {
                return None;
            }
            if one.alike == alike && is_lesser(&ranked[one.place], job) {
                return Some(one.bound);
            }
        }
        None
    }

    // A second, `now` or a later one, before which no set of the job fits, since none did of a job that asks no more. It
    // compares the job's nodes with those of each list of nodes that was searched, up to the one that is the same.
    pub(crate) fn bound(&self, ranked: &[PlanJob], job: &PlanJob, now: u64) -> u64
        requires there { All (λ (one : OneSeen). one.place < length ranked.now) self.now.seen.items }
        requires alike { All (λ (one : OneSeen). one.alike < length ranked.now) self.now.seen.items }
        ensures from { now ≤ result }
        ensures none { (rooms : List Room) (holds : List Hold)
            → All (IsSeen rooms holds ranked.now now) self.now.seen.items
            → NoneBefore rooms holds job.now now result }
    {
        let Some(alike) = self.first_alike(ranked, job) else {
            return now;
        };
        self.told_from(ranked, alike, job, now).unwrap_or(now)
    }

    // Keeps in mind that none of the sets of the job at the place fits before the bound, where those searches that are
    // kept don't tell as much of it. Where there are many, the one goes that tells least.
    pub(crate) fn add(
        &mut self,
        ranked: &[PlanJob],
        now: u64,
        place: usize,
        bound: u64,
    ) -> Result<(), Memory>
        requires there { All (λ (one : OneSeen). one.place < length ranked.now) self.old.seen.items }
        requires alike { All (λ (one : OneSeen). one.alike < length ranked.now) self.old.seen.items }
        requires place { place < length ranked.now }
        ensures { (rooms : List Room) (holds : List Hold)
            → All (IsSeen rooms holds ranked.now now) self.old.seen.items
            → ((d : AJob) → NoneBefore rooms holds (slice_index_or ranked.now place d) now bound)
            → All (IsSeen rooms holds ranked.now now) self.new.seen.items }
    {
        let job = &ranked[place];
        let alike = match self.first_alike(ranked, job) {
            Some(alike) => alike,
            None => place,
        };
        if self.told_from(ranked, alike, job, bound).is_some() {
            return Ok(());
        }
        self.put(Seen {
            place,
            bound,
            alike,
        })
    }

    // Puts one search more among those that are kept, before those that tell less. Where there are many, the last one
    // goes.
    fn put(&mut self, one: Seen) -> Result<(), Memory>
        ensures { (rooms : List Room) (holds : List Hold) (ranked : List AJob) (now : ℕ)
            → All (IsSeen rooms holds ranked now) self.old.seen.items → IsSeen rooms holds ranked now one
            → All (IsSeen rooms holds ranked now) self.new.seen.items }
    {
        self.seen.truncate(MOST - 1);
        let place = self.place_of(one.bound);
        self.seen.insert(place, one)?;
        Ok(())
    }

    // The place of the first search that tells less than the bound, and else the end.
    fn place_of(&self, bound: u64) -> usize
        ensures { result ≤ length self.now.seen.items }
    {
        for place in 0..self.seen.len() {
            if self.seen[place].bound < bound {
                return place;
            }
        }
        self.seen.len()
    }
}
