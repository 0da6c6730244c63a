ghost use Rattle.std.specs.Prelude.{◌≡◌, ℕ, List, ◌+◌, ◌-◌, ◌^◌, ◌≤◌, ◌<◌, length, slice_index, IfOk, All};
ghost use Rattle.std.specs.Bool.{OnTrue, OnFalse};
ghost use Rattle.std.specs.List.{AllWithin, HoldsAt};
ghost use Rattle.std.specs.List.Sorted.{IsNonDecreasingBy};
ghost use Rattle.resource_profile.specs.Sets.{capacity, tasks_given, IsRisingFrom};
ghost use Rattle.resource_profile.specs.Holding.{AreCandidates, IsReserve, AreAllHeld, IsFull};

use std::alloc::{AllocError, Global};

// A place that isn't required and the tasks that it can give, one at least.
#[derive(Clone, Copy)]
pub(crate) struct Candidate {
    pub(crate) tasks: u32,
    pub(crate) place: u32,
}

// What is held back to complete a set: of the candidates that aren't passed yet, the ones that can give the most tasks,
// as many as the set may still take.
#[derive(Drop)]
pub(crate) struct Reserve {
    // By their tasks, upwards.
    candidates: Vec<Candidate>,
    // No candidate before this one is held.
    least: usize,
    // What each place gives to the reserve, nothing where it isn't held.
    held: Vec<u32>,
    // How many places are held.
    pub(crate) count: usize,
    // What they give together.
    pub(crate) tasks: u64,
}

// The places from `required` on that can give a task, by their tasks upwards.
fn ranked(alloc: Global, caps: &[u32], required: u32) -> Result<Vec<Candidate>, AllocError>
    requires small { length caps.now < 2 ^ 32 }
    requires required { required ≤ length caps.now }
    ensures candidates { IfOk result (λ ranked. AreCandidates caps.now required (length caps.now) ranked.items) }
    ensures sorted { IfOk result (λ ranked. IsNonDecreasingBy (λ (one : Candidate). one.tasks) ranked.items) }
{
    let mut candidates = Vec::with_capacity(alloc, caps.len())?;
    for place in required..caps.len() as u32 {
        let tasks = caps[place as usize];
        if tasks > 0 {
            candidates.push(Candidate { tasks, place })?;
        }
    }
    candidates.sort_unstable_by_key(|candidate| candidate.tasks);
    Ok(candidates)
}

// The first candidate from `from` on that is held.
fn first_held(candidates: &[Candidate], held: &[u32], from: usize) -> usize
    requires places { All (λ (one : Candidate). one.place < length held.now) candidates.now }
    ensures from { from ≤ result }
    ensures before { AllWithin (λ (one : Candidate). slice_index held.now one.place ≡ 0) candidates.now from result }
    ensures found { result < length candidates.now
        → HoldsAt (λ (one : Candidate). 1 ≤ slice_index held.now one.place) candidates.now result }
{
    let mut index = from;
    while index < candidates.len() && held[candidates[index].place as usize] == 0 {
        index += 1;
    }
    index
}

impl Reserve {
    // Of the places from `required` on, the `most` that can give the most tasks, or all that can give one.
    pub(crate) fn new(
        alloc: Global,
        caps: &[u32],
        required: u32,
        most: usize,
    ) -> Result<Self, AllocError>
        requires small { length caps.now < 2 ^ 32 }
        requires required { required ≤ length caps.now }
        ensures reserve { IfOk result (λ reserve. IsReserve caps.now required reserve) }
        ensures full { IfOk result (λ reserve. IsFull caps.now required most reserve.held.items) }
        ensures few { IfOk result (λ reserve. reserve.count ≤ most) }
    {
        let candidates = ranked(alloc, caps, required)?;
        let mut held = vec![in alloc; 0; caps.len()]?;
        let least = candidates.len().saturating_sub(most);
        let mut tasks = 0;
        for i in least..candidates.len() {
            let candidate = candidates[i];
            held[candidate.place as usize] = candidate.tasks;
            tasks += u64::from(candidate.tasks);
        }
        let count = candidates.len() - least;
        Ok(Reserve {
            candidates,
            least,
            held,
            count,
            tasks,
        })
    }

    // Whether the set can take this place, which is the next one, and still be completed to give `wanting` tasks. If
    // so, the place, or else the least one held, is held no more.
    pub(crate) fn admits(&mut self, caps: &[u32], place: u32, wanting: u32) -> bool
        requires place { place < length caps.now }
        requires reserve { IsReserve caps.now place self.old }
        requires some { 0 < self.old.count }
        requires enough { wanting ≤ self.old.tasks }
        ensures reserve { IsReserve caps.now (place + 1) self.new }
        ensures all { AreAllHeld caps.now place self.old.held.items
            → AreAllHeld caps.now (place + 1) self.new.held.items }
        ensures giving { OnTrue result (1 ≤ capacity caps.now place) }
        ensures count { OnTrue result (self.new.count + 1 ≡ self.old.count) }
        ensures enough { OnTrue result (wanting ≤ capacity caps.now place + self.new.tasks) }
        ensures same_count { OnFalse result (self.new.count ≡ self.old.count) }
        ensures same_tasks { OnFalse result (self.new.tasks ≡ self.old.tasks) }
        ensures not_held { OnFalse result (slice_index self.old.held.items place ≡ 0) }

        // No set that goes on from here with this place gives so many tasks.
        ensures too_few { OnFalse result ((later : List ℕ)
            → IsRisingFrom (place + 1) later → length later < self.old.count → 1 ≤ capacity caps.now place
            → capacity caps.now place + tasks_given caps.now later < wanting) }
    {
        let given = caps[place as usize];
        if self.held[place as usize] > 0 {
            self.held[place as usize] = 0;
            self.count -= 1;
            self.tasks -= u64::from(given);
            return true;
        }
        if given == 0 {
            return false;
        }
        self.least = first_held(&self.candidates, &self.held, self.least);
        let least = self.candidates[self.least];
        let tasks = self.tasks - u64::from(least.tasks);
        if tasks < u64::from(wanting.saturating_sub(given)) {
            return false;
        }
        self.held[least.place as usize] = 0;
        self.count -= 1;
        self.tasks = tasks;
        true
    }
}
