ghost use Rattle.std.specs.Prelude.{◌≡◌, ◌⊎◌, ◌↔◌, ℕ, ◌+◌, ◌-◌, ◌^◌, ◌≤◌, ◌<◌, min, nat_le, if◌then◌else◌, length, slice_index_or, vec_len, vec_capacity, IsTrue, IfSome};
ghost use Rattle.resource_profile.specs.Windows.{IsShort, IsSteady};
ghost use Rattle.resource_profile.specs.Levels.{HasLevels, IsLevelled, AreEnds, AreChanged, CanTake, CanGive, less, more, taken, given, amount_of};
ghost use Rattle.resource_profile.specs.declared.levels.Amount.{Amount};
ghost use Rattle.resource_profile.specs.declared.levels.Level.{Level};

use crate::{Hold, NodeRoom};

/// Processors and megabytes of a node.
#[derive(Clone, Copy, Debug, PartialEq, Eq)]
pub struct Amount {
    pub cpus: u32,
    pub mem: u64,
}

/// The least that a node has free over a window, and how far the window may move with nothing changed.
#[derive(Clone, Copy, Debug, PartialEq, Eq)]
pub struct Window {
    pub free: Amount,
    /// The window may begin before this moment.
    pub begins_before: u64,
    /// It may end up to this moment.
    pub ends_up_to: u64,
}

impl Hold {
    // What it takes.
    fn amount(&self) -> Amount
        ensures { result ≡ amount_of self.now }
    {
        Amount {
            cpus: self.cpus,
            mem: self.mem,
        }
    }
}

// What is free from a moment on, until the next level begins.
#[derive(Clone, Copy)]
pub(crate) struct Level {
    pub(crate) from: u64,
    pub(crate) free: Amount,
}

// How many of the levels begin up to the moment.
fn begun(levels: &[Level], moment: u64) -> usize
    requires { HasLevels levels.now }
    ensures some { 0 < result }
    ensures bound { result ≤ length levels.now }
    ensures before { (i : ℕ) (d : Level) → i < result → (slice_index_or levels.now i d).from ≤ moment }
    ensures after { (i : ℕ) (d : Level) → result ≤ i → i < length levels.now
        → moment < (slice_index_or levels.now i d).from }
{
    let mut low = 1;
    let mut high = levels.len();
    while low < high {
        let middle = low + (high - low) / 2;
        if levels[middle].from <= moment {
            low = middle + 1;
        } else {
            high = middle;
        }
    }
    low
}

// Has a level begin at the moment, and gives its place.
fn cut(levels: &mut Vec<Level>, moment: u64) -> usize
    requires levels { HasLevels levels.old.items }
    requires room { vec_len levels.old < vec_capacity levels.old }
    ensures levels { HasLevels levels.new.items }
    ensures kept { (free : ℕ → Amount) → IsLevelled free levels.old.items → IsLevelled free levels.new.items }
    ensures inside { result < length levels.new.items }
    ensures at { (d : Level) → (slice_index_or levels.new.items result d).from ≡ moment }
    ensures before { (i : ℕ) (d : Level) → i < result
        → slice_index_or levels.new.items i d ≡ slice_index_or levels.old.items i d }
    ensures order { (i : ℕ) (d : Level) → i < length levels.old.items
        → (slice_index_or levels.old.items i d).from < moment → i < result }
    ensures len { vec_len levels.new ≤ vec_len levels.old + 1 }
    ensures capacity { vec_capacity levels.old ≤ vec_capacity levels.new }
{
    let place = begun(levels, moment);
    let last = levels[place - 1];
    if last.from == moment {
        return place - 1;
    }
    levels
        .insert(
            place,
            Level {
                from: moment,
                free: last.free,
            },
        )
        .unwrap();
    place
}

// Drops the level at the place if it says what the one before it says.
fn join(levels: &mut Vec<Level>, place: usize)
    requires levels { HasLevels levels.old.items }
    requires some { 0 < place }
    requires inside { place < length levels.old.items }
    ensures levels { HasLevels levels.new.items }
    ensures kept { (free : ℕ → Amount) → IsLevelled free levels.old.items → IsLevelled free levels.new.items }
    ensures len { vec_len levels.new ≤ vec_len levels.old }
    ensures one { vec_len levels.old ≤ vec_len levels.new + 1 }
    ensures capacity { vec_capacity levels.old ≤ vec_capacity levels.new }
{
    if levels[place - 1].free == levels[place].free {
        let _ = levels.remove(place);
    }
}

// Has levels begin at the window's bounds, and gives their places.
fn cut_window(levels: &mut Vec<Level>, from: u64, until: u64) -> (usize, usize)
    requires levels { HasLevels levels.old.items }
    requires room { vec_len levels.old + 2 ≤ vec_capacity levels.old }
    requires window { from < until }
    ensures levels { HasLevels levels.new.items }
    ensures kept { (free : ℕ → Amount) → IsLevelled free levels.old.items → IsLevelled free levels.new.items }
    ensures ends { AreEnds levels.new.items result.0 result.1 from until }
    ensures len { vec_len levels.new ≤ vec_len levels.old + 2 }
    ensures capacity { vec_capacity levels.old ≤ vec_capacity levels.new }
{
    let first = cut(levels, from);
    let end = cut(levels, until);
    (first, end)
}

// Drops the levels at these two places that say nothing new.
fn join_window(levels: &mut Vec<Level>, first: usize, end: usize)
    requires levels { HasLevels levels.old.items }
    requires order { first < end }
    requires inside { end < length levels.old.items }
    ensures kept { (free : ℕ → Amount) → IsLevelled free levels.old.items → IsLevelled free levels.new.items }
    ensures len { vec_len levels.new ≤ vec_len levels.old }
    ensures capacity { vec_capacity levels.old ≤ vec_capacity levels.new }
{
    join(levels, end);
    if first > 0 {
        join(levels, first);
    }
}

// Takes the amount off the levels from `first` on and before `end`.
fn lower(levels: &mut Vec<Level>, first: usize, end: usize, amount: &Amount)
    requires order { first ≤ end }
    requires end { end ≤ length levels.old.items }
    requires cpus { (i : ℕ) (d : Level) → first ≤ i → i < end
        → amount.now.cpus ≤ (slice_index_or levels.old.items i d).free.cpus }
    requires mem { (i : ℕ) (d : Level) → first ≤ i → i < end
        → amount.now.mem ≤ (slice_index_or levels.old.items i d).free.mem }
    ensures changed { AreChanged (less amount.now) first end levels.old.items levels.new.items }
    ensures len { vec_len levels.new ≡ vec_len levels.old }
    ensures capacity { vec_capacity levels.new ≡ vec_capacity levels.old }
{
    for i in first..end {
        levels[i].free.cpus -= amount.cpus;
        levels[i].free.mem -= amount.mem;
    }
}

// Adds the amount to the levels from `first` on and before `end`, which stay within the room.
fn lift(levels: &mut Vec<Level>, first: usize, end: usize, amount: &Amount, room: NodeRoom)
    requires order { first ≤ end }
    requires end { end ≤ length levels.old.items }
    requires cpus { (i : ℕ) (d : Level) → first ≤ i → i < end
        → (slice_index_or levels.old.items i d).free.cpus + amount.now.cpus ≤ room.cpus }
    requires mem { (i : ℕ) (d : Level) → first ≤ i → i < end
        → (slice_index_or levels.old.items i d).free.mem + amount.now.mem ≤ room.mem }
    ensures changed { AreChanged (more amount.now) first end levels.old.items levels.new.items }
    ensures len { vec_len levels.new ≡ vec_len levels.old }
    ensures capacity { vec_capacity levels.new ≡ vec_capacity levels.old }
{
    for i in first..end {
        levels[i].free.cpus += amount.cpus;
        levels[i].free.mem += amount.mem;
    }
}

// Takes what the hold takes off the levels of its window.
pub(crate) fn take(levels: &mut Vec<Level>, hold: &Hold)
    requires room { vec_len levels.old + 2 ≤ vec_capacity levels.old }
    requires window { hold.now.from < hold.now.until }
    requires free { CanTake levels.old.items hold.now }
    ensures kept { (free : ℕ → Amount) → IsLevelled free levels.old.items
        → IsLevelled (taken hold.now free) levels.new.items }
    ensures len { vec_len levels.new ≤ vec_len levels.old + 2 }
    ensures capacity { vec_capacity levels.old ≤ vec_capacity levels.new }
{
    let (first, end) = cut_window(levels, hold.from, hold.until);
    let amount = hold.amount();
    lower(levels, first, end, &amount);
    join_window(levels, first, end);
}

// Gives what the hold takes back to the levels of its window.
pub(crate) fn give(levels: &mut Vec<Level>, hold: &Hold, room: NodeRoom)
    requires room { vec_len levels.old + 2 ≤ vec_capacity levels.old }
    requires window { hold.now.from < hold.now.until }
    requires small { CanGive levels.old.items hold.now room }
    ensures kept { (free : ℕ → Amount) → IsLevelled free levels.old.items
        → IsLevelled (given hold.now free) levels.new.items }
    ensures len { vec_len levels.new ≤ vec_len levels.old + 2 }
    ensures capacity { vec_capacity levels.old ≤ vec_capacity levels.new }
{
    let (first, end) = cut_window(levels, hold.from, hold.until);
    let amount = hold.amount();
    lift(levels, first, end, &amount, room);
    join_window(levels, first, end);
}

// Where the level at the place begins; after all moments where there is none.
pub(crate) fn begin_of(levels: &[Level], place: usize) -> u64
    ensures inside { (d : Level) → place < length levels.now → result ≡ (slice_index_or levels.now place d).from }
    ensures past { length levels.now ≤ place → result ≡ 2 ^ 64 - 1 }
{
    if place < levels.len() {
        levels[place].from
    } else {
        u64::MAX
    }
}

// The least that some levels say, and the places behind the last of them that say it.
#[derive(Clone, Copy)]
struct Lowest {
    free: Amount,
    behind_cpus: usize,
    behind_mem: usize,
}

impl Lowest {
    // With what the level at the place says too.
    fn with(self, free: Amount, place: usize) -> Lowest
        requires { place + 1 < 2 ^ 64 }
        ensures cpus { result.free.cpus ≡ min self.free.cpus free.cpus }
        ensures mem { result.free.mem ≡ min self.free.mem free.mem }
        ensures behind_cpus { result.behind_cpus
            ≡ (if nat_le free.cpus self.free.cpus then place + 1 else self.behind_cpus) }
        ensures behind_mem { result.behind_mem
            ≡ (if nat_le free.mem self.free.mem then place + 1 else self.behind_mem) }
    {
        Lowest {
            free: Amount {
                cpus: self.free.cpus.min(free.cpus),
                mem: self.free.mem.min(free.mem),
            },
            behind_cpus: if free.cpus <= self.free.cpus {
                place + 1
            } else {
                self.behind_cpus
            },
            behind_mem: if free.mem <= self.free.mem {
                place + 1
            } else {
                self.behind_mem
            },
        }
    }
}

// How far the levels from the place on say no less. It walks no further than to the limit.
fn reach(levels: &[Level], place: usize, limit: u64, least: Amount) -> usize
    requires { place ≤ length levels.now }
    ensures low { place ≤ result }
    ensures high { result ≤ length levels.now }
    ensures cpus { (i : ℕ) (d : Level) → place ≤ i → i < result
        → least.cpus ≤ (slice_index_or levels.now i d).free.cpus }
    ensures mem { (i : ℕ) (d : Level) → place ≤ i → i < result
        → least.mem ≤ (slice_index_or levels.now i d).free.mem }
{
    let mut end = place;
    while end < levels.len()
        && levels[end].from < limit
        && least.cpus <= levels[end].free.cpus
        && least.mem <= levels[end].free.mem
    {
        end += 1;
    }
    end
}

// The least that is free over the window, and how far it may move.
pub(crate) fn least_free(levels: &[Level], from: u64, until: u64) -> Window
    requires levels { HasLevels levels.now }
    requires window { from < until }
    ensures { (free : ℕ → Amount) → IsLevelled free levels.now → IsSteady free from until result }
{
    let begun = begun(levels, from);
    let mut lowest = Lowest {
        free: levels[begun - 1].free,
        behind_cpus: begun,
        behind_mem: begun,
    };
    let mut place = begun;
    while place < levels.len() && levels[place].from < until {
        lowest = lowest.with(levels[place].free, place);
        place += 1;
    }
    let begins_before = begin_of(levels, lowest.behind_cpus.min(lowest.behind_mem));
    let limit = until.saturating_add(begins_before.saturating_sub(from));
    let end = reach(levels, place, limit, lowest.free);
    Window {
        free: lowest.free,
        begins_before,
        ends_up_to: begin_of(levels, end),
    }
}

// Whether one of the two is less than the amount's.
fn is_short(free: Amount, amount: Amount) -> bool
    ensures { IsTrue result ↔ ((free.cpus < amount.cpus) ⊎ (free.mem < amount.mem)) }
{
    free.cpus < amount.cpus || free.mem < amount.mem
}

// Where the last level ends that says less than the amount within the window; None where none does.
pub(crate) fn short_until(levels: &[Level], from: u64, until: u64, amount: Amount) -> Option<u64>
    requires levels { HasLevels levels.now }
    requires window { from < until }
    ensures { IfSome result (λ bound. (free : ℕ → Amount) → IsLevelled free levels.now
        → IsShort free amount from until bound) }
{
    let mut place = begun(levels, until - 1);
    while place > 0 {
        let level = levels[place - 1];
        if is_short(level.free, amount) {
            return Some(begin_of(levels, place));
        }
        if level.from <= from {
            return None;
        }
        place -= 1;
    }
    None
}
