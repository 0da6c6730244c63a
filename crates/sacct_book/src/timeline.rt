//! The timeline of an association: how many processors its running jobs held, from moment to moment.

ghost use Rattle.std.specs.Prelude.{◌≡◌, ◌≤◌, ◌<◌, ◌+◌, ◌-◌, ◌*◌, ◌^◌, ℕ, min, sum_by, vec_len, vec_capacity};
ghost use Rattle.sacct_book.specs.declared.window.Window.{Window};
ghost use Rattle.sacct_book.specs.Windows.{seconds_in};
ghost use Rattle.sacct_book.specs.Times as spec;

use crate::window::{Window, seconds_in};
use small_texts::memory_error::Memory;
use std::alloc::Global;

/// A stretch of time that is over, in which so many processors were held (own).
#[derive(Clone, Copy)]
pub(crate) struct Stretch {
    pub(crate) cpus: u64,
    pub(crate) from: u64,
    /// The first second behind it.
    pub(crate) until: u64,
}

/// What an association's running jobs held (own).
#[derive(Drop)]
pub(crate) struct Timeline {
    // In order. Stretches in which nothing was held are left out.
    pub(crate) past: Vec<Stretch>,
    // What is held now.
    pub(crate) cpus: u64,
    // Since when.
    pub(crate) since: u64,
}

// What was held in a stretch, for each of its seconds in the window. The number stands still at its type's end.
fn share_of(window: Window, stretch: &Stretch) -> u64
    ensures { result ≡ min (spec.share_of window stretch.now) (2 ^ 64 - 1) }
{
    stretch
        .cpus
        .saturating_mul(seconds_in(window, stretch.from, stretch.until))
}

// Ends a stretch, and keeps it where something was held in it.
fn close(past: &mut Vec<Stretch>, cpus: u64, from: u64, until: u64)
    requires { vec_len past.old < vec_capacity past.old }
    ensures { (window : Window) → sum_by (spec.share_of window) past.new.items
        ≡ sum_by (spec.share_of window) past.old.items + cpus * seconds_in window from until }
{
    if cpus == 0 || from == until {
        return;
    }
    past.push(Stretch { cpus, from, until }).unwrap();
}

impl Timeline {
    ghost use Rattle.std.specs.Prelude.{◌≡◌, ◌≤◌, ◌-◌, ◌^◌, min, OnOk};
    ghost use Rattle.sacct_book.specs.Times as spec;

    /// From a moment on so many processors are held; nothing was before.
    pub(crate) fn new(alloc: Global, cpus: u64, moment: u64) -> Timeline
        ensures { spec.times_of result ≡ spec.begun moment cpus }
    {
        Timeline {
            past: Vec::new(alloc),
            cpus,
            since: moment,
        }
    }

    /// Takes the room for one more stretch.
    pub(crate) fn make_room(&mut self) -> Result<(), Memory>
        ensures same { spec.times_of self.new ≡ spec.times_of self.old }
        ensures room { OnOk result (spec.HasRoom self.new) }
    {
        self.past.reserve(1)?;
        Ok(())
    }

    /// From a moment on so many processors are held. It takes no memory.
    pub(crate) fn go_on(&mut self, cpus: u64, moment: u64)
        requires room { spec.HasRoom self.old }
        requires since { self.old.since ≤ moment }
        ensures { spec.GoesOn moment cpus (spec.times_of self.old) (spec.times_of self.new) }
    {
        if self.cpus == cpus {
            return;
        }
        close(&mut self.past, self.cpus, self.since, moment);
        self.cpus = cpus;
        self.since = moment;
    }

    /// What was held in the window until a moment, for each of its seconds. The number stands still at its type's end.
    /// Linear in the stretches; it takes no memory.
    #[tactic(auto, unfolding(crate::specs::Times::used_in))]
    pub(crate) fn used_in(&self, window: Window, now: u64) -> u64
        ensures { result ≡ min (spec.used_in (spec.times_of self.now) window now) (2 ^ 64 - 1) }
    {
        let mut used = self
            .cpus
            .saturating_mul(seconds_in(window, self.since, now));
        for stretch in &self.past {
            used = used.saturating_add(share_of(window, stretch));
        }
        used
    }
}
