//! The sums of what users have used.

ghost use Rattle.std.specs.Prelude.{◌≡◌, ◌≤◌, ◌<◌, ◌++◌, ◌∷◌, [], IfOk, OnOk, OnErr, length, map, vec_len, vec_capacity};
ghost use Rattle.ctl_core.specs.Step.{state_after};
ghost use Rattle.ctl_state.specs.Soundness.{IsSound};
ghost use Rattle.ctl_state.specs.State.{last_moment};
ghost use Rattle.ctl_desk.specs.History.{IsLegal, present};
ghost use Rattle.sacct_book.specs.Keeping.{AllGoOn, KeepsUse, TellsHeld};
ghost use Rattle.sacct_book.specs.Running.{AreCounted};
ghost use Rattle.sacct_book.specs.Times.{times_of};
ghost use Rattle.sacct_book.specs.Used as spec;

use crate::following::follow;
use crate::running::count_running;
use crate::timeline::Timeline;
use crate::timelines::begin;
use crate::window::Window;
use ctl_core::controller::Ctl;
use ctl_desk::entry::{Entry, let_all_go};
use run_limits::assocs::Assocs;
use small_texts::memory_error::Memory;
use small_texts::name::Name;
use std::alloc::Global;
use std::marker::Model;

/// What users have used, kept along a history. A contract sees the opening and the entries.
pub struct Sums {
    opening: Ctl,
    entries: Vec<Entry>,
    // The controller after the entries.
    ctl: Ctl,
    // What the running jobs of each association held, in the order of the associations.
    timelines: Vec<Timeline>,
    // How many processors the running jobs of each association hold.
    held: Vec<u64>,
}

impl Model for Sums {
    ghost use Rattle.std.specs.Prelude.{◌≡◌, length, map};
    ghost use Rattle.ctl_desk.specs.History.{History, after_all};
    ghost use Rattle.sacct_book.specs.Keeping.{KeepsUse};
    ghost use Rattle.sacct_book.specs.Running.{AreCounted};
    ghost use Rattle.sacct_book.specs.Times.{times_of};

    ghost Value = { History };

    ghost view = { λ sums. record { opening = sums.opening.state; entries = sums.entries.items } };

    ghost invariant = { λ sums. (sums.ctl.state ≡ after_all sums.opening.state sums.entries.items)
        × KeepsUse (record { opening = sums.opening.state; entries = sums.entries.items })
        (map times_of sums.timelines.items)
        × (length sums.held.items ≡ length sums.timelines.items)
        × AreCounted sums.ctl.state.jobs sums.held.items };
}

// What the running jobs of each association hold at the controller, and timelines that begin with it.
fn begin_all(alloc: Global, ctl: &Ctl) -> Result<(Vec<u64>, Vec<Timeline>), Memory>
    ensures counts { IfOk result (λ made. AreCounted ctl.now.state.jobs made.0.items) }
    ensures keeps { IfOk result (λ made.
        KeepsUse (record { opening = ctl.now.state; entries = [] }) (map times_of made.1.items)) }
    ensures len { IfOk result (λ made. vec_len made.0 ≡ vec_len made.1) }
{
    let cluster = ctl.cluster();
    let mut held = vec![in alloc; 0; cluster.assocs.records().len()]?;
    count_running(&mut held, cluster.jobs.records());
    let timelines = begin(alloc, held.as_slice(), cluster.moment)?;
    Ok((held, timelines))
}

// Makes room for one entry more, has the controller decide this one once more, and the counts and the timelines follow it.
fn prepare(
    entries: &mut Vec<Entry>,
    ctl: &mut Ctl,
    timelines: &mut Vec<Timeline>,
    held: &mut Vec<u64>,
    entry: &Entry,
) -> Result<(), Memory>
    requires len { vec_len held.old ≡ vec_len timelines.old }
    requires counts { AreCounted ctl.old.state.jobs held.old.items }
    requires tells { TellsHeld ctl.old.state (map times_of timelines.old.items) }
    requires later { ctl.old.state.moment ≤ entry.now.moment }
    ensures items { entries.new.items ≡ entries.old.items }
    ensures spare { OnOk result (vec_len entries.new < vec_capacity entries.new) }
    ensures len { vec_len held.new ≡ vec_len timelines.new }
    ensures counts { AreCounted ctl.new.state.jobs held.new.items }
    ensures sound { OnOk result (IsSound ctl.new.state) }
    ensures after { OnOk result (ctl.new.state
        ≡ state_after ctl.old.state entry.now.moment entry.now.user entry.now.request) }
    ensures goes { OnOk result (AllGoOn entry.now.moment ctl.new.state.jobs (map times_of timelines.old.items)
        (map times_of timelines.new.items)) }
    ensures ctl_err { OnErr result (ctl.new ≡ ctl.old) }
    ensures times_err { OnErr result (map times_of timelines.new.items ≡ map times_of timelines.old.items) }
{
    let alloc = *entries.allocator();
    entries.reserve(1)?;
    follow(alloc, ctl, timelines, held, entry)
}

// Lets go of an entry, part by part.
fn let_go(entry: Entry) {
    let Entry { request, reply, .. } = entry;
    request.let_go();
    reply.let_go();
}

// Puts an entry behind the others, which have room for it.
fn push(entries: &mut Vec<Entry>, entry: Entry)
    requires { vec_len entries.old < vec_capacity entries.old }
    ensures { entries.new.items ≡ entries.old.items ++ entry ∷ [] }
{
    entries.push(entry).unwrap();
}

impl Sums {
    /// Sums of a history that has no entries yet. The caller makes the controller twice. Linear in associations, jobs
    /// and the parts of those that run.
    pub fn new(alloc: Global, opening: Ctl, current: Ctl) -> Result<Sums, Memory>
        requires same { current.state ≡ opening.state }
        ensures opening { IfOk result (λ sums. sums.opening ≡ opening.state) }
        ensures entries { IfOk result (λ sums. sums.entries ≡ []) }
    {
        match begin_all(alloc, &opening) {
            Ok((held, timelines)) => Ok(Sums {
                opening,
                entries: Vec::new(alloc),
                ctl: current,
                timelines,
                held,
            }),
            Err(Memory) => {
                opening.let_go();
                current.let_go();
                Err(Memory)
            }
        }
    }

    /// Goes on by an entry. The controller decides it once more, at its cost. Beside that an entry that can't change which
    /// jobs run takes constant time, and so does a report that tells of no start that is over. A cancel, a requeue and any
    /// other report look at the jobs that they name, and are linear in these and in the associations; so is a pass that
    /// ends and starts none, in the associations alone. Linear in the jobs too, and in the parts of those that run, are
    /// other passes, nodes that are set down, reports of restarted daemons, cancels of all jobs of a user, and what names
    /// more than 16. A stretch is kept only where an association's running jobs hold other processors than before.
    pub fn add(&mut self, entry: Entry) -> Result<(), Memory>
        requires legal { IsLegal self.old.opening (self.old.entries ++ entry ∷ []) }
        ensures opening { self.new.opening ≡ self.old.opening }
        ensures entries { OnOk result (self.new.entries ≡ self.old.entries ++ entry ∷ []) }
        ensures err { OnErr result (self.new ≡ self.old) }
    {
        match prepare(
            &mut self.entries,
            &mut self.ctl,
            &mut self.timelines,
            &mut self.held,
            &entry,
        ) {
            Ok(()) => {
                push(&mut self.entries, entry);
                Ok(())
            }
            Err(Memory) => {
                let_go(entry);
                Err(Memory)
            }
        }
    }

    /// Lets them go.
    pub fn let_go(self) {
        let Sums {
            opening,
            entries,
            ctl,
            timelines: _timelines,
            held: _held,
        } = self;
        opening.let_go();
        let_all_go(entries);
        ctl.let_go();
    }

    /// The controller after the entries. It takes no memory.
    pub fn ctl(&self) -> &Ctl
        ensures { result.now.state ≡ present self.now }
    {
        &self.ctl
    }

    /// The associations, in the order of the file. It takes no memory.
    pub fn assocs(&self) -> &Assocs
        ensures { result.now.records ≡ self.now.opening.assocs }
    {
        &self.opening.cluster().assocs
    }

    /// What the association at a place has used from a second on and before another, in seconds of one processor; what
    /// runs is counted until now. Linear in the association's stretches; it takes no memory.
    pub fn used_at(&self, place: u32, from: u64, until: u64, now: u64) -> u64
        requires there { place < length self.now.opening.assocs }
        requires after { (present self.now).moment ≤ now }
        requires last { now ≤ last_moment }
        ensures { result ≡ spec.used_at self.now place (record { from = from; until = until }) now }
    {
        self.timelines[place as usize].used_in(Window { from, until }, now)
    }

    /// What the user has used of the account from a second on and before another, in seconds of one processor; what
    /// runs is counted until now. Nothing where he has no association of it. Linear in the associations, of which it
    /// compares names, and in his stretches; it takes no memory. sacct(1), CPUTimeRAW.
    pub fn used(&self, user: &Name, account: &Name, from: u64, until: u64, now: u64) -> u64
        requires after { (present self.now).moment ≤ now }
        requires last { now ≤ last_moment }
        ensures { result ≡ spec.used self.now user.now account.now (record { from = from; until = until }) now }
    {
        match self.assocs().find(user, Some(account)) {
            Some(place) => self.used_at(place, from, until, now),
            None => 0,
        }
    }
}
