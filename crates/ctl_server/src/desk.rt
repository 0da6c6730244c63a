//! A desk of one of several threads.

ghost use Rattle.std.specs.Prelude.{◌≡◌, [], IfSome, Some};
ghost use Rattle.turn_lock.specs.Passes.{SeesMore, IsKnown};
ghost use Rattle.ctl_server.specs.Locked.{sight_there};
ghost use Rattle.ctl_desk.specs.Desk.{history_of};
ghost use Rattle.ctl_desk.specs.History.{IsHistory};

use crate::desk_turns::{ask_book, pass_book};
use backfill_planner::Planned;
use ctl_desk::book::Book;
use ctl_desk::desk::Desk;
use ctl_desk::entry::{Answer, Entry};
use ctl_pass::PlanInput;
use request_data::request::Request;
use resource_profile::{Plain, Steps};
use small_texts::memory_error::Memory;
use small_texts::name::Name;
use std::marker::Model;
use std::snapshot::Snapshot;
use std::sync::Wait;
use turn_lock::{Pass, TurnLock};

/// A lock that keeps a book.
pub type BookLock = TurnLock<Book, Entry>;

/// A pass of such a lock.
pub type BookPass = Pass<Book, Entry>;

/// A desk at the book that a lock keeps. Its entries bear the number of its pass. Each call but `shut` and `seen_len`
/// waits for the turn. Contracts see it as what its pass has seen (`LockedSeat`).
#[derive(Drop)]
pub struct LockedDesk<'a, R: Wait> {
    rt: &'a R,
    lock: &'a BookLock,
    pass: Option<BookPass>,
    /// The book, as its opening is known by.
    first: Snapshot<Book>,
    /// How many entries there were when the desk was made.
    before: u64,
    /// How many entries it has seen.
    len: u64,
    /// Whether a shutdown is among them.
    is_shut: bool,
}

impl<'a, R: Wait> Model for LockedDesk<'a, R> {
    ghost use Rattle.ctl_server.specs.Locked.{LockedSeat, HasPass};

    ghost Value = { LockedSeat };

    ghost view = { λ d. record { opening = d.first.value.opening; before = d.before; pass = d.pass } };

    ghost invariant = { λ d. HasPass d.lock.now d.first.value.opening d.before d.len d.is_shut d.pass };
}

/// A desk at the book of this lock, with this pass. It takes the turn once, to see what there is.
pub fn locked_desk<'a, R: Wait>(rt: &'a R, lock: &'a BookLock, pass: BookPass) -> LockedDesk<'a, R>
    requires own { pass.lock ≡ lock.now }
    ensures sees { IfSome result.pass (λ now. SeesMore pass now) }
    ensures opening { IfSome pass.first (λ first. result.opening ≡ first.opening) }
    ensures since { (sight_there result).since ≡ [] }
{
    let held = lock.enter(rt, pass);
    let first = Snapshot::of(&held.value);
    let len = held.value.len();
    let is_shut = held.value.ctl().is_shut();
    let _ = held.turn.number();
    let pass = lock.leave(held);
    let _ = pass.number();
    LockedDesk {
        rt,
        lock,
        pass: Some(pass),
        first,
        before: len,
        len,
        is_shut,
    }
}

impl<'a, R: Wait> LockedDesk<'a, R> {
    /// The pass of the desk. It takes no memory.
    pub fn into_pass(self) -> BookPass
        ensures pass { self.entry.pass ≡ Some result }
        ensures known { IsKnown (λ entry. entry.session) result }
    {
        let LockedDesk { pass, .. } = self;
        let Some(pass) = pass else { unreachable!() };
        let _ = pass.number();
        pass
    }
}

impl<'a, R: Wait> Desk for LockedDesk<'a, R> {
    ghost use Rattle.ctl_server.specs.Locked.{sight_there};

    ghost sight = { sight_there };

    fn ask(&mut self, now: u64, user: &Name, request: Request) -> Result<Answer, Memory> {
        let Some(pass) = self.pass.take() else {
            unreachable!()
        };
        let mut held = self.lock.enter(self.rt, pass);
        let number = held.turn.number();
        let answer = ask_book(&mut held.value, number, now, user, request);
        self.len = held.value.len();
        self.is_shut = held.value.ctl().is_shut();
        let pass = self.lock.leave(held);
        let _ = pass.number();
        self.pass = Some(pass);
        answer
    }

    fn pass(
        &mut self,
        now: u64,
        user: &Name,
        hint: Option<Planned>,
        steps: &mut Steps<Plain>,
    ) -> Result<Answer, Memory> {
        let Some(pass) = self.pass.take() else {
            unreachable!()
        };
        let mut held = self.lock.enter(self.rt, pass);
        let number = held.turn.number();
        let answer = pass_book(&mut held.value, number, now, user, hint, steps);
        self.len = held.value.len();
        self.is_shut = held.value.ctl().is_shut();
        let pass = self.lock.leave(held);
        let _ = pass.number();
        self.pass = Some(pass);
        answer
    }

    fn input(&mut self, now: u64) -> Result<PlanInput, Memory> {
        let Some(pass) = self.pass.take() else {
            unreachable!()
        };
        let mut held = self.lock.enter(self.rt, pass);
        let _ = held.turn.number();
        let input = held.value.input(now);
        self.len = held.value.len();
        self.is_shut = held.value.ctl().is_shut();
        let pass = self.lock.leave(held);
        let _ = pass.number();
        self.pass = Some(pass);
        input
    }

    fn seen_len(&self) -> u64 {
        self.len
    }

    fn shut(&self) -> bool {
        self.is_shut
    }

    fn refresh(&mut self) -> bool {
        let Some(pass) = self.pass.take() else {
            unreachable!()
        };
        let held = self.lock.enter(self.rt, pass);
        let _ = held.turn.number();
        self.len = held.value.len();
        self.is_shut = held.value.ctl().is_shut();
        let pass = self.lock.leave(held);
        let _ = pass.number();
        self.pass = Some(pass);
        self.is_shut
    }
}
