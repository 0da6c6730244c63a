//! The desk of a single thread.

ghost use Rattle.std.specs.Prelude.{◌≡◌, []};

use crate::book::Book;
use crate::desk::Desk;
use crate::entry::Answer;
use backfill_planner::Planned;
use ctl_pass::PlanInput;
use request_data::request::Request;
use resource_profile::{Plain, Steps};
use small_texts::memory_error::Memory;
use small_texts::name::Name;
use std::marker::Model;

/// A desk that owns the book. Its entries bear the number 0, and all that come since it was made are its own.
#[derive(Drop)]
pub struct OwnDesk {
    book: Book,
    /// How many entries the book had when the desk was made.
    before: u64,
}

impl Model for OwnDesk {
    ghost use Rattle.std.specs.Prelude.{◌≤◌, length, take, drop};
    ghost use Rattle.ctl_desk.specs.Desk.{Seat};

    ghost Value = { Seat };

    ghost view = { λ d. record {
      opening = d.book.opening;
      before = take d.before d.book.entries;
      since = drop d.before d.book.entries;
    } };

    ghost invariant = { λ d. d.before ≤ length d.book.entries };
}

/// A desk at this book.
pub fn own_desk(book: Book) -> OwnDesk
    ensures { result ≡ record { opening = book.opening; before = book.entries; since = [] } }
{
    let before = book.len();
    OwnDesk { book, before }
}

impl OwnDesk {
    ghost use Rattle.std.specs.Prelude.{◌≡◌, ◌++◌};

    /// The book, with all that was entered. It takes no memory.
    pub fn into_book(self) -> Book
        ensures opening { result.opening ≡ self.opening }
        ensures entries { result.entries ≡ self.before ++ self.since }
    {
        self.book
    }

    /// Lets it go, with its book.
    pub fn let_go(self) {}
}

impl Desk for OwnDesk {
    ghost use Rattle.ctl_desk.specs.Desk.{sight_of};

    ghost sight = { sight_of };

    fn ask(&mut self, now: u64, user: &Name, request: Request) -> Result<Answer, Memory> {
        self.book.ask(0, now, user, request)
    }

    fn pass(
        &mut self,
        now: u64,
        user: &Name,
        hint: Option<Planned>,
        steps: &mut Steps<Plain>,
    ) -> Result<Answer, Memory> {
        self.book.pass(0, now, user, hint, steps)
    }

    fn input(&mut self, now: u64) -> Result<PlanInput, Memory> {
        self.book.input(now)
    }

    fn seen_len(&self) -> u64 {
        self.book.len()
    }

    fn shut(&self) -> bool {
        self.book.ctl().is_shut()
    }

    fn refresh(&mut self) -> bool {
        self.shut()
    }
}
