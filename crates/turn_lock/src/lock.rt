//! The lock.

ghost use Rattle.std.specs.Prelude.{◌≡◌, ◌<◌, ◌/◌, ◌%◌, ◌^◌, ◌++◌, [], ℕ, length, IfOk, IfErr, IfSome, Some};
ghost use Rattle.turn_lock.specs.declared.view.Kind.TheVariants.{Look};
ghost use Rattle.turn_lock.specs.Views.{found_word};
ghost use Rattle.turn_lock.specs.Passes.{SeesMore, HasTurn, IsBusyBy, IsFreeBy, Adds, seen_all, another, IsRefusedBy, Meets};

use crate::kept::Kept;
use crate::pass::{Held, Pass, Turn};
use crate::plays::{Cut, Glue, LeaveStep, LookStep, NumberLookStep, NumberStep, TakeStep};
use crate::refusal::SplitRefusal;
use crate::rule::{LockSeat, LockTable};
use atomic_table::Table;
use std::alloc::{AllocError, Global};
use std::marker::Model;
use std::snapshot::Snapshot;
use std::sync::Wait;

/// How many passes a lock has numbers for (own).
pub const MOST_PASSES: u64 = 4_294_967_296;

/// A lock for a value with a history. Contracts see it as the name of its table, which its passes bear too.
#[derive(Drop)]
pub struct TurnLock<B: Kept<E>, E> {
    table: LockTable<B, E>,
}

impl<B: Kept<E>, E> Model for TurnLock<B, E> {
    ghost use Rattle.std.specs.Prelude.{◌≡◌};
    ghost use Rattle.atomic_table.specs.Seated.{TableId};

    ghost Value = { TableId };

    ghost view = { λ lock. lock.table.shared.table_id };

    ghost invariant = { λ lock. (lock.table.shared.table_id.words ≡ 2) × (lock.table.shared.table_id.slots ≡ 1) };
}

/// Somebody else has the turn. The pass comes back.
#[derive(Drop)]
pub struct Busy<B: Kept<E>, E> {
    pub pass: Pass<B, E>,
    /// The word of the turn, as it was looked at: twice the number of entries, and one more while somebody has the
    /// turn.
    pub looked: u64,
    /// The same word, as it was found when the turn was to be taken.
    pub word: u64,
}

impl<B: Kept<E>, E> TurnLock<B, E> {
    /// A lock that keeps this value, and its first pass, of number 0.
    pub fn new(alloc: Global, value: B) -> Result<(TurnLock<B, E>, Pass<B, E>), AllocError>
        requires empty { B.entries value ≡ [] }
        requires begins { B.begins_as value value }
        ensures lock { IfOk result (λ made. made.1.lock ≡ made.0) }
        ensures first { IfOk result (λ made. made.1.first ≡ Some value) }
        ensures seen { IfOk result (λ made. (made.1.number ≡ 0) × (made.1.seen ≡ []) × (made.1.mine ≡ [])) }
        ensures alone { IfOk result (λ made. (made.1.taken ≡ []) × (made.1.found ≡ [])) }
    {
        let first = Snapshot::of(&value);
        let mut slots = Vec::new(alloc);
        slots.push(Some(value))?;
        match Table::new(alloc, &[0, 1], slots, &first) {
            Ok((table, seat)) => Ok((TurnLock { table }, Pass { seat, number: 0 })),
            Err(_) => Err(AllocError),
        }
    }

    /// How many entries there are. The pass has seen them then. It takes one step, and doesn't wait.
    pub fn look(&self, pass: &mut Pass<B, E>) -> u64
        requires own { pass.old.lock ≡ self.now }
        ensures sees { SeesMore pass.old pass.new }
        ensures count { result ≡ length pass.new.seen }
        ensures found { (word : ℕ) × (result ≡ word / 2)
            × (pass.new.found ≡ pass.old.found ++ found_word Look word) }
    {
        self.table.shared.load::<LookStep<B, E>>(&mut pass.seat, 0) / 2
    }

    /// Takes the turn, or gives the pass back where somebody else has it. It doesn't wait, and takes no memory.
    pub fn try_enter(&self, pass: Pass<B, E>) -> Result<Held<B, E>, Busy<B, E>>
        requires own { pass.lock ≡ self.now }
        ensures held { IfOk result (λ held. HasTurn B.entries B.begins_as pass held.turn held.value) }
        ensures free { IfOk result (λ held. IsFreeBy pass held.turn) }
        ensures sees { IfErr result (λ busy. SeesMore pass busy.pass) }
        ensures busy { IfErr result (λ busy. IsBusyBy pass busy.pass busy.looked busy.word) }
    {
        let Pass { mut seat, number } = pass;
        let shared = &self.table.shared;
        let looked = shared.load::<LookStep<B, E>>(&mut seat, 0);
        if looked % 2 == 1 {
            let pass = Pass { seat, number };
            return Err(Busy {
                pass,
                looked,
                word: looked,
            });
        }
        let word = shared.compare_exchange::<TakeStep<B, E>>(&mut seat, 0, looked, looked + 1);
        if word != looked {
            let pass = Pass { seat, number };
            return Err(Busy { pass, looked, word });
        }
        let value = shared.exchange(&mut seat, 0, None).unwrap();
        let turn = Turn { seat, number };
        Ok(Held { value, turn })
    }

    /// Takes the turn, and waits until nobody else has it.
    pub fn enter<R: Wait>(&self, rt: &R, pass: Pass<B, E>) -> Held<B, E>
        requires own { pass.lock ≡ self.now }
        ensures { HasTurn B.entries B.begins_as pass result.turn result.value }
    {
        let mut pass = pass;
        for _ in rt.forever() {
            match self.try_enter(pass) {
                Ok(held) => return held,
                Err(
                    Busy {
                        pass: back,
                        word,
                        ..
                    },
                ) => {
                    if word % 2 == 1 {
                        self.park(rt, word);
                    }
                    pass = back;
                }
            }
        }
        unreachable!()
    }

    // Sleeps until the turn is given back, unless the word of the turn, by which somebody has it, is another by now.
    fn park<R: Wait>(&self, rt: &R, word: u64)
        requires taken { word % 2 ≡ 1 }
    {
        self.table.shared.park(rt, 0, low_half(word));
    }

    /// Gives the turn back with the value, whose entries may have become more. It takes no memory, and doesn't wait.
    pub fn leave(&self, held: Held<B, E>) -> Pass<B, E>
        requires own { held.turn.lock ≡ self.now }
        requires entries { Adds B.entries B.bearer held.turn held.value }
        requires begins { IfSome held.turn.first (λ first. B.begins_as first held.value) }
        requires short { length (B.entries held.value) < 2 ^ 62 }
        ensures { result ≡ seen_all B.entries B.bearer held.turn held.value }
    {
        let Held { value, turn } = held;
        let Turn { mut seat, number } = turn;
        let shared = &self.table.shared;
        let word = 2 * value.len();
        shared.exchange(&mut seat, 0, Some(value));
        shared.store::<LeaveStep<B, E>>(&mut seat, 0, word);
        shared.wake_one(0);
        Pass { seat, number }
    }

    /// A further pass, which has seen as much and made nothing. It takes no memory, and doesn't wait.
    pub fn split(&self, pass: &mut Pass<B, E>) -> Result<Pass<B, E>, SplitRefusal>
        requires own { pass.old.lock ≡ self.now }
        ensures ok { IfOk result (λ new. (new ≡ another pass.old new.number) × (pass.new ≡ pass.old)) }
        ensures err { IfErr result (λ refusal. IsRefusedBy pass.old pass.new refusal) }
    {
        let shared = &self.table.shared;
        let mut seat = shared.split_seat::<Cut>(&mut pass.seat);
        let made = shared.load::<NumberLookStep>(&mut seat, 1);
        if made >= MOST_PASSES {
            shared.join_seat::<Glue>(&mut pass.seat, seat);
            return Err(SplitRefusal::Spent { made });
        }
        let word = shared.compare_exchange::<NumberStep<B, E>>(&mut seat, 1, made, made + 1);
        if word != made {
            shared.join_seat::<Glue>(&mut pass.seat, seat);
            return Err(SplitRefusal::Raced { looked: made, word });
        }
        Ok(Pass {
            seat,
            number: made as u32,
        })
    }

    /// Takes in another pass, and looks. It answers how many entries there are.
    pub fn meet(&self, pass: &mut Pass<B, E>, other: Pass<B, E>) -> u64
        requires own { (pass.old.lock ≡ self.now) × (other.lock ≡ self.now) }
        ensures meets { Meets pass.old other pass.new }
        ensures count { result ≡ length pass.new.seen }
        ensures found { (word : ℕ) × (result ≡ word / 2)
            × (pass.new.found ≡ (pass.old.found ++ other.found) ++ found_word Look word) }
    {
        let Pass { seat, number: _ } = other;
        let shared = &self.table.shared;
        shared.join_seat::<Glue>(&mut pass.seat, seat);
        shared.load::<LookStep<B, E>>(&mut pass.seat, 0) / 2
    }

    /// Ends the lock: the value as its holder leaves it. It takes no memory, and doesn't wait.
    pub fn finish(self, held: Held<B, E>) -> B
        requires own { held.turn.lock ≡ self }
        ensures { result ≡ held.value }
    {
        let Held { value, turn } = held;
        let Turn { seat: _, number: _ } = turn;
        value
    }
}

// The lower 32 bits of a word.
fn low_half(word: u64) -> u32
    ensures { result ≡ word % 2 ^ 32 }
{
    (word % 4_294_967_296) as u32
}
