//! A value whose entries are the numbers of the passes that made them, and threads that make such entries.

ghost use Rattle.std.specs.Prelude.{◌≡◌, ◌≢◌, ◌<◌, ◌≤◌, ◌+◌, ◌^◌, ◌++◌, ◌∷◌, ◌==◌, [], length, filter, IfSome};
ghost use Rattle.std.specs.Bool.{OnTrue, OnFalse};
ghost use Rattle.turn_lock.specs.Passes.{SeesMore};

use std::alloc::Global;
use std::sync::Wait;
use std::thread::{Threads, join};
use turn_lock::{Held, Kept, Pass, TurnLock};

/// The numbers of passes, one for each mark.
#[derive(Drop)]
pub struct Marks {
    pub numbers: Vec<u32>,
}

impl Kept<u32> for Marks {
    ghost entries = { λ marks. marks.numbers.items };

    ghost bearer = { λ number. number };

    ghost begins_as = { λ _ _. Unit {0} };

    fn len(&self) -> u64 {
        self.numbers.len() as u64
    }
}

/// A lock of marks.
pub type MarkLock = TurnLock<Marks, u32>;

/// A pass of it.
pub type MarkPass = Pass<Marks, u32>;

/// A lock without marks, and its first pass.
pub fn mark_lock(alloc: Global) -> Option<(MarkLock, MarkPass)>
    ensures lock { IfSome result (λ made. made.1.lock ≡ made.0) }
    ensures number { IfSome result (λ made. (made.1.number ≡ 0) × (made.1.mine ≡ []) × (made.1.taken ≡ [])) }
{
    let numbers = Vec::new(alloc);
    match TurnLock::new(alloc, Marks { numbers }) {
        Ok(made) => Some(made),
        Err(_) => None,
    }
}

// Makes a mark, where there is memory, and whether it did.
fn push(marks: &mut Marks, number: u32) -> bool
    requires { length marks.old.numbers.items < 2 ^ 62 }
    ensures made { OnTrue result (marks.new.numbers.items ≡ marks.old.numbers.items ++ number ∷ []) }
    ensures none { OnFalse result (marks.new.numbers.items ≡ marks.old.numbers.items) }
    ensures short { length marks.new.numbers.items < 2 ^ 62 }
{
    marks.numbers.len() < 1_000_000_000 && marks.numbers.push(number).is_ok()
}

/// Takes the turn, and makes a mark where there is memory; whether it did.
pub fn mark<R: Wait>(rt: &R, lock: &MarkLock, pass: MarkPass) -> (MarkPass, bool)
    requires { pass.lock ≡ lock.now }
    ensures lock { result.0.lock ≡ pass.lock }
    ensures number { (result.0.number ≡ pass.number) × (result.0.taken ≡ pass.taken) }
    ensures made { OnTrue result.1 (result.0.mine ≡ pass.mine ++ pass.number ∷ []) }
    ensures none { OnFalse result.1 (result.0.mine ≡ pass.mine) }
{
    let Held { mut value, turn } = lock.enter(rt, pass);
    let made = push(&mut value, turn.number());
    (lock.leave(Held { value, turn }), made)
}

/// Makes so many marks, one at each turn; none where memory is wanting.
pub fn mark_often<R: Wait>(rt: &R, lock: &MarkLock, pass: MarkPass, count: u32) -> Option<MarkPass>
    requires { pass.lock ≡ lock.now }
    ensures lock { IfSome result (λ after. after.lock ≡ pass.lock) }
    ensures number { IfSome result (λ after. (after.number ≡ pass.number) × (after.taken ≡ pass.taken)) }
    ensures made { IfSome result (λ after. length after.mine ≡ length pass.mine + count) }
{
    let mut pass = pass;
    for _done in 0..count {
        let (after, made) = mark(rt, lock, pass);
        if !made {
            return None;
        }
        pass = after;
    }
    Some(pass)
}

/// Two threads make so many marks each. Of the marks that the lock has then, the number of each stands so often. It
/// answers how many marks were seen when the two passes met, the second pass's number, and the marks.
pub fn mark_by_two<R: Threads + Wait + Sync>(
    rt: &R,
    alloc: Global,
    count: u32,
) -> Option<(u64, u32, Marks)>
    ensures first { IfSome result (λ made. length (filter (λ number. number == 0) made.2.numbers.items) ≡ count) }
    ensures second { IfSome result (λ made.
        length (filter (λ number. number == made.1) made.2.numbers.items) ≡ count) }
    ensures apart { IfSome result (λ made. made.1 ≢ 0) }
{
    let (lock, mut first) = mark_lock(alloc)?;
    let second = lock.split(&mut first).ok()?;
    let number = second.number();
    let (first, second) = join(
        rt,
        || -> Option<MarkPass>
            requires { (first.lock ≡ lock) × (first.number ≡ 0) × (first.mine ≡ []) × (first.taken ≡ []) }
            ensures lock { IfSome result (λ after. after.lock ≡ lock) }
            ensures made { IfSome result (λ after.
                (after.number ≡ 0) × (after.taken ≡ []) × (length after.mine ≡ count)) }
        { mark_often(rt, &lock, first, count) },
        || -> Option<MarkPass>
            requires { (second.lock ≡ lock) × (second.number ≡ number) × (second.mine ≡ [])
                × (second.taken ≡ []) }
            ensures lock { IfSome result (λ after. after.lock ≡ lock) }
            ensures made { IfSome result (λ after.
                (after.number ≡ number) × (after.taken ≡ []) × (length after.mine ≡ count)) }
        {
            let _ = &number;
            mark_often(rt, &lock, second, count)
        },
    );
    let mut first = first?;
    let seen = lock.meet(&mut first, second?);
    let held = lock.enter(rt, first);
    let _ = held.turn.number();
    let marks = lock.finish(held);
    Some((seen, number, marks))
}
