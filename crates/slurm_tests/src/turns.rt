// Threads that take turns, and what the calls answer while somebody else has the turn.
ghost use Rattle.std.specs.Prelude.{◌≡◌};

use crate::marks::{MarkLock, MarkPass, mark, mark_by_two, mark_lock};
use std::sync::Wait;
use std::test::Fail;
use turn_lock::Busy;

#[test]
fn two_threads_make_their_marks(rt: HostRuntime) -> Result<(), Fail> {
    let Some((seen, number, marks)) = mark_by_two(&rt, rt.alloc(), 1000) else {
        return Err("no marks were made".into());
    };
    assert_eq!(rt; (seen, marks.numbers.len()), (2000, 2000));
    let ones = marks.numbers.iter().filter(|mark| **mark == number).count();
    assert_eq!(rt; (number, ones), (1, 1000));
    Ok(())
}

// A lock with three marks, whose turn the first of two passes has.
#[test]
fn a_turn_that_is_out_is_busy(rt: HostRuntime) -> Result<(), Fail> {
    let Some((lock, mut first)) = mark_lock(rt.alloc()) else {
        return Err("no lock was made".into());
    };
    let Ok(second) = lock.split(&mut first) else {
        return Err("no second pass was made".into());
    };
    let first = mark_three(&rt, &lock, first);
    let held = lock.enter(&rt, first);
    let (second, words) = match lock.try_enter(second) {
        Ok(other) => (lock.leave(other), None),
        Err(Busy { pass, looked, word }) => (pass, Some((looked, word))),
    };
    lock.leave(held);
    assert_eq!(rt; words, Some((7, 7)));
    let Ok(held) = lock.try_enter(second) else {
        return Err("nobody had the turn".into());
    };
    let mut second = lock.leave(held);
    assert_eq!(rt; lock.look(&mut second), 3);
    Ok(())
}

fn mark_three<R: Wait>(rt: &R, lock: &MarkLock, pass: MarkPass) -> MarkPass
    requires { pass.lock ≡ lock.now }
    ensures { result.lock ≡ lock.now }
{
    let (pass, _) = mark(rt, lock, pass);
    let (pass, _) = mark(rt, lock, pass);
    mark(rt, lock, pass).0
}
