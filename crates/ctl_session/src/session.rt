//! A session over a link.

ghost use Rattle.std.specs.Prelude.{◌≡◌, ◌↔◌, IsTrue, true, ◌-◌, ◌^◌, ◌<◌, length};
ghost use Rattle.block_frame.specs.declared.form.Form.TheVariants.{Framed};
ghost use Rattle.ctl_desk.specs.Desk.{history_of};
ghost use Rattle.ctl_desk.specs.History.{IsHistory};
ghost use Rattle.ctl_session.specs.Clock.{timing};
ghost use Rattle.ctl_session.specs.Session.{Ending, IsServed, is_shut};
ghost use Rattle.ctl_session.specs.Turn.{IsLastLook, IsTurn, post};

use crate::answer::{Fault, answer_block};
use crate::outside::read_some;
use crate::reading::{Found, next_whole};
use block_frame::{Blocks, Form, blocks_are_short, nothing_is_partial, spellings_join};
use ctl_desk::desk::Desk;
use resource_profile::{Plain, Steps};
use slurm_io::{Failed, Link};
use slurm_net::Clock;
use std::alloc::Global;

/// The most blocks that one session answers (own).
const MOST_BLOCKS: u64 = 1_048_576;

/// How many bytes one read asks for.
const BUFFER_LEN: usize = 4096;

/// Why a session ended.
#[derive(Clone, Copy, Debug, PartialEq, Eq)]
pub enum How {
    /// The input ended, on the end of a block.
    Closed,
    /// The input ended within the block that begins at this byte.
    Truncated { place: u64 },
    /// No block can begin as the bytes from this one on do.
    Bad { place: u64 },
    /// As many blocks were answered as one session may have, and there are more bytes.
    Spent,
    ReadFault,
    WriteFault,
    /// A shutdown was accepted, as far as the desk had seen when it had answered a block. Only the framed form ends so.
    Shut,
    /// Want of memory. The history may then have the request of one block that was not answered, and the clock may have
    /// been read for it.
    Memory,
}

/// How a session ended, how many blocks it answered, and how often it read the clock.
#[derive(Clone, Copy, Debug, PartialEq, Eq)]
pub struct Ended {
    pub how: How,
    pub answered: u64,
    pub readings: u64,
}

/// Answers the next block, or says why the session ends.
fn turn<L: Link, D: Desk, C: Clock>(
    alloc: Global,
    form: Form,
    link: &mut L,
    desk: &mut D,
    clock: &mut C,
    readings: &mut u64,
    steps: &mut Steps<Plain>,
    blocks: &mut Blocks,
    buffer: &mut [u8],
) -> Option<How>
    requires room { 0 < length buffer.old }
    requires few { readings.old < 2 ^ 64 - 1 }
    ensures { IsTurn form (L.wire link.old) (L.wire link.new)
        (post (D.sight desk.old) (timing (C.course clock.old) (C.moments clock.old)) readings.old)
        (post (D.sight desk.new) (timing (C.course clock.new) (C.moments clock.new)) readings.new)
        blocks.old blocks.new result }
{
    let block = match next_whole(link, blocks, buffer) {
        Found::Whole(block) => block,
        Found::End if blocks.is_empty() => return Some(How::Closed),
        Found::End => return Some(How::Truncated {
            place: blocks.place(),
        }),
        Found::Bad { place } => return Some(How::Bad { place }),
        Found::ReadFault => return Some(How::ReadFault),
        Found::Memory => return Some(How::Memory),
    };
    match answer_block(alloc, form, link, desk, clock, readings, steps, &block) {
        Ok(()) => None,
        Err(Fault::Write) => Some(How::WriteFault),
        Err(Fault::Memory) => Some(How::Memory),
    }
}

/// Why a session ends that has answered as many blocks as it may.
fn last_look<L: Link>(link: &mut L, blocks: &Blocks, buffer: &mut [u8]) -> How
    requires { 0 < length buffer.old }
    ensures { IsLastLook (L.wire link.old) (L.wire link.new) blocks.now.pending result }
{
    if !blocks.is_empty() {
        return How::Spent;
    }
    match read_some(link, buffer) {
        Err(Failed) => How::ReadFault,
        Ok(0) => How::Closed,
        Ok(_) => How::Spent,
    }
}

/// Whether a session ends by a shutdown, behind an answer. In the plain form a shutdown doesn't end it.
fn ends_shut<D: Desk>(form: Form, desk: &D) -> bool
    ensures { IsTrue result ↔ ((form ≡ Framed) × (is_shut (D.sight desk.now) ≡ true)) }
{
    match form {
        Form::Plain => false,
        Form::Framed => desk.shut(),
    }
}

/// The end of a session at this desk. The history is then one that the controller keeps, as the desk says with its
/// length.
fn finished<D: Desk>(desk: &D, how: How, answered: u64, readings: u64) -> Ended
    ensures ending { result ≡ record { how = how; answered = answered; readings = readings } }
    ensures history { IsHistory (history_of (D.sight desk.now)) }
{
    let _ = desk.seen_len();
    Ended {
        how,
        answered,
        readings,
    }
}

/// Answers the blocks of a link, which are spelled in this form, one after another, until the input ends or one of the
/// other ends comes. The blocks that it answers are the first ones of what it reads, in whatever pieces that comes. A
/// block of the framed form is asked at the moment of the clock, which is read then, and its answer is a reply frame.
pub fn serve_link<L: Link, D: Desk, C: Clock>(
    alloc: Global,
    form: Form,
    link: &mut L,
    desk: &mut D,
    clock: &mut C,
    steps: &mut Steps<Plain>,
) -> Ended
    ensures { (e : Ending) × IsServed form (L.wire link.old) (L.wire link.new)
        (D.sight desk.old) (D.sight desk.new)
        (timing (C.course clock.old) (C.moments clock.old)) (timing (C.course clock.new) (C.moments clock.new))
        result e }
{
    blocks_are_short();
    nothing_is_partial();
    spellings_join();
    let Ok(mut blocks) = Blocks::new(alloc, form) else {
        return finished(desk, How::Memory, 0, 0);
    };
    let mut buffer = [0; BUFFER_LEN];
    let mut readings = 0;
    for answered in 0..MOST_BLOCKS {
        let end = turn(
            alloc,
            form,
            link,
            desk,
            clock,
            &mut readings,
            steps,
            &mut blocks,
            &mut buffer,
        );
        if let Some(how) = end {
            return finished(desk, how, answered, readings);
        }
        if ends_shut(form, desk) {
            return finished(desk, How::Shut, answered + 1, readings);
        }
    }
    let how = last_look(link, &blocks, &mut buffer);
    finished(desk, how, MOST_BLOCKS, readings)
}
