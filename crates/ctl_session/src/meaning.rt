//! What a block asks.

ghost use Rattle.std.specs.Prelude.{◌≡◌, ℕ, [], ◌∷◌, ◌-◌, ◌^◌, ◌<◌, Option, IfSome, option_copied, IfOk, OnErr};
ghost use Rattle.block_frame.specs.declared.form.Form.TheVariants.{Framed};
ghost use Rattle.ctl_session.specs.Clock.{timing};
ghost use Rattle.ctl_session.specs.Meaning.{Means, meaning_of};
ghost use Rattle.ctl_session.specs.Turn.{NeedsClock, Reads, ReadsMoment};

use block_frame::{Block, Form};
use command_words::framed::{FramedHead, read_called, read_framed_head};
use command_words::header::{Meaning, read_header};
use slurm_net::Clock;
use small_texts::memory_error::Memory;
use std::alloc::Global;

fn attachment(block: &Block) -> Option<&[u8]>
    ensures { option_copied result ≡ block.now.attachment }
{
    match &block.attachment {
        Some(text) => Some(text.as_bytes()),
        None => None,
    }
}

/// What a block of the plain form asks. Its cost is that of `read_header`.
pub fn read_meaning(alloc: Global, block: &Block) -> Result<Meaning, Memory>
    ensures { IfOk result (λ meaning. meaning ≡ meaning_of block.now) }
{
    read_header(alloc, block.header.as_bytes(), attachment(block))
}

// Reads the clock once more.
fn read_clock<C: Clock>(clock: &mut C, readings: &mut u64) -> u64
    requires { readings.old < 2 ^ 64 - 1 }
    ensures { Reads (timing (C.course clock.old) (C.moments clock.old)) (timing (C.course clock.new) (C.moments clock.new))
        readings.old readings.new (result ∷ []) }
{
    *readings += 1;
    clock.now()
}

// What a block of the framed form asks.
fn read_framed<C: Clock>(
    alloc: Global,
    clock: &mut C,
    readings: &mut u64,
    block: &Block,
) -> Result<Meaning, Memory>
    requires { readings.old < 2 ^ 64 - 1 }
    ensures ok { IfOk result (λ meaning. (moment : Option ℕ) × Means Framed block.now meaning moment
        × ReadsMoment (timing (C.course clock.old) (C.moments clock.old))
        (timing (C.course clock.new) (C.moments clock.new)) readings.old readings.new moment) }
    ensures err { OnErr result ((moment : Option ℕ) × IfSome moment (λ _. NeedsClock Framed block.now)
        × ReadsMoment (timing (C.course clock.old) (C.moments clock.old))
        (timing (C.course clock.new) (C.moments clock.new)) readings.old readings.new moment) }
{
    match read_framed_head(alloc, block.header.as_bytes(), attachment(block))? {
        FramedHead::Calls(caller) => {
            let moment = read_clock(clock, readings);
            read_called(alloc, caller, moment, attachment(block))
        }
        FramedHead::BadWords { place } => Ok(Meaning::BadWords { place }),
        FramedHead::BadHeader => Ok(Meaning::BadHeader),
    }
}

/// What a block asks. The clock is read where the form is framed and the header isn't bad, and counted.
pub fn read_block<C: Clock>(
    alloc: Global,
    form: Form,
    clock: &mut C,
    readings: &mut u64,
    block: &Block,
) -> Result<Meaning, Memory>
    requires { readings.old < 2 ^ 64 - 1 }
    ensures ok { IfOk result (λ meaning. (moment : Option ℕ) × Means form block.now meaning moment
        × ReadsMoment (timing (C.course clock.old) (C.moments clock.old))
        (timing (C.course clock.new) (C.moments clock.new)) readings.old readings.new moment) }
    ensures err { OnErr result ((moment : Option ℕ) × IfSome moment (λ _. NeedsClock form block.now)
        × ReadsMoment (timing (C.course clock.old) (C.moments clock.old))
        (timing (C.course clock.new) (C.moments clock.new)) readings.old readings.new moment) }
{
    match form {
        Form::Plain => read_meaning(alloc, block),
        Form::Framed => read_framed(alloc, clock, readings, block),
    }
}
