//! The answer to one block.

ghost use Rattle.std.specs.Prelude.{◌≡◌, ◌⊎◌, ◌-◌, ◌^◌, ◌<◌, Ok, IfOk, OnErr};
ghost use Rattle.ctl_desk.specs.Desk.{GoesOn, IsAnswered};
ghost use Rattle.command_words.specs.declared.header.Meaning.TheVariants.{Asks};
ghost use Rattle.ctl_session.specs.Clock.{timing};
ghost use Rattle.ctl_session.specs.Meaning.{status_by};
ghost use Rattle.ctl_session.specs.Turn.{AnswersBlock, MakesNone, Tells, Works, bytes_in, post};
ghost use Rattle.slurm_print.specs.Heading.{heading_of};

use crate::meaning::read_block;
use crate::outside::write_text;
use block_frame::{Block, Form, write_block};
use command_words::header::{Asked, Meaning};
use ctl_desk::desk::Desk;
use ctl_desk::entry::Answer;
use reply_data::reply::Reply;
use request_data::request::Request;
use resource_profile::{Plain, Steps};
use slurm_io::{Failed, Link};
use slurm_net::Clock;
use slurm_print::heading::{Heading, heading_of};
use slurm_print::malformed::{bad_header, bad_words, malformed, unknown_command};
use slurm_print::text::text_under;
use small_texts::memory_error::Memory;
use std::alloc::Global;

/// Asks what a header asked. After want of memory nothing of it is entered.
pub fn decide<D: Desk>(
    desk: &mut D,
    steps: &mut Steps<Plain>,
    asked: Asked,
) -> Result<Answer, Memory>
    ensures goes_on { GoesOn (D.sight desk.old) (D.sight desk.new) }
    ensures answered { IfOk result (λ answer. IsAnswered (D.sight desk.old) (D.sight desk.new)
        asked.moment asked.user asked.request answer) }
    ensures err { OnErr result ((D.sight desk.new).mine ≡ (D.sight desk.old).mine) }
{
    let Asked {
        moment,
        user,
        request,
    } = asked;
    match &request {
        Request::Pass => {
            request.let_go();
            desk.pass(moment, &user, None, steps)
        }
        _ => desk.ask(moment, &user, request),
    }
}

// Lets go of what was asked.
fn let_go(asked: Asked) {
    asked.request.let_go();
}

/// What a block is told.
#[derive(Drop)]
pub struct Told {
    pub text: Vec<u8>,
    /// 1 where it is refused or asks nothing, else 0.
    pub status: u8,
    /// The place of the history, 0 where nothing was asked.
    pub place: u64,
}

fn status_by(reply: &Reply) -> u8
    ensures { result ≡ status_by reply.now }
{
    match reply {
        Reply::Refused(_) => 1,
        _ => 0,
    }
}

/// Asks what a header asked, and tells the reply. After want of memory the request may have been worked all the same,
/// without an answer.
fn ask<D: Desk>(
    alloc: Global,
    desk: &mut D,
    steps: &mut Steps<Plain>,
    asked: Asked,
) -> Result<Told, Memory>
    ensures ok { IfOk result (λ told. Tells (Asks asked) (D.sight desk.old) (D.sight desk.new) told) }
    ensures err { OnErr result (MakesNone (D.sight desk.old) (D.sight desk.new)
        ⊎ Works (Asks asked) (D.sight desk.old) (D.sight desk.new)) }
{
    match heading_of(&asked.request) {
        Ok(heading) => {
            let told = ask_under(alloc, desk, steps, &heading, asked);
            heading.let_go();
            told
        }
        Err(Memory) => {
            let_go(asked);
            Err(Memory)
        }
    }
}

// The desk takes the request; its heading stays for the text.
fn ask_under<D: Desk>(
    alloc: Global,
    desk: &mut D,
    steps: &mut Steps<Plain>,
    heading: &Heading,
    asked: Asked,
) -> Result<Told, Memory>
    requires { heading.now ≡ heading_of asked.request }
    ensures ok { IfOk result (λ told. Tells (Asks asked) (D.sight desk.old) (D.sight desk.new) told) }
    ensures err { OnErr result (MakesNone (D.sight desk.old) (D.sight desk.new)
        ⊎ Works (Asks asked) (D.sight desk.old) (D.sight desk.new)) }
{
    let answer = decide(desk, steps, asked)?;
    let status = status_by(&answer.reply);
    let place = answer.place;
    let made = text_under(alloc, heading, &answer.reply);
    answer.let_go();
    match made {
        Ok(text) => Ok(Told {
            text,
            status,
            place,
        }),
        Err(Memory) => Err(Memory),
    }
}

fn copied(alloc: Global, text: &[u8]) -> Result<Vec<u8>, Memory>
    ensures { IfOk result (λ copy. copy.items ≡ text.now) }
{
    let copy = Vec::from_slice(alloc, text)?;
    Ok(copy)
}

// What a block is told that asks nothing.
fn unasked(text: Result<Vec<u8>, Memory>) -> Result<Told, Memory>
    ensures { IfOk result (λ told. (text ≡ Ok told.text) × (told.status ≡ 1) × (told.place ≡ 0)) }
{
    Ok(Told {
        text: text?,
        status: 1,
        place: 0,
    })
}

/// What is told of a meaning, after it is asked. After want of memory it may have been worked all the same.
fn tell<D: Desk>(
    alloc: Global,
    desk: &mut D,
    steps: &mut Steps<Plain>,
    meaning: Meaning,
) -> Result<Told, Memory>
    ensures ok { IfOk result (λ told. Tells meaning (D.sight desk.old) (D.sight desk.new) told) }
    ensures err { OnErr result (MakesNone (D.sight desk.old) (D.sight desk.new)
        ⊎ Works meaning (D.sight desk.old) (D.sight desk.new)) }
{
    match meaning {
        Meaning::Asks(asked) => ask(alloc, desk, steps, asked),
        Meaning::Malformed { command, fault } => unasked(malformed(alloc, command, fault)),
        Meaning::UnknownCommand => unasked(copied(alloc, unknown_command())),
        Meaning::BadWords { place } => unasked(bad_words(alloc, place)),
        Meaning::BadHeader => unasked(copied(alloc, bad_header())),
    }
}

// The bytes of an answer.
fn spell(alloc: Global, form: Form, told: Told) -> Result<Vec<u8>, Memory>
    ensures { IfOk result (λ bytes. bytes.items ≡ bytes_in form told) }
{
    match form {
        Form::Plain => Ok(told.text),
        Form::Framed => write_block(alloc, told.status, told.place, told.text.as_slice()),
    }
}

/// Why a block was not answered whole.
#[derive(Clone, Copy, Debug, PartialEq, Eq)]
pub enum Fault {
    Write,
    Memory,
}

/// Works a block, and writes its answer.
pub fn answer_block<L: Link, D: Desk, C: Clock>(
    alloc: Global,
    form: Form,
    link: &mut L,
    desk: &mut D,
    clock: &mut C,
    readings: &mut u64,
    steps: &mut Steps<Plain>,
    block: &Block,
) -> Result<(), Fault>
    requires { readings.old < 2 ^ 64 - 1 }
    ensures { AnswersBlock form block.now (L.wire link.old) (L.wire link.new)
        (post (D.sight desk.old) (timing (C.course clock.old) (C.moments clock.old)) readings.old)
        (post (D.sight desk.new) (timing (C.course clock.new) (C.moments clock.new)) readings.new) result }
{
    let Ok(meaning) = read_block(alloc, form, clock, readings, block) else {
        return Err(Fault::Memory);
    };
    let Ok(told) = tell(alloc, desk, steps, meaning) else {
        return Err(Fault::Memory);
    };
    let Ok(bytes) = spell(alloc, form, told) else {
        return Err(Fault::Memory);
    };
    match write_text(link, bytes.as_slice()) {
        Ok(()) => Ok(()),
        Err(Failed) => Err(Fault::Write),
    }
}
