//! The answer to a block, as a session of the plain form has it.

ghost use Rattle.std.specs.Prelude.{◌≡◌, ◌==◌, true, Ok, IfOk};
ghost use Rattle.command_words.specs.declared.header.Meaning.TheVariants.{Asks};
ghost use Rattle.ctl_session.specs.Meaning.{meaning_of, status_by};
ghost use Rattle.session_talk.specs.Answered.{IsAnswer};
ghost use Rattle.slurm_print.specs.Heading.{heading_of};

use block_frame::Block;
use command_words::header::{Asked, Meaning};
use ctl_desk::desk::Desk;
use ctl_desk::laws::answers_follow_at_a_desk_of_its_own;
use ctl_desk::own_desk::OwnDesk;
use ctl_session::{decide, read_meaning};
use reply_data::reply::Reply;
use resource_profile::start;
use slurm_print::heading::{Heading, heading_of};
use slurm_print::malformed::{bad_header, bad_words, malformed, unknown_command};
use slurm_print::text::text_under;
use small_texts::memory_error::Memory;
use std::alloc::Global;

/// What a block is told, and whether it is refused or asks nothing.
#[derive(Drop)]
pub(crate) struct Told {
    pub(crate) text: Vec<u8>,
    pub(crate) is_refused: bool,
}

fn is_refusal(reply: &Reply) -> bool
    ensures { result ≡ (status_by reply.now == 1) }
{
    match reply {
        Reply::Refused(_) => true,
        _ => false,
    }
}

// Asks what a header asked, and tells the reply.
fn ask(alloc: Global, desk: &mut OwnDesk, asked: Asked) -> Result<Told, Memory>
    ensures { IfOk result (λ told. IsAnswer (Asks asked) desk.old desk.new told) }
{
    let heading = heading_of(&asked.request)?;
    let told = ask_under(alloc, desk, &heading, asked);
    heading.let_go();
    told
}

// The desk takes the request; its heading stays for the text.
fn ask_under(
    alloc: Global,
    desk: &mut OwnDesk,
    heading: &Heading,
    asked: Asked,
) -> Result<Told, Memory>
    requires { heading.now ≡ heading_of asked.request }
    ensures { IfOk result (λ told. IsAnswer (Asks asked) desk.old desk.new told) }
{
    answers_follow_at_a_desk_of_its_own();
    let _seen = desk.seen_len();
    let answer = decide(desk, &mut start(), asked)?;
    let is_refused = is_refusal(&answer.reply);
    match text_under(alloc, heading, &answer.reply) {
        Ok(text) => Ok(Told { text, is_refused }),
        Err(Memory) => Err(Memory),
    }
}

fn copied(alloc: Global, text: &[u8]) -> Result<Vec<u8>, Memory>
    ensures { IfOk result (λ copy. copy.items ≡ text.now) }
{
    let copy = Vec::from_slice(alloc, text)?;
    Ok(copy)
}

// What a block is told that asks nothing.
fn unasked(text: Result<Vec<u8>, Memory>) -> Result<Told, Memory>
    ensures { IfOk result (λ told. (text ≡ Ok told.text) × (told.is_refused ≡ true)) }
{
    Ok(Told {
        text: text?,
        is_refused: true,
    })
}

// What is told of a meaning, after it is asked.
fn tell(alloc: Global, desk: &mut OwnDesk, meaning: Meaning) -> Result<Told, Memory>
    ensures { IfOk result (λ told. IsAnswer meaning desk.old desk.new told) }
{
    match meaning {
        Meaning::Asks(asked) => ask(alloc, desk, asked),
        Meaning::Malformed { command, fault } => unasked(malformed(alloc, command, fault)),
        Meaning::UnknownCommand => unasked(copied(alloc, unknown_command())),
        Meaning::BadWords { place } => unasked(bad_words(alloc, place)),
        Meaning::BadHeader => unasked(copied(alloc, bad_header())),
    }
}

/// The answer to a block at a desk that nobody else asks.
pub(crate) fn answer(alloc: Global, desk: &mut OwnDesk, block: &Block) -> Result<Told, Memory>
    ensures { IfOk result (λ told. IsAnswer (meaning_of block.now) desk.old desk.new told) }
{
    let meaning = read_meaning(alloc, block)?;
    tell(alloc, desk, meaning)
}
