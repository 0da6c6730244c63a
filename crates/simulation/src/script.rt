//! The script of a simulation.

ghost use Rattle.std.specs.Prelude.{◌≡◌, ◌<◌, length, map, OnOk};
ghost use Rattle.command_words.specs.declared.header.Meaning.TheVariants.{Asks};
ghost use Rattle.ctl_session.specs.Meaning.{meaning_of, state_behind};
ghost use Rattle.simulation.specs.Run.{AllGoOn, IfOneAlone, last_moment, moment_behind};
ghost use Rattle.simulation.specs.Simulation.{behind_block, behind_script, tally_behind};

use crate::asking::keeps_history;
use crate::laws::answers_follow_alone;
use crate::rota::Rota;
use crate::tally::Tally;
use block_frame::{Block, Blocks, Form, Next, blocks_are_cut_once, blocks_go_first};
use command_words::header::{Asked, Meaning};
use ctl_desk::desk::Desk;
use ctl_session::{decide, read_meaning};
use resource_profile::{Plain, Steps};
use small_texts::memory_error::Memory;
use std::alloc::Global;

// Works what a block asks, at the desk whose turn it is.
fn work<D: Desk>(
    desks: &mut [D],
    rota: &mut Rota,
    steps: &mut Steps<Plain>,
    tally: &mut Tally,
    asked: Asked,
) -> Result<(), Memory>
    requires { 0 < length desks.old }
    ensures go_on { AllGoOn (map D.sight desks.old) (map D.sight desks.new) }
    ensures moment { OnOk result (tally.new.moment ≡ asked.moment) }
    ensures alone { OnOk result (IfOneAlone (map D.sight desks.old) (map D.sight desks.new)
        (λ s s'. (s' ≡ state_behind s (Asks asked)) × (tally.new ≡ tally_behind s (Asks asked) tally.old))) }
{
    answers_follow_alone();
    let place = rota.take(desks.len());
    let desk = &mut desks[place];
    keeps_history(desk);
    let moment = asked.moment;
    let answer = decide(desk, steps, asked)?;
    tally.take(moment, &answer.reply);
    Ok(())
}

// Works what a block means.
fn work_meaning<D: Desk>(
    desks: &mut [D],
    rota: &mut Rota,
    steps: &mut Steps<Plain>,
    tally: &mut Tally,
    meaning: Meaning,
) -> Result<(), Memory>
    requires { 0 < length desks.old }
    ensures go_on { AllGoOn (map D.sight desks.old) (map D.sight desks.new) }
    ensures moment { OnOk result (tally.new.moment ≡ moment_behind tally.old.moment meaning) }
    ensures alone { OnOk result (IfOneAlone (map D.sight desks.old) (map D.sight desks.new)
        (λ s s'. record { state = s'; tally = tally.new }
        ≡ behind_block (record { state = s; tally = tally.old }) meaning)) }
{
    match meaning {
        Meaning::Asks(asked) => work(desks, rota, steps, tally, asked),
        _ => Ok(()),
    }
}

// Works a block.
fn answer<D: Desk>(
    alloc: Global,
    desks: &mut [D],
    rota: &mut Rota,
    steps: &mut Steps<Plain>,
    tally: &mut Tally,
    block: &Block,
) -> Result<(), Memory>
    requires { 0 < length desks.old }
    ensures go_on { AllGoOn (map D.sight desks.old) (map D.sight desks.new) }
    ensures moment { OnOk result (tally.new.moment ≡ moment_behind tally.old.moment (meaning_of block.now)) }
    ensures alone { OnOk result (IfOneAlone (map D.sight desks.old) (map D.sight desks.new)
        (λ s s'. record { state = s'; tally = tally.new }
        ≡ behind_block (record { state = s; tally = tally.old }) (meaning_of block.now))) }
{
    match read_meaning(alloc, block) {
        Ok(meaning) => work_meaning(desks, rota, steps, tally, meaning),
        Err(Memory) => Err(Memory),
    }
}

/// Works the blocks of a script, one after the other, up to its end or to what is no block.
#[tactic(auto, unfolding(crate::specs::Simulation::behind_script))]
pub(crate) fn work_script<D: Desk>(
    alloc: Global,
    desks: &mut [D],
    rota: &mut Rota,
    steps: &mut Steps<Plain>,
    tally: &mut Tally,
    script: &[u8],
) -> Result<(), Memory>
    requires { 0 < length desks.old }
    ensures go_on { AllGoOn (map D.sight desks.old) (map D.sight desks.new) }
    ensures moment { OnOk result (tally.new.moment ≡ last_moment tally.old.moment script.now) }
    ensures alone { OnOk result (IfOneAlone (map D.sight desks.old) (map D.sight desks.new)
        (λ s s'. record { state = s'; tally = tally.new }
        ≡ behind_script (record { state = s; tally = tally.old }) script.now)) }
{
    blocks_go_first();
    blocks_are_cut_once();
    let mut blocks = Blocks::new(alloc, Form::Plain)?;
    blocks.feed(script)?;
    loop {
        let block = match blocks.next_block() {
            Ok(Next::Whole(block)) => block,
            Ok(Next::NotYet) => return Ok(()),
            Ok(Next::Bad { .. }) => return Ok(()),
            Err(_) => return Err(Memory),
        };
        if let Err(Memory) = answer(alloc, desks, rota, steps, tally, &block) {
            return Err(Memory);
        }
    }
}
