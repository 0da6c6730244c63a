//! What a line says.

ghost use Rattle.std.specs.Prelude.{◌≡◌, ◌*◌, ◌≤◌, length, option_and_then, option_copied, slice_get, IfOk, OnSome};
ghost use Rattle.small_texts.specs.Digits.{number_within};
ghost use Rattle.session_text.specs.Moments.{later, moment_named};
ghost use Rattle.session_text.specs.Said.{asking, asking_until, at_said, call_of, every_said, is_every, lone_operand, once, said_by, said_in, said_now, said_words, script_of, times_of, user_said};

use crate::call::{Call, Script, Times};
use crate::fault::LineFault;
use crate::moments::moment_named;
use crate::parts::{end_word, is_command, last_word, lone_operand, part};
use crate::verb::{Verb, verb_named};
use block_frame::Text;
use line_words::words::{Words, WordsRefusal, before_comment, split_words};
use sbatch_reader::reader::script_word;
use small_texts::digits::parse_number;
use small_texts::memory_error::Memory;
use small_texts::name::{Name, NameRefusal};
use std::alloc::Global;

/// A longer line isn't held.
const LONGEST_LINE: usize = 4_294_967_295;

/// The most times that one line may ask (own).
const MOST_TIMES: u64 = 100_000;

/// What stays from line to line (own).
#[derive(Drop)]
pub struct Standing {
    /// The moment, in seconds since 1970.
    pub moment: u64,
    /// The user who asks.
    pub user: Name,
}

impl Standing {
    ghost use Rattle.std.specs.Prelude.{◌≡◌, IfOk};

    /// The same user at another moment.
    pub(crate) fn moved(&self, moment: u64) -> Result<Standing, Memory>
        ensures { IfOk result (λ stays. stays ≡ record self.now { moment = moment }) }
    {
        let user = self.user.copy()?;
        Ok(Standing { moment, user })
    }
}

/// What a line says (own).
#[derive(Drop)]
pub(crate) enum Said {
    /// Nothing is asked; this stays.
    Stays(Standing),
    /// The controller is asked; this stays behind it.
    Asks(Call, Standing),
    /// The same, with a script in the lines that follow, up to one that is this word.
    Opens(Call, Standing, Text),
    Help,
    Quit,
    Wrong(LineFault),
}

// The script of words behind which none follows.
#[tactic(auto, unfolding(crate::specs::Said::script_of))]
fn script_of(words: &Words) -> Script
    ensures { result ≡ script_of words.now }
{
    if !is_command(b"sbatch", words) {
        return Script::Absent;
    }
    match script_word(words) {
        Some(number) => Script::Named(number),
        None => Script::Absent,
    }
}

fn copied(alloc: Global, bytes: &[u8]) -> Result<Text, Memory>
    ensures { IfOk result (λ text. text ≡ bytes.now) }
{
    let copy = Vec::from_slice(alloc, bytes)?;
    Ok(Text::new(copy))
}

fn call_of(user: &Name, times: Times, words: Words, script: Script) -> Result<Call, Memory>
    ensures { IfOk result (λ call. call ≡ call_of user.now times words script) }
{
    let user = user.copy()?;
    Ok(Call {
        times,
        user,
        words,
        script,
    })
}

// The words ask at these times, with a script up to a line that is the end.
fn opening(
    alloc: Global,
    times: Times,
    words: &Words,
    end: &[u8],
    stays: Standing,
) -> Result<Said, Memory>
    ensures { IfOk result (λ said. said ≡ asking_until (Some end.now) times words.now stays) }
{
    if end.is_empty() {
        return Ok(Said::Wrong(LineFault::NoEndWord));
    }
    let until = copied(alloc, end)?;
    let front = part(alloc, words, 0, words.len().saturating_sub(1))?;
    let call = call_of(&stays.user, times, front, Script::Absent)?;
    Ok(Said::Opens(call, stays, until))
}

// The words ask at these times.
#[tactic(auto, unfolding(crate::specs::Said::asking))]
fn asking(alloc: Global, times: Times, words: Words, stays: Standing) -> Result<Said, Memory>
    ensures { IfOk result (λ said. said ≡ asking times words stays) }
{
    if let Some(end) = end_word(last_word(&words)) {
        return opening(alloc, times, &words, end, stays);
    }
    let script = script_of(&words);
    let call = call_of(&stays.user, times, words, script)?;
    Ok(Said::Asks(call, stays))
}

fn user_said(alloc: Global, name: Option<&[u8]>, stays: Standing) -> Result<Said, Memory>
    ensures { IfOk result (λ said. said ≡ user_said stays (option_copied name.entry)) }
{
    let Some(name) = name else {
        return Ok(Said::Wrong(LineFault::BadUser));
    };
    match Name::read(alloc, name) {
        Ok(user) => Ok(Said::Stays(Standing {
            moment: stays.moment,
            user,
        })),
        Err(NameRefusal::BadName) => Ok(Said::Wrong(LineFault::BadUser)),
        Err(NameRefusal::Memory) => Err(Memory),
    }
}

fn at_said(moment: Option<u64>, stays: Standing) -> Said
    ensures { result ≡ at_said stays moment }
{
    match moment {
        Some(moment) => Said::Stays(Standing {
            moment,
            user: stays.user,
        }),
        None => Said::Wrong(LineFault::BadMoment),
    }
}

fn is_every(words: &Words) -> bool
    ensures { result ≡ is_every words.now }
{
    match words.get(words.len().saturating_sub(2)) {
        Some(word) => words.len() >= 5 && word == b"until".as_slice(),
        None => false,
    }
}

fn step_of(words: &Words) -> Option<u64>
    ensures { result ≡ option_and_then (number_within 9 999_999_999) (slice_get words.now 1) }
{
    parse_number(words.get(1)?, 9, 999_999_999)
}

// The times of `every SECONDS .. until MOMENT`.
#[tactic(auto, unfolding(crate::specs::Said::times_of))]
fn times_of(alloc: Global, now: u64, words: &Words) -> Result<Option<Times>, Memory>
    ensures { IfOk result (λ times. times ≡ times_of now words.now) }
{
    let Some(step) = step_of(words) else {
        return Ok(None);
    };
    let Some(moment) = moment_named(alloc, now, last_word(words))? else {
        return Ok(None);
    };
    if !is_every(words) || step == 0 {
        return Ok(None);
    }
    Ok(Some(Times {
        start: now,
        step,
        count: moment.saturating_sub(now) / step,
    }))
}

// The moment so many steps later.
fn steps_later(moment: u64, times: Times) -> u64
    ensures { result ≡ later moment (times.step * times.count) }
{
    moment.saturating_add(times.step.saturating_mul(times.count))
}

#[tactic(auto, unfolding(crate::specs::Said::every_said))]
fn every_said(
    alloc: Global,
    words: &Words,
    times: Option<Times>,
    stays: Standing,
) -> Result<Said, Memory>
    ensures { IfOk result (λ said. said ≡ every_said stays words.now times) }
{
    let Some(times) = times else {
        return Ok(Said::Wrong(LineFault::BadEvery));
    };
    if times.count > MOST_TIMES {
        return Ok(Said::Wrong(LineFault::TooOften));
    }
    let asked = part(alloc, words, 2, words.len().saturating_sub(4))?;
    let behind = stays.moved(steps_later(stays.moment, times))?;
    asking(alloc, times, asked, behind)
}

fn once(stays: &Standing) -> Times
    ensures { result ≡ once stays.now }
{
    Times {
        start: stays.moment,
        step: 0,
        count: 1,
    }
}

// What `at` says.
fn moment_said(alloc: Global, words: &Words, now: u64) -> Result<Option<u64>, Memory>
    ensures { IfOk result (λ moment. moment ≡ option_and_then (moment_named now) (lone_operand words.now)) }
{
    match lone_operand(words) {
        Some(text) => moment_named(alloc, now, text),
        None => Ok(None),
    }
}

#[tactic(auto, unfolding(crate::specs::Said::said_by))]
fn said_by(alloc: Global, verb: Option<Verb>, words: Words, stays: Standing) -> Result<Said, Memory>
    ensures { IfOk result (λ said. said ≡ said_by verb words stays) }
{
    match verb {
        None => {
            let times = once(&stays);
            asking(alloc, times, words, stays)
        }
        Some(Verb::User) => user_said(alloc, lone_operand(&words), stays),
        Some(Verb::At) => {
            let moment = moment_said(alloc, &words, stays.moment)?;
            Ok(at_said(moment, stays))
        }
        Some(Verb::Every) => {
            let times = times_of(alloc, stays.moment, &words)?;
            every_said(alloc, &words, times, stays)
        }
        Some(Verb::Help) => Ok(Said::Help),
        Some(Verb::Quit) => Ok(Said::Quit),
    }
}

// What words say that begin with no moment.
#[tactic(auto, unfolding(crate::specs::Said::said_now))]
fn said_now(alloc: Global, words: Words, stays: Standing) -> Result<Said, Memory>
    ensures { IfOk result (λ said. said ≡ said_now words stays) }
{
    let Some(word) = words.get(0) else {
        return Ok(Said::Stays(stays));
    };
    let verb = verb_named(word);
    said_by(alloc, verb, words, stays)
}

// The moment that words begin with.
fn moment_in(alloc: Global, words: &Words, now: u64) -> Result<Option<u64>, Memory>
    ensures value { IfOk result (λ moment. moment ≡ option_and_then (moment_named now) (slice_get words.now 0)) }
    ensures there { IfOk result (λ moment. OnSome moment (1 ≤ length words.now)) }
{
    match words.get(0) {
        Some(word) => moment_named(alloc, now, word),
        None => Ok(None),
    }
}

#[tactic(auto, unfolding(crate::specs::Said::said_words))]
fn said_words(alloc: Global, words: Words, stays: &Standing) -> Result<Said, Memory>
    ensures { IfOk result (λ said. said ≡ said_words words stays.now) }
{
    match moment_in(alloc, &words, stays.moment)? {
        None => {
            let stays = stays.moved(stays.moment)?;
            said_now(alloc, words, stays)
        }
        Some(moment) => {
            let stays = stays.moved(moment)?;
            let mut words = words;
            words.drop_first(1);
            said_now(alloc, words, stays)
        }
    }
}

/// What a line says behind which its LF was. Linear in the line, but for what the words of sbatch(1) cost. A line of
/// 4 GiB or more counts as want of memory.
#[tactic(auto, unfolding(crate::specs::Said::said_in))]
pub(crate) fn said_in(alloc: Global, line: &[u8], stays: &Standing) -> Result<Said, Memory>
    ensures { IfOk result (λ said. said ≡ said_in line.now stays.now) }
{
    if line.len() > LONGEST_LINE {
        return Err(Memory);
    }
    match split_words(alloc, before_comment(line)) {
        Ok(words) => said_words(alloc, words, stays),
        Err(WordsRefusal::BadWords { place: _ }) => Ok(Said::Wrong(LineFault::BadWords)),
        Err(WordsRefusal::BadWord { place: _ } | WordsRefusal::Memory) => Err(Memory),
    }
}
