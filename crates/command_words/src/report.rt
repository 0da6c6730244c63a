//! What a daemon reports.

ghost use Rattle.std.specs.Prelude.{◌≡◌, drop, IfOk};
ghost use Rattle.operands.specs.Names.{u64_by};
ghost use Rattle.text_values.specs.Names.{name_in};
ghost use Rattle.operands.specs.Operands.{value_at};
ghost use Rattle.operands.specs.Pairs.{pairs_say};
ghost use Rattle.command_words.specs.Report.{listed_adding, nothing_named, pair_in, numbers_by, report_by};

use line_words::words::Words;
use operands::bad_word::{BadWord, WordKind};
use operands::names::read_name;
use operands::operand::{good_at, word_at};
use operands::pairs::{Pairs, read_pairs};
use operands::starts::{read_dones, read_starts};
use plain_data::items::Items;
use request_data::report::{Done, Report, Start};
use small_texts::digits::parse_number;
use small_texts::memory_error::Memory;
use small_texts::name::Name;
use std::alloc::Global;

// The starts that a report's words name.
#[derive(Drop)]
pub(crate) struct Named {
    pub(crate) running: Items<Start>,
    pub(crate) done: Items<Done>,
}

impl Named {
    ghost use Rattle.std.specs.Prelude.{◌≡◌, codes, IfOk};
    ghost use Rattle.operands.specs.Pairs.{now_said};
    ghost use Rattle.command_words.specs.Report.{listed_adding};

    fn set_running(&mut self, alloc: Global, list: &[u8]) -> Result<Result<(), WordKind>, Memory>
        ensures { IfOk result (λ added. now_said added self.new ≡ listed_adding self.old (codes "run") list.now) }
    {
        match read_starts(alloc, list)? {
            Some(starts) => {
                self.running = starts;
                Ok(Ok(()))
            }
            None => Ok(Err(WordKind::BadValue)),
        }
    }

    fn set_done(&mut self, alloc: Global, list: &[u8]) -> Result<Result<(), WordKind>, Memory>
        ensures { IfOk result (λ added. now_said added self.new ≡ listed_adding self.old (codes "done") list.now) }
    {
        match read_dones(alloc, list)? {
            Some(starts) => {
                self.done = starts;
                Ok(Ok(()))
            }
            None => Ok(Err(WordKind::BadValue)),
        }
    }
}

impl Pairs for Named {
    ghost use Rattle.command_words.specs.Report.{listed_adding};

    ghost adding = { listed_adding };

    fn add(
        &mut self,
        alloc: Global,
        key: &[u8],
        value: &[u8],
    ) -> Result<Result<(), WordKind>, Memory> {
        if key == b"run".as_slice() {
            self.set_running(alloc, value)
        } else if key == b"done".as_slice() {
            self.set_done(alloc, value)
        } else {
            Ok(Err(WordKind::UnknownOption))
        }
    }
}

// The node in the second word.
fn node_in(alloc: Global, words: &Words) -> Result<Result<Name, BadWord>, Memory>
    ensures { IfOk result (λ node. node ≡ value_at name_in words.now 1) }
{
    match word_at(words, 1) {
        Ok(text) => Ok(good_at(1, read_name(alloc, text)?)),
        Err(fault) => Ok(Err(fault)),
    }
}

// The number in the word at a place.
fn number_at(words: &Words, place: usize) -> Result<u64, BadWord>
    ensures { result ≡ value_at u64_by words.now place }
{
    let text = word_at(words, place)?;
    good_at(place, parse_number(text, 20, u64::MAX))
}

fn numbers_in(words: &Words) -> Result<(u64, u64), BadWord>
    ensures { result ≡ pair_in words.now }
{
    let boot = number_at(words, 2)?;
    let number = number_at(words, 3)?;
    Ok((boot, number))
}

fn lists_in(alloc: Global, words: &Words) -> Result<Result<Named, BadWord>, Memory>
    ensures { IfOk result (λ lists. lists ≡ pairs_say listed_adding 5 nothing_named (drop 4 words.now)) }
{
    let nothing = Named {
        running: Items::from_vec(Vec::new(alloc)),
        done: Items::from_vec(Vec::new(alloc)),
    };
    read_pairs(alloc, nothing, words, 4)
}

// The numbers, and the lists behind them.
#[tactic(auto, unfolding(crate::specs::Report::numbers_by))]
fn read_numbers(alloc: Global, words: &Words) -> Result<Result<(u64, u64, Named), BadWord>, Memory>
    ensures { IfOk result (λ told. told ≡ numbers_by words.now) }
{
    let (boot, number) = match numbers_in(words) {
        Ok(pair) => pair,
        Err(fault) => return Ok(Err(fault)),
    };
    match lists_in(alloc, words)? {
        Ok(lists) => Ok(Ok((boot, number, lists))),
        Err(fault) => Ok(Err(fault)),
    }
}

/// The report that the words make, the first of which is the command's name, or the first bad word.
#[tactic(auto, unfolding(crate::specs::Report::report_by))]
pub(crate) fn read_report(alloc: Global, words: &Words) -> Result<Result<Report, BadWord>, Memory>
    ensures { IfOk result (λ report. report ≡ report_by words.now) }
{
    let node = match node_in(alloc, words)? {
        Ok(node) => node,
        Err(fault) => return Ok(Err(fault)),
    };
    match read_numbers(alloc, words)? {
        Ok((boot, number, lists)) => Ok(Ok(Report {
            node,
            boot,
            number,
            running: lists.running,
            done: lists.done,
        })),
        Err(fault) => Ok(Err(fault)),
    }
}
