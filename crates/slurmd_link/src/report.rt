//! The words of a report.

ghost use Rattle.std.specs.Prelude.{◌≡◌, ◌∷◌, ◌++◌, [], IfOk, OnOk, codes, decimal, flat_map, map, true};
ghost use Rattle.std.specs.List.{list_all};
ghost use Rattle.std.specs.Str.{byte};
ghost use Rattle.line_words.specs.Words.{is_word_byte};
ghost use Rattle.slurm_print.specs.Orders.{start_text};
ghost use Rattle.slurmd_link.specs.Reports.{done_text, list_words, report_words};

use line_words::words::Words;
use request_data::report::{Done, Report, Start};
use small_texts::memory_error::Memory;
use small_texts::pieces::{push_labelled, push_number, push_text};
use std::alloc::Global;

// Adds the word that a number is.
fn push_number_word(alloc: Global, words: &mut Words, number: u64) -> Result<(), Memory>
    ensures { OnOk result (words.new ≡ words.old ++ decimal number ∷ []) }
{
    let mut word = Vec::new(alloc);
    push_number(&mut word, number)?;
    words.push(word)
}

// Writes a start.
fn push_start(out: &mut Vec<u8>, start: &Start) -> Result<(), Memory>
    ensures text { OnOk result (out.new.items ≡ out.old.items ++ start_text start.now) }
    ensures word { list_all is_word_byte (start_text start.now) ≡ true }
{
    let Start { id, number } = *start;
    push_number(out, u64::from(id))?;
    push_labelled(out, b".", u64::from(number))
}

// Writes a start that is over.
fn push_done(out: &mut Vec<u8>, done: &Done) -> Result<(), Memory>
    ensures text { OnOk result (out.new.items ≡ out.old.items ++ done_text done.now) }
    ensures word { list_all is_word_byte (done_text done.now) ≡ true }
{
    let exit = done.exit;
    push_start(out, &done.start)?;
    push_labelled(out, b".", u64::from(exit))
}

// Writes starts, each behind a comma.
fn push_later_starts(out: &mut Vec<u8>, starts: &[Start]) -> Result<(), Memory>
    requires { list_all is_word_byte out.old.items ≡ true }
    ensures text { OnOk result (out.new.items ≡ out.old.items ++ flat_map (λ text. byte "," ∷ text) (map start_text starts.now)) }
    ensures word { OnOk result (list_all is_word_byte out.new.items ≡ true) }
{
    for start in starts {
        push_text(out, b",")?;
        push_start(out, start)?;
    }
    Ok(())
}

// Writes starts that are over, each behind a comma.
fn push_later_dones(out: &mut Vec<u8>, dones: &[Done]) -> Result<(), Memory>
    requires { list_all is_word_byte out.old.items ≡ true }
    ensures text { OnOk result (out.new.items ≡ out.old.items ++ flat_map (λ text. byte "," ∷ text) (map done_text dones.now)) }
    ensures word { OnOk result (list_all is_word_byte out.new.items ≡ true) }
{
    for done in dones {
        push_text(out, b",")?;
        push_done(out, done)?;
    }
    Ok(())
}

// Adds the word of what runs.
fn push_running(alloc: Global, words: &mut Words, starts: &[Start]) -> Result<(), Memory>
    ensures { OnOk result (words.new ≡ words.old ++ list_words (codes "run=") (map start_text starts.now)) }
{
    let Some((first, others)) = starts.split_first() else {
        return Ok(());
    };
    let mut word = Vec::from_slice(alloc, b"run=")?;
    push_start(&mut word, first)?;
    push_later_starts(&mut word, others)?;
    words.push(word)
}

// Adds the word of what is over.
fn push_dones(alloc: Global, words: &mut Words, dones: &[Done]) -> Result<(), Memory>
    ensures { OnOk result (words.new ≡ words.old ++ list_words (codes "done=") (map done_text dones.now)) }
{
    let Some((first, others)) = dones.split_first() else {
        return Ok(());
    };
    let mut word = Vec::from_slice(alloc, b"done=")?;
    push_done(&mut word, first)?;
    push_later_dones(&mut word, others)?;
    words.push(word)
}

/// The words by which a daemon reports: `report NODE BOOT NUMBER`, and behind them `run=` with what runs and `done=` with
/// what is over, where there is some (own). Linear in the report.
pub fn report_words(alloc: Global, report: &Report) -> Result<Words, Memory>
    ensures { IfOk result (λ words. words ≡ report_words report.now) }
{
    let mut words = Words::new(alloc);
    words.push(Vec::from_slice(alloc, b"report")?)?;
    words.push(Vec::from_slice(alloc, report.node.as_bytes())?)?;
    push_number_word(alloc, &mut words, report.boot)?;
    push_number_word(alloc, &mut words, report.number)?;
    push_running(alloc, &mut words, report.running.as_slice())?;
    push_dones(alloc, &mut words, report.done.as_slice())?;
    Ok(words)
}
