//! The words of `scontrol hold`, `uhold`, `release` and `requeue`.

ghost use Rattle.std.specs.Prelude.{◌≡◌, IfOk};
ghost use Rattle.scontrol_words.specs.Holding.{listed_jobs, one_job, hold_by, release_by, requeue_by};

use line_words::words::Words;
use operands::bad_word::BadWord;
use operands::operand::{closed_at, good_at, word_at};
use operands::targets::{read_target, read_targets};
use plain_data::items::Items;
use request_data::request::Request;
use request_data::target::Target;
use small_texts::memory_error::Memory;
use std::alloc::Global;

// The jobs that the third word names.
#[tactic(auto, unfolding(crate::specs::Holding::listed_jobs))]
fn listed_jobs(alloc: Global, words: &Words) -> Result<Result<Items<Target>, BadWord>, Memory>
    ensures { IfOk result (λ targets. targets ≡ listed_jobs words.now) }
{
    match word_at(words, 2) {
        Ok(list) => Ok(good_at(2, read_targets(alloc, list)?)),
        Err(fault) => Ok(Err(fault)),
    }
}

// The job that the third word names.
#[tactic(auto, unfolding(crate::specs::Holding::one_job))]
fn one_job(words: &Words) -> Result<Target, BadWord>
    ensures { result ≡ one_job words.now }
{
    let text = word_at(words, 2)?;
    good_at(2, read_target(text))
}

/// What the words ask for, of which the first two are `scontrol hold` or `scontrol uhold`.
#[tactic(auto, unfolding(crate::specs::Holding::hold_by))]
pub(crate) fn read_hold(
    alloc: Global,
    user: bool,
    words: &Words,
) -> Result<Result<Request, BadWord>, Memory>
    ensures { IfOk result (λ request. request ≡ hold_by user words.now) }
{
    match listed_jobs(alloc, words)? {
        Ok(targets) => Ok(closed_at(words, 3, Request::Hold { targets, user })),
        Err(fault) => Ok(Err(fault)),
    }
}

/// What the words ask for, of which the first two are `scontrol release`.
#[tactic(auto, unfolding(crate::specs::Holding::release_by))]
pub(crate) fn read_release(alloc: Global, words: &Words) -> Result<Result<Request, BadWord>, Memory>
    ensures { IfOk result (λ request. request ≡ release_by words.now) }
{
    match listed_jobs(alloc, words)? {
        Ok(targets) => Ok(closed_at(words, 3, Request::Release { targets })),
        Err(fault) => Ok(Err(fault)),
    }
}

/// What the words ask for, of which the first two are `scontrol requeue`.
#[tactic(auto, unfolding(crate::specs::Holding::requeue_by))]
pub(crate) fn read_requeue(words: &Words) -> Result<Request, BadWord>
    ensures { result ≡ requeue_by words.now }
{
    match one_job(words) {
        Ok(target) => closed_at(words, 3, Request::Requeue { target }),
        Err(fault) => Err(fault),
    }
}
