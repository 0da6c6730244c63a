//! The words of sbatch(1) and its script.

ghost use Rattle.std.specs.Prelude.{◌≡◌, option_copied, IfOk};
ghost use Rattle.command_words.specs.Sbatch.{sbatch_by};

use crate::fault::WordFault;
use line_words::words::Words;
use request_data::boxed::Boxed;
use request_data::request::Request;
use sbatch_reader::reader::read_job;
use sbatch_reader::refusal::JobRefusal;
use small_texts::memory_error::Memory;
use std::alloc::Global;

/// The job that the words and the script ask for at the moment `now`, or the first bad place.
#[tactic(auto, unfolding(crate::specs::Sbatch::sbatch_by))]
pub(crate) fn read_sbatch(
    alloc: Global,
    words: &Words,
    script: Option<&[u8]>,
    now: u64,
) -> Result<Result<Request, WordFault>, Memory>
    ensures { IfOk result (λ asked. asked ≡ sbatch_by now words.now (option_copied script.entry)) }
{
    match read_job(alloc, words, script, now) {
        Ok(job) => Ok(Ok(Request::Submit(Boxed::new(alloc, job)?))),
        Err(JobRefusal::BadWord { word, kind }) => Ok(Err(WordFault::Word { word, kind })),
        Err(JobRefusal::BadLine { line, kind }) => Ok(Err(WordFault::Line { line, kind })),
        Err(JobRefusal::Memory) => Err(Memory),
    }
}
