//! Updates of jobs.

ghost use Rattle.std.specs.Prelude.{◌≡◌, ◌+◌, Some, IfOk};
ghost use Rattle.operands.specs.BadWord.{good};
ghost use Rattle.operands.specs.Pairs.{now_said};
ghost use Rattle.scontrol_words.specs.Updating.{job_key, job_said, job_update_by};

use crate::keys::{Key, scontrol_key};
use line_words::words::Words;
use operands::bad_word::{BadWord, WordKind, fault_at};
use operands::pairs::{Pairs, put, read_pairs};
use operands::targets::read_target;
use plain_data::limit::Limit;
use plain_data::nice::Nice;
use request_data::request::Request;
use request_data::target::Target;
use small_texts::memory_error::Memory;
use std::alloc::Global;
use text_values::nice::read_nice;
use text_values::times::read_limit;

/// What the pairs of a job's update say.
#[derive(Clone, Copy)]
pub(crate) struct JobUpdate {
    pub(crate) target: Option<Target>,
    pub(crate) limit: Option<Limit>,
    pub(crate) nice: Option<Nice>,
}

impl JobUpdate {
    ghost use Rattle.std.specs.Prelude.{◌≡◌, Some};
    ghost use Rattle.operands.specs.Pairs.{now_said};
    ghost use Rattle.scontrol_words.specs.Updating.{job_key};
    ghost use Rattle.scontrol_words.specs.declared.keys.Key.TheVariants as key;

    // The job, which is named once.
    fn name_job(&mut self, value: &[u8]) -> Result<(), WordKind>
        ensures { now_said result self.new ≡ job_key self.old value.now (Some key.JobId) }
    {
        if self.target.is_some() {
            return Err(WordKind::UnknownOption);
        }
        put(&mut self.target, read_target(value))
    }
}

impl Pairs for JobUpdate {
    ghost use Rattle.scontrol_words.specs.Updating.{job_adding};

    ghost adding = { job_adding };

    fn add(
        &mut self,
        _alloc: Global,
        key: &[u8],
        value: &[u8],
    ) -> Result<Result<(), WordKind>, Memory> {
        Ok(match scontrol_key(key) {
            Some(Key::JobId) => self.name_job(value),
            Some(Key::TimeLimit) => put(&mut self.limit, read_limit(value)),
            Some(Key::Nice) => put(&mut self.nice, read_nice(value)),
            _ => Err(WordKind::UnknownOption),
        })
    }
}

// The request, where a job is named; `end` is the place after the last word.
fn job_said(end: usize, said: JobUpdate) -> Result<Request, BadWord>
    ensures { result ≡ job_said (end + 1) said said.target }
{
    match said.target {
        Some(target) => Ok(Request::UpdateJob {
            target,
            limit: said.limit,
            nice: said.nice,
        }),
        None => Err(fault_at(end, WordKind::MissingWord)),
    }
}

/// The update of jobs that the words ask for.
#[tactic(auto, unfolding(crate::specs::Updating::job_update_by))]
pub(crate) fn read_job_update(
    alloc: Global,
    words: &Words,
) -> Result<Result<Request, BadWord>, Memory>
    ensures { IfOk result (λ request. request ≡ job_update_by words.now) }
{
    let nothing = JobUpdate {
        target: None,
        limit: None,
        nice: None,
    };
    match read_pairs(alloc, nothing, words, 2)? {
        Ok(said) => Ok(job_said(words.len(), said)),
        Err(fault) => Ok(Err(fault)),
    }
}
