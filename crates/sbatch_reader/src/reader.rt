//! A command and its script, read whole.

ghost use Rattle.std.specs.Prelude.{ℕ, ◌≡◌, is_some, option_copied, option_map, fold, OnOk, IfOk, IsErrOf, Ok, Err};
ghost use Rattle.sbatch_reader.specs.Drafts.{after, draft_job};
ghost use Rattle.sbatch_reader.specs.Job.{script_word, says_script, all_said, job_in};
ghost use Rattle.text_values.specs.declared.word_refusal.WordKind.{WordKind};

pub use crate::command::script_word;
use crate::command::{find_script, read_command};
use crate::description::{are_crossed, describe};
use crate::draft::Draft;
use crate::lines::read_script;
use crate::refusal::JobRefusal;
use line_words::words::Words;
use plain_data::job::JobDesc;
use small_texts::memory_error::Memory;
use std::alloc::Global;

// Reads the script, where there is one.
fn read_attached(
    alloc: Global,
    script: Option<&[u8]>,
    now: u64,
    draft: &mut Draft,
) -> Result<(), Memory>
    ensures { OnOk result (draft.new ≡ fold after draft.old (says_script now (option_copied script.entry))) }
{
    match script {
        Some(script) => read_script(alloc, script, now, draft),
        None => Ok(()),
    }
}

// Reads all that a command says; a word may name its script.
#[tactic(auto, using(crate::proofs::JobLemmas::said_behind), unfolding(crate::specs::Job::all_said))]
fn read_all(
    alloc: Global,
    words: &Words,
    script: Option<&[u8]>,
    is_named: bool,
    now: u64,
    draft: &mut Draft,
) -> Result<(), Memory>
    requires { is_named ≡ is_some (script_word words.now) }
    ensures { OnOk result (draft.new ≡ fold after draft.old (all_said now words.now (option_copied script.entry))) }
{
    let has_script = script.is_some() || is_named;
    read_attached(alloc, script, now, draft)?;
    read_command(alloc, words, has_script, now, draft)
}

// The job of what was read, or the first fault.
#[tactic(auto, unfolding(crate::specs::Drafts::draft_job))]
fn end_draft(
    alloc: Global,
    draft: Draft,
    name: Option<(usize, &[u8])>,
) -> Result<Result<JobDesc, JobRefusal>, Memory>
    ensures { IfOk result (λ job. job ≡ draft_job draft (option_map (λ word. (word.0, word.1.now)) name.entry)) }
{
    match draft.verdict(are_crossed(&draft.words)) {
        Some(refusal) => Ok(Err(refusal)),
        None => describe(alloc, draft.words, name),
    }
}

// The job, or the first fault.
#[tactic(auto, using(crate::proofs::JobLemmas::judged), unfolding(crate::specs::Job::job_in))]
fn judge(
    alloc: Global,
    words: &Words,
    script: Option<&[u8]>,
    now: u64,
) -> Result<Result<JobDesc, JobRefusal>, Memory>
    ensures { IfOk result (λ job. job ≡ job_in now words.now (option_copied script.entry)) }
{
    let name = find_script(words);
    let mut draft = Draft::new(alloc);
    match read_all(alloc, words, script, name.is_some(), now, &mut draft) {
        Ok(()) => end_draft(alloc, draft, name),
        Err(memory) => Err(memory),
    }
}

/// The job that the words of sbatch(1), the first of them the command's name, and its script ask for, read at the
/// moment `now`: the options of the script's first lines come before those of the words, and of each kind the last
/// counts. An error names the first bad place; words and lines behind it are read too, since the nodes that they
/// require may make an earlier `--nodes` bad. It goes over the words twice and over the lines of options once, and
/// copies what it keeps and the words of one line at a time. A text of 4 GiB or more counts as want of memory (own).
pub fn read_job(
    alloc: Global,
    words: &Words,
    script: Option<&[u8]>,
    now: u64,
) -> Result<JobDesc, JobRefusal>
    ensures value { IfOk result (λ job. job_in now words.now (option_copied script.entry) ≡ Ok job) }
    ensures bad_word { (word : ℕ) → (kind : WordKind) → IsErrOf result (JobRefusal.BadWord word kind)
        → job_in now words.now (option_copied script.entry) ≡ Err (JobRefusal.BadWord word kind) }
    ensures bad_line { (line : ℕ) → (kind : WordKind) → IsErrOf result (JobRefusal.BadLine line kind)
        → job_in now words.now (option_copied script.entry) ≡ Err (JobRefusal.BadLine line kind) }
{
    match judge(alloc, words, script, now) {
        Ok(job) => job,
        Err(Memory) => Err(JobRefusal::Memory),
    }
}
