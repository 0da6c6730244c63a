//! The words of `scontrol update`.

ghost use Rattle.std.specs.Prelude.{◌≡◌, drop, IfOk};
ghost use Rattle.operands.specs.Pairs.{pair_of};
ghost use Rattle.scontrol_words.specs.Updating.{form_of, form_of_pair, form_in, update_in, update_by};

use crate::job_update::read_job_update;
use crate::keys::{Key, scontrol_key};
use crate::node_update::read_node_update;
use crate::partition_update::read_partition_update;
use crate::unnamed_update::read_unnamed_update;
use line_words::words::Words;
use operands::bad_word::BadWord;
use operands::pairs::cut_pair;
use request_data::request::Request;
use small_texts::memory_error::Memory;
use std::alloc::Global;

/// What an update changes.
#[derive(Clone, Copy)]
pub(crate) enum Form {
    Job,
    Node,
    Partition,
}

fn form_of(key: Option<Key>) -> Option<Form>
    ensures { result ≡ form_of key }
{
    match key {
        Some(Key::JobId) => Some(Form::Job),
        Some(Key::NodeName) => Some(Form::Node),
        Some(Key::PartitionName) => Some(Form::Partition),
        _ => None,
    }
}

// The form in which a word names what is changed.
fn form_of_word(word: &[u8]) -> Option<Form>
    ensures { result ≡ form_of_pair (pair_of word.now) }
{
    let (key, _) = cut_pair(word)?;
    form_of(scontrol_key(key))
}

// The form of the first word that names what is changed.
fn form_in(words: &Words) -> Option<Form>
    ensures { result ≡ form_in (drop 2 words.now) }
{
    for place in 2..words.len() {
        match form_of_word(words.get(place).unwrap()) {
            Some(form) => return Some(form),
            None => {}
        }
    }
    None
}

fn read_form(
    alloc: Global,
    form: Option<Form>,
    words: &Words,
) -> Result<Result<Request, BadWord>, Memory>
    ensures { IfOk result (λ request. request ≡ update_in form words.now) }
{
    match form {
        None => read_unnamed_update(alloc, words),
        Some(Form::Job) => read_job_update(alloc, words),
        Some(Form::Node) => read_node_update(alloc, words),
        Some(Form::Partition) => read_partition_update(alloc, words),
    }
}

/// What the words ask for, of which the first two are `scontrol update`.
#[tactic(auto, unfolding(crate::specs::Updating::update_by))]
pub(crate) fn read_update(alloc: Global, words: &Words) -> Result<Result<Request, BadWord>, Memory>
    ensures { IfOk result (λ request. request ≡ update_by words.now) }
{
    read_form(alloc, form_in(words), words)
}
