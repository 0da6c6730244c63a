//! Truth values and states, each a word of its own.

ghost use Rattle.std.specs.Prelude.{◌≡◌};
ghost use Rattle.state_save.specs.Texts.{truth_text, part_state_text, down_text, held_text, final_text, state_text};
ghost use Rattle.state_save.specs.Meanings.{truth_in, part_state_in, down_in, held_in, final_in, plain_state_in, final_state_in, state_in};

use crate::word::Word;
use node_state::record::DownBy;
use plain_data::conf::PartState;
use request_data::state::{Final, HeldBy, JobState};
use small_texts::fields::{UpToThree, up_to_three};
use small_texts::memory_error::Memory;
use small_texts::pieces::push_text;
use std::alloc::Global;
use text_values::refusal::ValueRefusal;

#[tactic(auto, unfolding(crate::specs::Meanings::truth_in))]
fn read_truth(word: &[u8]) -> Option<bool>
    ensures { result ≡ truth_in word.now }
{
    if word == b"yes".as_slice() {
        Some(true)
    } else if word == b"no".as_slice() {
        Some(false)
    } else {
        None
    }
}

#[tactic(auto, unfolding(crate::specs::Meanings::part_state_in))]
fn read_part_state(word: &[u8]) -> Option<PartState>
    ensures { result ≡ part_state_in word.now }
{
    if word == b"up".as_slice() {
        Some(PartState::Up)
    } else if word == b"down".as_slice() {
        Some(PartState::Down)
    } else if word == b"drain".as_slice() {
        Some(PartState::Drain)
    } else if word == b"inactive".as_slice() {
        Some(PartState::Inactive)
    } else {
        None
    }
}

#[tactic(auto, unfolding(crate::specs::Meanings::down_in))]
fn read_down(word: &[u8]) -> Option<DownBy>
    ensures { result ≡ down_in word.now }
{
    if word == b"no".as_slice() {
        Some(DownBy::No)
    } else if word == b"silent".as_slice() {
        Some(DownBy::Silent)
    } else if word == b"set".as_slice() {
        Some(DownBy::Set)
    } else {
        None
    }
}

#[tactic(auto, unfolding(crate::specs::Meanings::held_in))]
fn read_held(word: &[u8]) -> Option<HeldBy>
    ensures { result ≡ held_in word.now }
{
    if word == b"no".as_slice() {
        Some(HeldBy::Nobody)
    } else if word == b"user".as_slice() {
        Some(HeldBy::User)
    } else if word == b"admin".as_slice() {
        Some(HeldBy::Admin)
    } else {
        None
    }
}

#[tactic(auto, unfolding(crate::specs::Meanings::final_in))]
fn read_final(word: &[u8]) -> Option<Final>
    ensures { result ≡ final_in word.now }
{
    if word == b"completed".as_slice() {
        Some(Final::Completed)
    } else if word == b"cancelled".as_slice() {
        Some(Final::Cancelled)
    } else if word == b"failed".as_slice() {
        Some(Final::Failed)
    } else if word == b"timeout".as_slice() {
        Some(Final::Timeout)
    } else if word == b"nodefail".as_slice() {
        Some(Final::NodeFail)
    } else if word == b"requeue".as_slice() {
        Some(Final::Requeue)
    } else {
        None
    }
}

// The state that is one word.
#[tactic(auto, unfolding(crate::specs::Meanings::plain_state_in))]
fn read_plain_state(word: &[u8]) -> Option<JobState>
    ensures { result ≡ plain_state_in word.now }
{
    if word == b"pending".as_slice() {
        Some(JobState::Pending)
    } else if word == b"running".as_slice() {
        Some(JobState::Running)
    } else {
        None
    }
}

// The state that has a final.
#[tactic(auto, unfolding(crate::specs::Meanings::final_state_in))]
fn read_final_state(word: &[u8], last: &[u8]) -> Option<JobState>
    ensures { result ≡ final_state_in word.now last.now }
{
    let last = read_final(last)?;
    if word == b"completing".as_slice() {
        Some(JobState::Completing(last))
    } else if word == b"ended".as_slice() {
        Some(JobState::Ended(last))
    } else {
        None
    }
}

#[tactic(auto, unfolding(crate::specs::Meanings::state_of))]
fn read_state(word: &[u8]) -> Option<JobState>
    ensures { result ≡ state_in word.now }
{
    match up_to_three(word, b'-') {
        UpToThree::One(state) => read_plain_state(state),
        UpToThree::Two(state, last) => read_final_state(state, last),
        _ => None,
    }
}

fn part_state_text(state: PartState) -> &'static [u8]
    ensures { result.now ≡ part_state_text state }
{
    match state {
        PartState::Up => b"up",
        PartState::Down => b"down",
        PartState::Drain => b"drain",
        PartState::Inactive => b"inactive",
    }
}

fn down_text(down: DownBy) -> &'static [u8]
    ensures { result.now ≡ down_text down }
{
    match down {
        DownBy::No => b"no",
        DownBy::Silent => b"silent",
        DownBy::Set => b"set",
    }
}

fn held_text(held: HeldBy) -> &'static [u8]
    ensures { result.now ≡ held_text held }
{
    match held {
        HeldBy::Nobody => b"no",
        HeldBy::User => b"user",
        HeldBy::Admin => b"admin",
    }
}

fn final_text(last: Final) -> &'static [u8]
    ensures { result.now ≡ final_text last }
{
    match last {
        Final::Completed => b"completed",
        Final::Cancelled => b"cancelled",
        Final::Failed => b"failed",
        Final::Timeout => b"timeout",
        Final::NodeFail => b"nodefail",
        Final::Requeue => b"requeue",
    }
}

impl Word for bool {
    ghost text = { truth_text };

    ghost meaning = { truth_in };

    ghost fits = { λ _. Unit {0} };

    fn push_word(&self, out: &mut Vec<u8>) -> Result<(), Memory> {
        push_text(out, if *self { b"yes" } else { b"no" })
    }

    fn read_word(_alloc: Global, word: &[u8]) -> Result<bool, ValueRefusal> {
        read_truth(word).ok_or(ValueRefusal::BadValue)
    }

    fn tell_fits() {}
}

impl Word for PartState {
    ghost text = { part_state_text };

    ghost meaning = { part_state_in };

    ghost fits = { λ _. Unit {0} };

    fn push_word(&self, out: &mut Vec<u8>) -> Result<(), Memory> {
        push_text(out, part_state_text(*self))
    }

    fn read_word(_alloc: Global, word: &[u8]) -> Result<PartState, ValueRefusal> {
        read_part_state(word).ok_or(ValueRefusal::BadValue)
    }

    fn tell_fits() {}
}

impl Word for DownBy {
    ghost text = { down_text };

    ghost meaning = { down_in };

    ghost fits = { λ _. Unit {0} };

    fn push_word(&self, out: &mut Vec<u8>) -> Result<(), Memory> {
        push_text(out, down_text(*self))
    }

    fn read_word(_alloc: Global, word: &[u8]) -> Result<DownBy, ValueRefusal> {
        read_down(word).ok_or(ValueRefusal::BadValue)
    }

    fn tell_fits() {}
}

impl Word for HeldBy {
    ghost text = { held_text };

    ghost meaning = { held_in };

    ghost fits = { λ _. Unit {0} };

    fn push_word(&self, out: &mut Vec<u8>) -> Result<(), Memory> {
        push_text(out, held_text(*self))
    }

    fn read_word(_alloc: Global, word: &[u8]) -> Result<HeldBy, ValueRefusal> {
        read_held(word).ok_or(ValueRefusal::BadValue)
    }

    fn tell_fits() {}
}

impl Word for JobState {
    ghost text = { state_text };

    ghost meaning = { state_in };

    ghost fits = { λ _. Unit {0} };

    fn push_word(&self, out: &mut Vec<u8>) -> Result<(), Memory> {
        match self {
            JobState::Pending => push_text(out, b"pending"),
            JobState::Running => push_text(out, b"running"),
            JobState::Completing(last) => {
                push_text(out, b"completing-")?;
                push_text(out, final_text(*last))
            }
            JobState::Ended(last) => {
                push_text(out, b"ended-")?;
                push_text(out, final_text(*last))
            }
        }
    }

    fn read_word(_alloc: Global, word: &[u8]) -> Result<JobState, ValueRefusal> {
        read_state(word).ok_or(ValueRefusal::BadValue)
    }

    fn tell_fits() {}
}
