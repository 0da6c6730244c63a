//! Jobs and states that words name.

ghost use Rattle.std.specs.Prelude.{◌≡◌, map, IfOk};
ghost use Rattle.operands.specs.Targets.{rows, state_among, state_by, states, states_by, target_by, targets_by};

use plain_data::items::Items;
use request_data::query::StateCode;
use request_data::target::Target;
use small_texts::memory_error::Memory;
use std::alloc::Global;
use text_values::jobs::read_job_id;
use text_values::lists::{Grammar, read_few};
use text_values::refusal::{ValueRefusal, or_none};

// The states and their codes. "JOB STATE CODES" in squeue(1).
const STATES: [(&[u8], StateCode); 8] = [
    (b"PD", StateCode::Pending),
    (b"R", StateCode::Running),
    (b"CG", StateCode::Completing),
    (b"CD", StateCode::Completed),
    (b"CA", StateCode::Cancelled),
    (b"F", StateCode::Failed),
    (b"TO", StateCode::Timeout),
    (b"NF", StateCode::NodeFail),
];

/// A job, an array or one of its tasks.
pub fn read_target(text: &[u8]) -> Option<Target>
    ensures { result ≡ target_by text.now }
{
    let (id, index) = read_job_id(text)?;
    Some(Target { id, index })
}

/// The grammar of targets.
#[derive(Clone, Copy)]
pub struct TargetText;

impl Grammar for TargetText {
    type Value = Target;

    ghost meaning = { target_by };

    fn read(_alloc: Global, text: &[u8]) -> Result<Target, ValueRefusal> {
        read_target(text).ok_or(ValueRefusal::BadValue)
    }
}

/// The grammar of codes of states.
#[derive(Clone, Copy)]
pub struct StateText;

impl Grammar for StateText {
    type Value = StateCode;

    ghost meaning = { state_by };

    fn read(_alloc: Global, text: &[u8]) -> Result<StateCode, ValueRefusal> {
        read_state(text).ok_or(ValueRefusal::BadValue)
    }
}

/// A list of targets.
#[tactic(auto, using(crate::proofs::Readings::readings), unfolding(crate::specs::Targets::targets_by))]
pub fn read_targets(alloc: Global, list: &[u8]) -> Result<Option<Items<Target>>, Memory>
    ensures { IfOk result (λ targets. targets ≡ targets_by list.now) }
{
    or_none(read_few::<TargetText>(alloc, list))
}

/// A list of states by their codes, or the word for all of them.
#[tactic(auto, using(crate::proofs::Readings::readings), unfolding(crate::specs::Targets::states_by))]
pub fn read_states(alloc: Global, list: &[u8]) -> Result<Option<Items<StateCode>>, Memory>
    ensures { IfOk result (λ codes. codes ≡ states_by list.now) }
{
    if list == b"all".as_slice() {
        Ok(Some(all_states(alloc)?))
    } else {
        or_none(read_few::<StateText>(alloc, list))
    }
}

fn all_states(alloc: Global) -> Result<Items<StateCode>, Memory>
    ensures { IfOk result (λ all. all ≡ map (λ row. row.1) states) }
{
    list_states(alloc, &STATES)
}

// The states of a table.
fn list_states(alloc: Global, table: &[(&[u8], StateCode)]) -> Result<Items<StateCode>, Memory>
    ensures { IfOk result (λ all. all ≡ map (λ row. row.1) table.now) }
{
    let all = table.iter().map(|row| row.1).collect(alloc)?;
    Ok(Items::from_vec(all))
}

#[tactic(auto, unfolding(crate::specs::Targets::state_by))]
fn read_state(code: &[u8]) -> Option<StateCode>
    ensures { result ≡ state_by code.now }
{
    find_state(&STATES, code)
}

// The state of a code, by a table of codes and states.
fn find_state(table: &[(&[u8], StateCode)], code: &[u8]) -> Option<StateCode>
    ensures { result ≡ state_among (rows table.now) code.now }
{
    for (own, state) in table {
        if code == *own {
            return Some(*state);
        }
    }
    None
}
