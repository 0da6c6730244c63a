//! Updates that don't name what they change.

ghost use Rattle.std.specs.Prelude.{◌≡◌, IfOk};
ghost use Rattle.scontrol_words.specs.Updating.{unnamed_update_by};

use crate::keys::{Key, scontrol_key};
use crate::values::{is_long, read_node_order};
use line_words::words::Words;
use operands::bad_word::{BadWord, WordKind, fault_at};
use operands::pairs::{Pairs, read_pairs};
use request_data::request::Request;
use small_texts::memory_error::Memory;
use std::alloc::Global;
use text_values::nice::read_nice;
use text_values::states::read_part_state;
use text_values::times::read_limit;

/// Pairs of which none names what is changed: nothing of them is kept.
#[derive(Clone, Copy)]
pub(crate) struct UnnamedUpdate {}

impl UnnamedUpdate {
    ghost use Rattle.std.specs.Prelude.{◌≡◌, Some};
    ghost use Rattle.operands.specs.Pairs.{now_said};
    ghost use Rattle.scontrol_words.specs.Updating.{if_good, unnamed_key};
    ghost use Rattle.scontrol_words.specs.declared.keys.Key.TheVariants as key;

    fn check(&mut self, is_good: bool) -> Result<(), WordKind>
        ensures { now_said result self.new ≡ if_good is_good self.old }
    {
        if is_good {
            Ok(())
        } else {
            Err(WordKind::BadValue)
        }
    }

    fn check_state(&mut self, value: &[u8]) -> Result<(), WordKind>
        ensures { now_said result self.new ≡ unnamed_key self.old value.now (Some key.State) }
    {
        let is_good = read_node_order(value).is_some() || read_part_state(value).is_some();
        self.check(is_good)
    }

    fn check_reason(&mut self, value: &[u8]) -> Result<(), WordKind>
        ensures { now_said result self.new ≡ unnamed_key self.old value.now (Some key.Reason) }
    {
        if is_long(value) {
            Err(WordKind::TooLong)
        } else {
            Ok(())
        }
    }
}

impl Pairs for UnnamedUpdate {
    ghost use Rattle.scontrol_words.specs.Updating.{unnamed_adding};

    ghost adding = { unnamed_adding };

    fn add(
        &mut self,
        _alloc: Global,
        key: &[u8],
        value: &[u8],
    ) -> Result<Result<(), WordKind>, Memory> {
        Ok(match scontrol_key(key) {
            Some(Key::TimeLimit) => self.check(read_limit(value).is_some()),
            Some(Key::Nice) => self.check(read_nice(value).is_some()),
            Some(Key::State) => self.check_state(value),
            Some(Key::Reason) => self.check_reason(value),
            _ => Err(WordKind::UnknownOption),
        })
    }
}

/// What is wrong with an update that doesn't name what it changes.
#[tactic(auto, unfolding(crate::specs::Updating::unnamed_update_by))]
pub(crate) fn read_unnamed_update(
    alloc: Global,
    words: &Words,
) -> Result<Result<Request, BadWord>, Memory>
    ensures { IfOk result (λ request. request ≡ unnamed_update_by words.now) }
{
    match read_pairs(alloc, UnnamedUpdate {}, words, 2)? {
        Ok(_) => Ok(Err(fault_at(words.len(), WordKind::MissingWord))),
        Err(fault) => Ok(Err(fault)),
    }
}
