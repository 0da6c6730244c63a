//! The words of scancel(1).

ghost use Rattle.std.specs.Prelude.{◌≡◌, IfOk};
ghost use Rattle.text_values.specs.Arguments.{part_of, rows};
ghost use Rattle.command_words.specs.Cancel.{cancel_parts, cancel_words, is_user, names_user, said_by, nothing_said, scancel_by, scancel_options};

use line_words::words::Words;
use operands::bad_word::{BadWord, WordKind, fault_at, fault_of};
use operands::names::read_name;
use operands::targets::read_target;
use plain_data::items::Items;
use request_data::target::{Target, Targets};
use small_texts::memory_error::Memory;
use small_texts::name::Name;
use std::alloc::Global;
use text_values::arguments::Takes::{self, Value};
use text_values::arguments::{Argument, Cursor, next_argument};

/// There is no option that stands without a value.
#[derive(Clone, Copy)]
pub(crate) enum CancelFlag {}

/// An option that stands with a value.
#[derive(Clone, Copy)]
pub(crate) enum CancelOption {
    User,
}

/// The options of scancel(1).
pub(crate) const SCANCEL_OPTIONS: [(&[u8], Option<u8>, Takes<CancelFlag, CancelOption>); 1] = [(
    b"user",
    Some(b'u'),
    Value(CancelOption::User),
)];

/// What the words say together: the last user, and each target.
#[derive(Drop)]
pub(crate) struct CancelWords {
    pub(crate) user: Option<Name>,
    pub(crate) targets: Items<Target>,
}

impl CancelWords {
    ghost use Rattle.std.specs.Prelude.{◌≡◌, ◌+◌, [], ◌∷◌, ◌++◌, IfOk};
    ghost use Rattle.text_values.specs.Arguments.{part_of};
    ghost use Rattle.command_words.specs.Cancel.{targets_of, with_part, with_target, with_user};

    // With what an argument says on top, or what is wrong with it. Where a user is named, no target may be.
    fn with(
        self,
        alloc: Global,
        by_user: bool,
        argument: Argument<'_, CancelFlag, CancelOption>,
    ) -> Result<Result<CancelWords, BadWord>, Memory>
        ensures { IfOk result (λ said. said ≡ with_part by_user self (part_of argument.entry)) }
    {
        match argument {
            Argument::Plain { number, .. } if by_user => {
                Ok(Err(fault_of(number, WordKind::StrayWord)))
            }
            Argument::Plain { number, text } => self.with_target(number, text),
            Argument::Valued { place, text, .. } => self.with_user(alloc, place, text),
            Argument::Bad { number, kind } => Ok(Err(fault_of(number, kind))),
            Argument::Lacking { number, .. } => Ok(Err(fault_at(number, WordKind::MissingValue))),
            Argument::Flag { .. } => Ok(Ok(self)),
        }
    }

    // With the target that a word names behind the others.
    fn with_target(self, number: usize, text: &[u8]) -> Result<Result<CancelWords, BadWord>, Memory>
        ensures { IfOk result (λ said. said ≡ with_target self number text.now) }
    {
        let Some(target) = read_target(text) else {
            return Ok(Err(fault_of(number, WordKind::BadValue)));
        };
        Ok(Ok(self.push(target)?))
    }

    fn push(self, target: Target) -> Result<CancelWords, Memory>
        ensures { IfOk result (λ said. said ≡ record self { targets = self.targets ++ target ∷ [] }) }
    {
        let mut targets = self.targets.into_vec();
        targets.push(target)?;
        Ok(CancelWords {
            user: self.user,
            targets: Items::from_vec(targets),
        })
    }

    // With the user that a value names.
    fn with_user(
        self,
        alloc: Global,
        place: usize,
        text: &[u8],
    ) -> Result<Result<CancelWords, BadWord>, Memory>
        ensures { IfOk result (λ said. said ≡ with_user self place text.now) }
    {
        match read_name(alloc, text)? {
            Some(name) => Ok(Ok(CancelWords {
                user: Some(name),
                targets: self.targets,
            })),
            None => Ok(Err(fault_of(place, WordKind::BadValue))),
        }
    }

    // The targets, or the user; `end` is the place after the last word.
    fn into_targets(self, end: usize) -> Result<Targets, BadWord>
        ensures { result ≡ targets_of (end + 1) self.user self.targets }
    {
        match (self.user, self.targets.as_slice().is_empty()) {
            (None, false) => Ok(Targets::List(self.targets)),
            (Some(user), _) => Ok(Targets::User(user)),
            (None, true) => Err(fault_at(end, WordKind::MissingWord)),
        }
    }
}

// Whether a user is named in place of targets.
#[tactic(auto, unfolding(crate::specs::Cancel::names_user))]
fn names_user(table: &[(&[u8], Option<u8>, Takes<CancelFlag, CancelOption>)], words: &Words) -> bool
    ensures { result ≡ names_user (rows table.now) words.now }
{
    let mut cursor = Cursor {
        place: 1,
        ended: false,
    };
    while let Some(argument) = next_argument(table, words, &mut cursor) {
        if is_user(argument) {
            return true;
        }
    }
    false
}

fn is_user(argument: Argument<'_, CancelFlag, CancelOption>) -> bool
    ensures { result ≡ is_user (part_of argument.entry) }
{
    matches!(argument, Argument::Valued { .. } | Argument::Lacking { .. })
}

// What the words behind the command's name say, where a user is named in place of targets or isn't.
fn read_said(
    alloc: Global,
    table: &[(&[u8], Option<u8>, Takes<CancelFlag, CancelOption>)],
    words: &Words,
    by_user: bool,
) -> Result<Result<CancelWords, BadWord>, Memory>
    ensures { IfOk result (λ said. said ≡ said_by by_user nothing_said (cancel_parts (rows table.now) words.now)) }
{
    let mut said = CancelWords {
        user: None,
        targets: Items::from_vec(Vec::with_capacity(alloc, words.len())?),
    };
    let mut cursor = Cursor {
        place: 1,
        ended: false,
    };
    while let Some(argument) = next_argument(table, words, &mut cursor) {
        match said.with(alloc, by_user, argument)? {
            Ok(more) => said = more,
            Err(fault) => return Ok(Err(fault)),
        }
    }
    Ok(Ok(said))
}

#[tactic(auto, unfolding(crate::specs::Cancel::cancel_words))]
fn read_words(
    alloc: Global,
    table: &[(&[u8], Option<u8>, Takes<CancelFlag, CancelOption>)],
    words: &Words,
) -> Result<Result<CancelWords, BadWord>, Memory>
    ensures { IfOk result (λ said. said ≡ cancel_words (rows table.now) words.now) }
{
    read_said(alloc, table, words, names_user(table, words))
}

#[tactic(auto, unfolding(crate::specs::Cancel::scancel_options))]
fn scancel_words(alloc: Global, words: &Words) -> Result<Result<CancelWords, BadWord>, Memory>
    ensures { IfOk result (λ said. said ≡ cancel_words scancel_options words.now) }
{
    read_words(alloc, &SCANCEL_OPTIONS, words)
}

/// The jobs that the words of scancel(1) name, or the first bad word.
#[tactic(auto, unfolding(crate::specs::Cancel::scancel_by))]
pub(crate) fn read_scancel(alloc: Global, words: &Words) -> Result<Result<Targets, BadWord>, Memory>
    ensures { IfOk result (λ targets. targets ≡ scancel_by words.now) }
{
    match scancel_words(alloc, words)? {
        Ok(said) => Ok(said.into_targets(words.len())),
        Err(fault) => Ok(Err(fault)),
    }
}
