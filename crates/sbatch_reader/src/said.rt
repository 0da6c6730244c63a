//! What the words of a command say.

ghost use Rattle.std.specs.Prelude.{◌≡◌, ◌+◌, if◌then◌else◌, IfOk};
ghost use Rattle.text_values.specs.Arguments.{part_of};
ghost use Rattle.sbatch_reader.specs.Said.{fault_at, is_stray, said_of};
ghost use Rattle.text_values.specs.declared.word_refusal.WordKind.TheVariants.{StrayWord, MissingValue};

use crate::entries::{Entry, flag_entry, read_entry};
use crate::refusal::{Place, WordKind, told};
use crate::table::{FlagOption, ValueOption};
use small_texts::memory_error::Memory;
use std::alloc::Global;
use text_values::arguments::Argument;

/// Where words stand.
#[derive(Clone, Copy)]
pub(crate) enum Source {
    Command,
    /// A line of the script, by its number.
    ScriptLine(usize),
}

/// How words are read.
#[derive(Clone, Copy)]
pub(crate) struct Reading {
    pub(crate) source: Source,
    /// Whether the job has a script.
    pub(crate) has_script: bool,
    /// The moment at which they are read.
    pub(crate) now: u64,
}

/// What is said at a place, or what is wrong there.
#[derive(Drop)]
pub(crate) struct Said {
    pub(crate) place: Place,
    pub(crate) what: Result<Entry, WordKind>,
}

impl Source {
    ghost use Rattle.std.specs.Prelude.{◌≡◌};
    ghost use Rattle.sbatch_reader.specs.Said.{place_in, fault_at};

    fn place(self, number: usize) -> Place
        ensures { result ≡ place_in self number }
    {
        match self {
            Source::Command => Place::Word(told(number)),
            Source::ScriptLine(line) => Place::Line(told(line)),
        }
    }

    fn fault(self, number: usize, kind: WordKind) -> Said
        ensures { result ≡ fault_at self number kind }
    {
        Said {
            place: self.place(number),
            what: Err(kind),
        }
    }
}

fn is_stray(has_script: bool, option: ValueOption) -> bool
    ensures { result ≡ is_stray has_script option }
{
    match option {
        ValueOption::Wrap => has_script,
        _ => false,
    }
}

// An option that lacks its value.
fn lacking(reading: Reading, number: usize, option: ValueOption) -> Said
    ensures { result ≡ (if is_stray reading.has_script option then fault_at reading.source number StrayWord
        else fault_at reading.source (number + 1) MissingValue) }
{
    if is_stray(reading.has_script, option) {
        reading.source.fault(number, WordKind::StrayWord)
    } else {
        reading
            .source
            .fault(number.saturating_add(1), WordKind::MissingValue)
    }
}

/// What an argument says.
pub(crate) fn read_argument(
    alloc: Global,
    reading: Reading,
    argument: Argument<'_, FlagOption, ValueOption>,
) -> Result<Said, Memory>
    ensures { IfOk result (λ said. said ≡ said_of reading (part_of argument.entry)) }
{
    let source = reading.source;
    match argument {
        Argument::Plain { number, text: _ } => Ok(source.fault(number, WordKind::StrayWord)),
        Argument::Bad { number, kind } => Ok(source.fault(number, kind)),
        Argument::Flag { number, flag } => Ok(Said {
            place: source.place(number),
            what: Ok(flag_entry(flag)),
        }),
        Argument::Valued {
            number,
            option,
            place,
            text,
        } => {
            if is_stray(reading.has_script, option) {
                return Ok(source.fault(number, WordKind::StrayWord));
            }
            let what = read_entry(alloc, option, text, reading.now)?;
            Ok(Said {
                place: source.place(place),
                what,
            })
        }
        Argument::Lacking { number, option } => Ok(lacking(reading, number, option)),
    }
}
