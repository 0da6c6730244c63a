//! What is wrong with a command.

ghost use Rattle.std.specs.Prelude.{◌≡◌};
ghost use Rattle.text_values.specs.WordRefusal.{told};

use std::fmt;

/// What is wrong with a word of a command or with a line of its script.
#[derive(Clone, Copy, PartialEq, Eq, Debug)]
pub enum WordKind {
    /// There is no such command.
    UnknownCommand,
    /// The command has no such option.
    UnknownOption,
    /// An option's value is missing behind it.
    MissingValue,
    /// A word is missing at the end.
    MissingWord,
    /// The value isn't one of its option or of its place.
    BadValue,
    /// Nothing is wanted there.
    StrayWord,
    /// A text has more than 1,024 bytes.
    TooLong,
    /// The script doesn't begin with `#!`.
    NoHashBang,
}

impl fmt::Display for WordKind {
    ghost use Rattle.std.specs.Prelude.{Some};
    ghost use Rattle.text_values.specs.WordRefusal.{kind_text};

    ghost output = { λ kind. Some (kind_text kind) };

    fn fmt<W: fmt::Write>(&self, f: &mut fmt::Formatter<W>) -> fmt::Result {
        f.write_str(match self {
            WordKind::UnknownCommand => "UnknownCommand",
            WordKind::UnknownOption => "UnknownOption",
            WordKind::MissingValue => "MissingValue",
            WordKind::MissingWord => "MissingWord",
            WordKind::BadValue => "BadValue",
            WordKind::StrayWord => "StrayWord",
            WordKind::TooLong => "TooLong",
            WordKind::NoHashBang => "NoHashBang",
        })
    }
}

/// The number of a word or a line as it is told: one that 32 bits don't hold is told as the greatest.
pub fn told(number: usize) -> u32
    ensures { result ≡ told number }
{
    if number < 4_294_967_295 {
        number as u32
    } else {
        4_294_967_295
    }
}
