//! What is wrong with a line.

ghost use Rattle.std.specs.Prelude.{◌≡◌};
ghost use Rattle.session_text.specs.Texts.{fault_text};

/// What is wrong with a line of a session (own).
#[derive(Clone, Copy, Debug, PartialEq, Eq)]
pub enum LineFault {
    /// A byte that no word has, or a quote or a backslash that stays open.
    BadWords,
    /// `user` without a name, or with more than that.
    BadUser,
    /// `at` without a moment, or with more than that.
    BadMoment,
    /// `every` that isn't `every SECONDS COMMAND .. until MOMENT`.
    BadEvery,
    /// `every` that would ask more than 100,000 times.
    TooOften,
    /// `<<` without a word that ends the script.
    NoEndWord,
    /// The input ended within a script.
    NoEndLine,
    /// The file of a script can't be read.
    NoScript,
    /// The line or the script is longer than the controller takes.
    TooLong,
}

impl LineFault {
    ghost use Rattle.std.specs.Prelude.{◌≡◌};
    ghost use Rattle.session_text.specs.Texts.{fault_text};

    /// How it is printed.
    pub fn name(self) -> &'static [u8]
        ensures { result.now ≡ fault_text self }
    {
        match self {
            LineFault::BadWords => b"BadWords",
            LineFault::BadUser => b"BadUser",
            LineFault::BadMoment => b"BadMoment",
            LineFault::BadEvery => b"BadEvery",
            LineFault::TooOften => b"TooOften",
            LineFault::NoEndWord => b"NoEndWord",
            LineFault::NoEndLine => b"NoEndLine",
            LineFault::NoScript => b"NoScript",
            LineFault::TooLong => b"TooLong",
        }
    }
}
