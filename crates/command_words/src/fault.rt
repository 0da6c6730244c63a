//! What is wrong with a command.

use text_values::conf_refusal::ConfKind;
pub use text_values::word_refusal::WordKind;

/// The first bad place of a command or of what is attached to it, and what is wrong there. All count from 1; word 1 is
/// the command's name.
#[derive(Clone, Copy, PartialEq, Eq, Debug)]
pub enum WordFault {
    Word { word: u32, kind: WordKind },
    /// A line of the script.
    Line { line: u32, kind: WordKind },
    /// A line of the configuration; 0 is all of it.
    Conf { line: u32, kind: ConfKind },
}
