//! What a line asks of the controller: who, when, by which words, and with which script.

use block_frame::Text;
use line_words::words::Words;
use small_texts::name::Name;

/// When a call is made: so often, each time a step later, the first time a step behind the start. A step of 0 is a call
/// at the start itself (own).
#[derive(Clone, Copy, Debug, PartialEq, Eq)]
pub struct Times {
    /// In seconds since 1970.
    pub start: u64,
    /// In seconds.
    pub step: u64,
    pub count: u64,
}

/// Where the script of a call is (own).
#[derive(Drop)]
pub enum Script {
    /// There is none.
    Absent,
    /// In the file that this word of the call names, counted from 1.
    Named(u32),
    /// In the lines that followed.
    Given(Text),
}

/// What is asked of the controller (own).
#[derive(Drop)]
pub struct Call {
    pub times: Times,
    pub user: Name,
    pub words: Words,
    pub script: Script,
}
