//! A call of a server, as words ask it.

use command_words::command::Command;
use line_words::words::Words;
use small_texts::name::Name;

/// A call of a server (own).
#[derive(Drop)]
pub struct Call {
    /// The command, which is the first word.
    pub command: Command,
    /// The user that calls.
    pub user: Name,
    /// The port of this machine at which the server is.
    pub port: u16,
    /// The words of the request.
    pub words: Words,
}
