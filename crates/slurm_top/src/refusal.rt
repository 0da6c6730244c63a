//! Why a command has no script, or no configuration, that it could send.

/// The most bytes of a script, or of a configuration, that a server takes (own).
pub(crate) const LONGEST_SCRIPT: usize = 65_536;

/// Why there is no script.
#[derive(Clone, Copy)]
pub(crate) enum ScriptRefusal {
    /// A read failed.
    ReadFault,
    /// It is longer than a server takes.
    TooLong,
    Memory,
}
