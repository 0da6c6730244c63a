//! The commands.

ghost use Rattle.std.specs.Prelude.{◌≡◌};
ghost use Rattle.command_words.specs.Command.{command_named};

/// A command of users, operators or daemons.
#[derive(Clone, Copy, PartialEq, Eq, Debug)]
pub enum Command {
    /// sbatch(1).
    Sbatch,
    /// squeue(1).
    Squeue,
    /// scancel(1).
    Scancel,
    /// scontrol(1).
    Scontrol,
    /// sinfo(1).
    Sinfo,
    /// sprio(1).
    Sprio,
    /// A node's daemon tells what it runs (own).
    Report,
    /// Jobs are ended, started and planned (own).
    Pass,
}

impl Command {
    ghost use Rattle.std.specs.Prelude.{◌≡◌};
    ghost use Rattle.command_words.specs.Command.{name_of};

    /// Its first word.
    pub fn name(self) -> &'static [u8]
        ensures { result.now ≡ name_of self }
    {
        match self {
            Command::Sbatch => b"sbatch",
            Command::Squeue => b"squeue",
            Command::Scancel => b"scancel",
            Command::Scontrol => b"scontrol",
            Command::Sinfo => b"sinfo",
            Command::Sprio => b"sprio",
            Command::Report => b"report",
            Command::Pass => b"pass",
        }
    }
}

/// The command of this name.
#[tactic(auto, unfolding(crate::specs::Command::command_named))]
pub fn command_named(word: &[u8]) -> Option<Command>
    ensures { result ≡ command_named word.now }
{
    if word == b"sbatch".as_slice() {
        Some(Command::Sbatch)
    } else if word == b"squeue".as_slice() {
        Some(Command::Squeue)
    } else if word == b"scancel".as_slice() {
        Some(Command::Scancel)
    } else if word == b"scontrol".as_slice() {
        Some(Command::Scontrol)
    } else if word == b"sinfo".as_slice() {
        Some(Command::Sinfo)
    } else if word == b"sprio".as_slice() {
        Some(Command::Sprio)
    } else if word == b"report".as_slice() {
        Some(Command::Report)
    } else if word == b"pass".as_slice() {
        Some(Command::Pass)
    } else {
        None
    }
}
