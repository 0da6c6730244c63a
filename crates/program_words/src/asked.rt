//! What words ask.

use crate::Call;
use plain_data::files::FileNames;
use plain_data::period::Period;

/// What words of a script say (own).
#[derive(Clone, Copy)]
pub struct ScriptWords<'a> {
    pub files: FileNames<'a>,
    /// The period whose sums are written behind the answers, as sacct(1) accounts them.
    pub sacct: Option<Period>,
    /// Whether the state is saved behind the answers.
    pub save: bool,
}

/// What words of a server say (own).
#[derive(Clone, Copy)]
pub struct ServeWords<'a> {
    pub files: FileNames<'a>,
    pub port: u16,
    /// From 1 to 64.
    pub workers: u32,
    /// Whether the state is saved behind the shutdown.
    pub save: bool,
}

/// What words ask (own).
#[derive(Drop)]
pub enum Asked<'a> {
    /// A script on the cluster of its files.
    Script(ScriptWords<'a>),
    /// A server of the cluster of its files.
    Serve(ServeWords<'a>),
    /// The script that a number stands for.
    Generate(u32),
    /// A simulation of the jobs of that script.
    Simulate(u32),
    /// The call of a server.
    Call(Call),
}
