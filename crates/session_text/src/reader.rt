//! The lines of a session, one after the other.

ghost use Rattle.std.specs.Prelude.{◌≡◌, ◌++◌, ◌∷◌, [], IfOk};
ghost use Rattle.std.specs.Str.{byte};
ghost use Rattle.session_text.specs.Heard.{behind, heard_in, heard_of, heard_within, opened, reader_after, still_open, first_reader};

use crate::call::{Call, Script};
use crate::fault::LineFault;
use crate::said::{Said, Standing, said_in};
use block_frame::Text;
use small_texts::memory_error::Memory;
use small_texts::name::Name;
use std::alloc::Global;

/// A call whose script is being read (own).
#[derive(Drop)]
pub struct Open {
    pub call: Call,
    /// The line that ends the script.
    pub until: Text,
    /// What was read of it.
    pub text: Text,
}

/// What stays from line to line, and a script that is being read (own).
#[derive(Drop)]
pub struct Reader {
    pub stays: Standing,
    pub begun: Option<Open>,
}

/// What is heard in a line (own).
#[derive(Drop)]
pub enum Heard {
    /// The controller is asked nothing.
    Nothing,
    Asks(Call),
    Help,
    Quit,
    Wrong(LineFault),
}

// Begins a script.
fn opened(alloc: Global, call: Call, until: Text) -> Open
    ensures { result ≡ opened call until }
{
    Open {
        call,
        until,
        text: Text::new(Vec::new(alloc)),
    }
}

// What is heard of what a line says, and what stays behind it.
fn take(alloc: Global, reader: Reader, said: Said) -> (Reader, Heard)
    ensures after { result.0 ≡ behind reader said }
    ensures heard { result.1 ≡ heard_of said }
{
    let Reader { stays, begun } = reader;
    match said {
        Said::Stays(stays) => (Reader { stays, begun }, Heard::Nothing),
        Said::Asks(call, stays) => (Reader { stays, begun }, Heard::Asks(call)),
        Said::Opens(call, stays, until) => {
            let begun = Some(opened(alloc, call, until));
            (Reader { stays, begun }, Heard::Nothing)
        }
        Said::Help => (Reader { stays, begun }, Heard::Help),
        Said::Quit => (Reader { stays, begun }, Heard::Quit),
        Said::Wrong(fault) => (Reader { stays, begun }, Heard::Wrong(fault)),
    }
}

// A line behind the others of a text.
fn with_line(text: Text, line: &[u8]) -> Result<Text, Memory>
    ensures { IfOk result (λ longer. longer ≡ text ++ line.now ++ byte "\n" ∷ []) }
{
    let mut bytes = text.into_vec();
    bytes.extend_from_slice(line)?;
    bytes.push(b'\n')?;
    Ok(Text::new(bytes))
}

// A line within a script, or the one that ends it.
fn take_within(started: Open, line: &[u8]) -> Result<(Option<Open>, Heard), Memory>
    ensures after { IfOk result (λ taken. taken.0 ≡ still_open started line.now) }
    ensures heard { IfOk result (λ taken. taken.1 ≡ heard_within started line.now) }
{
    let Open { call, until, text } = started;
    if line == until.as_bytes() {
        let script = Script::Given(text);
        return Ok((None, Heard::Asks(Call { script, ..call })));
    }
    let text = with_line(text, line)?;
    Ok((Some(Open { call, until, text }), Heard::Nothing))
}

/// Hears one line, which is given without what ends it: what stays behind it, and what is heard in it. Linear in the
/// line, but for what the words of sbatch(1) cost. After want of memory there is nothing to go on with.
#[tactic(auto, unfolding(crate::specs::Heard::heard_in, crate::specs::Heard::reader_after))]
pub fn hear(alloc: Global, reader: Reader, line: &[u8]) -> Result<(Reader, Heard), Memory>
    ensures after { IfOk result (λ taken. taken.0 ≡ reader_after reader line.now) }
    ensures heard { IfOk result (λ taken. taken.1 ≡ heard_in reader line.now) }
{
    let Reader { stays, begun } = reader;
    match begun {
        None => {
            let said = said_in(alloc, line, &stays)?;
            Ok(take(alloc, Reader { stays, begun: None }, said))
        }
        Some(started) => {
            let (begun, heard) = take_within(started, line)?;
            Ok((Reader { stays, begun }, heard))
        }
    }
}

/// The reader before the first line: root asks, at the moment 0.
pub fn start(alloc: Global) -> Result<Reader, Memory>
    ensures { IfOk result (λ reader. reader ≡ first_reader) }
{
    match Name::read(alloc, b"root") {
        Ok(user) => Ok(Reader {
            stays: Standing { moment: 0, user },
            begun: None,
        }),
        Err(_) => Err(Memory),
    }
}
