//! Where the lines of a session come from, and how they are shown.

ghost use Rattle.std.specs.Prelude.{◌≡◌, IfOk};
ghost use Rattle.session_text.specs.CallTexts.{before, behind, end_shown};

use small_texts::memory_error::Memory;
use small_texts::pieces::push_text;
use std::alloc::Global;

/// Where the lines of a session come from (own).
#[derive(Clone, Copy, Debug, PartialEq, Eq)]
pub enum Input {
    /// From a text: each line is written behind the mark `> `, as it would stand on a terminal.
    Text,
    /// From a terminal, which shows what is typed: the mark is written before each line is read.
    Terminal,
}

// The mark and a line.
fn marked(alloc: Global, line: &[u8]) -> Result<Vec<u8>, Memory>
    ensures { IfOk result (λ text. text.items ≡ behind Input.Text line.now) }
{
    let mut text = Vec::new(alloc);
    push_text(&mut text, b"> ")?;
    push_text(&mut text, line)?;
    push_text(&mut text, b"\n")?;
    Ok(text)
}

impl Input {
    ghost use Rattle.std.specs.Prelude.{◌≡◌, IfOk};
    ghost use Rattle.session_text.specs.CallTexts.{before, behind, end_shown};

    /// What is written before a line is read.
    pub fn before(self) -> &'static [u8]
        ensures { result.now ≡ before self }
    {
        match self {
            Input::Text => b"",
            Input::Terminal => b"> ",
        }
    }

    /// What is written once a line was read.
    pub fn behind(self, alloc: Global, line: &[u8]) -> Result<Vec<u8>, Memory>
        ensures { IfOk result (λ text. text.items ≡ behind self line.now) }
    {
        match self {
            Input::Text => marked(alloc, line),
            Input::Terminal => Ok(Vec::new(alloc)),
        }
    }

    /// What is written at the end of the input.
    pub fn at_end(self) -> &'static [u8]
        ensures { result.now ≡ end_shown self }
    {
        match self {
            Input::Text => b"",
            Input::Terminal => b"\n",
        }
    }
}
