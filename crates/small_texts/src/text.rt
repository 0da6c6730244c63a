//! Texts that lie where they are kept, as long as they are short.

ghost use Rattle.std.specs.Prelude.{◌≡◌, IfOk};

use crate::memory_error::Memory;
use std::alloc::Global;
use std::marker::Model;

// How many bytes lie in place: with their count and the enum's tag they fill three words.
const IN_PLACE: usize = 22;

// Where the bytes are.
#[derive(Drop)]
pub(crate) enum Kept {
    // The first so many of these.
    Here(u8, [u8; IN_PLACE]),
    Apart(Box<Vec<u8>>),
}

/// A text. One of up to 22 bytes takes no memory of its own, and a copy of it costs no call for some. A contract sees it
/// as its bytes (own).
#[derive(Drop)]
pub(crate) struct Text {
    kept: Kept,
}

impl Model for Text {
    ghost use Rattle.std.specs.Prelude.{List, ℕ};
    ghost use Rattle.small_texts.specs.Texts.{bytes_of, IsKept};

    ghost Value = { List ℕ };

    ghost view = { λ text. bytes_of text.kept };

    ghost invariant = { λ text. IsKept text.kept };
}

impl Text {
    /// A copy of these bytes.
    #[tactic(auto, unfolding(crate::specs::Texts::bytes_of, crate::specs::Texts::IsKept))]
    pub(crate) fn of(alloc: Global, bytes: &[u8]) -> Result<Text, Memory>
        ensures { IfOk result (λ text. text ≡ bytes.now) }
    {
        if bytes.len() > IN_PLACE {
            let text = Vec::from_slice(alloc, bytes)?;
            let kept = Kept::Apart(Box::new(alloc, text)?);
            return Ok(Text { kept });
        }
        let mut here = [0; IN_PLACE];
        here[..bytes.len()].copy_from_slice(bytes);
        let kept = Kept::Here(bytes.len() as u8, here);
        Ok(Text { kept })
    }

    /// The bytes.
    #[tactic(auto, unfolding(crate::specs::Texts::bytes_of, crate::specs::Texts::IsKept))]
    pub(crate) fn as_bytes(&self) -> &[u8]
        ensures { result.now ≡ self.now }
    {
        match &self.kept {
            Kept::Here(len, bytes) => &bytes[..usize::from(*len)],
            Kept::Apart(text) => text.as_slice(),
        }
    }

    /// An equal text.
    #[tactic(auto, unfolding(crate::specs::Texts::bytes_of, crate::specs::Texts::IsKept))]
    pub(crate) fn copy(&self) -> Result<Text, Memory>
        ensures { IfOk result (λ text. text ≡ self.now) }
    {
        match &self.kept {
            Kept::Here(len, bytes) => Ok(Text {
                kept: Kept::Here(*len, *bytes),
            }),
            Kept::Apart(text) => Text::of(*text.allocator(), text.as_slice()),
        }
    }
}
