//! The text of a reply.

ghost use Rattle.std.specs.Prelude.{◌≡◌, IfOk};

use small_texts::memory_error::Memory;
use std::alloc::Global;
use std::marker::Model;

/// The text of a reply. A contract sees it as its bytes (own).
#[derive(Drop)]
pub struct ReplyText {
    bytes: Vec<u8>,
}

impl Model for ReplyText {
    ghost use Rattle.std.specs.Prelude.{List, ℕ};

    ghost Value = { List ℕ };

    ghost view = { λ text. text.bytes.items };
}

impl ReplyText {
    /// A text of these bytes.
    pub fn copy_of(alloc: Global, bytes: &[u8]) -> Result<ReplyText, Memory>
        ensures { IfOk result (λ text. text ≡ bytes.now) }
    {
        let bytes = Vec::from_slice(alloc, bytes)?;
        Ok(ReplyText { bytes })
    }

    /// The bytes of the text.
    pub fn as_bytes(&self) -> &[u8]
        ensures { result.now ≡ self.now }
    {
        self.bytes.as_slice()
    }
}
