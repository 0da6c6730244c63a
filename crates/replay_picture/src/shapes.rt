//! Rectangles and texts.

ghost use Rattle.std.specs.Prelude.{◌≡◌, ◌++◌, OnOk};
ghost use Rattle.replay_picture.specs.Shapes.{rect_text, title_text, words_text};

use crate::escape::push_escaped;
use small_texts::memory_error::Memory;
use small_texts::pieces::{push_labelled, push_text};

/// A rectangle, in tenths of a unit.
#[derive(Clone, Copy)]
pub(crate) struct Rect {
    pub(crate) x: u64,
    pub(crate) y: u64,
    pub(crate) width: u64,
    pub(crate) height: u64,
}

#[tactic(auto, unfolding(crate::specs::Shapes::rect_text))]
pub(crate) fn push_rect(out: &mut Vec<u8>, rect: Rect) -> Result<(), Memory>
    ensures { OnOk result (out.new.items ≡ out.old.items ++ rect_text rect) }
{
    push_labelled(out, b"<rect x='", rect.x)?;
    push_labelled(out, b"' y='", rect.y)?;
    push_labelled(out, b"' width='", rect.width)?;
    push_labelled(out, b"' height='", rect.height)?;
    push_text(out, b"'/>")
}

/// Writes what is shown while a pointer rests on what it stands in.
#[tactic(auto, unfolding(crate::specs::Shapes::title_text))]
pub(crate) fn push_title(out: &mut Vec<u8>, title: &[u8]) -> Result<(), Memory>
    ensures { OnOk result (out.new.items ≡ out.old.items ++ title_text title.now) }
{
    push_text(out, b"<title>")?;
    push_escaped(out, title)?;
    push_text(out, b"</title>")
}

/// Writes a text whose line stands at `y`.
#[tactic(auto, unfolding(crate::specs::Shapes::words_text))]
pub(crate) fn push_words(out: &mut Vec<u8>, x: u64, y: u64, words: &[u8]) -> Result<(), Memory>
    ensures { OnOk result (out.new.items ≡ out.old.items ++ words_text x y words.now) }
{
    push_labelled(out, b"<text x='", x)?;
    push_labelled(out, b"' y='", y)?;
    push_text(out, b"'>")?;
    push_escaped(out, words)?;
    push_text(out, b"</text>")
}
