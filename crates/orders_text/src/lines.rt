//! The lines of a text.

ghost use Rattle.std.specs.Prelude.{◌≡◌, ◌<◌, ◌≤◌, ◌++◌, drop, length};
ghost use Rattle.orders_text.specs.Lines.{IsFirstLine};

use crate::fields::cut;

/// The first line of a text with its LF, or all of the text where there is none.
pub(crate) fn first_line(text: &[u8]) -> &[u8]
    ensures cut { text.now ≡ result.now ++ drop (length result.now) text.now }
    ensures line { IsFirstLine result.now (drop (length result.now) text.now) }
    ensures some { 0 < length text.now → 0 < length result.now }
    ensures within { length result.now ≤ length text.now }
{
    match cut(text, b'\n') {
        Some((body, _)) => text.split_at(body.len() + 1).0,
        None => text,
    }
}
