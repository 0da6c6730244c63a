//! Texts of people within XML.

ghost use Rattle.std.specs.Prelude.{◌≡◌, ◌++◌, OnOk};
ghost use Rattle.replay_picture.specs.Escape.{escaped, escaped_byte};

use small_texts::memory_error::Memory;
use small_texts::pieces::push_text;

fn push_escaped_byte(out: &mut Vec<u8>, b: u8) -> Result<(), Memory>
    ensures { OnOk result (out.new.items ≡ out.old.items ++ escaped_byte b) }
{
    match b {
        b'&' => push_text(out, b"&amp;"),
        b'<' => push_text(out, b"&lt;"),
        b'>' => push_text(out, b"&gt;"),
        b'"' => push_text(out, b"&quot;"),
        b'\'' => push_text(out, b"&apos;"),
        b' '..=b'~' => push_text(out, &[b]),
        _ => push_text(out, b"?"),
    }
}

/// Writes a text so that it stays one. Linear in it.
pub(crate) fn push_escaped(out: &mut Vec<u8>, text: &[u8]) -> Result<(), Memory>
    ensures { OnOk result (out.new.items ≡ out.old.items ++ escaped text.now) }
{
    for b in text {
        push_escaped_byte(out, *b)?;
    }
    Ok(())
}
