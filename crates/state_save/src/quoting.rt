//! One word on a line, in quotes where it needs them.

ghost use Rattle.std.specs.Prelude.{◌≡◌, ◌++◌, OnOk};
ghost use Rattle.std.specs.List.{list_all};
ghost use Rattle.line_words.specs.Words.{is_bare, is_bare_byte, double_quoted, quoted};

use small_texts::memory_error::Memory;
use small_texts::pieces::push_text;

fn is_bare_byte(b: &u8) -> bool
    ensures { result ≡ is_bare_byte b.now }
{
    b.is_ascii_alphanumeric() || b"_-.,=:/+%@[]&|?".contains(b)
}

fn has_bare_bytes(word: &[u8]) -> bool
    ensures { result ≡ list_all is_bare_byte word.now }
{
    word.iter().all(|b| is_bare_byte(b))
}

fn is_bare(word: &[u8]) -> bool
    ensures { result ≡ is_bare word.now }
{
    !word.is_empty() && has_bare_bytes(word)
}

fn push_double_quoted(out: &mut Vec<u8>, b: u8) -> Result<(), Memory>
    ensures { OnOk result (out.new.items ≡ out.old.items ++ double_quoted b) }
{
    if matches!(b, b'"' | b'\\') {
        out.push(b'\\')?;
    }
    out.push(b)?;
    Ok(())
}

/// Writes a word as `quote_words` does.
#[tactic(auto, unfolding(line_words::specs::Words::quoted))]
pub fn push_quoted(out: &mut Vec<u8>, word: &[u8]) -> Result<(), Memory>
    ensures { OnOk result (out.new.items ≡ out.old.items ++ quoted word.now) }
{
    if is_bare(word) {
        return push_text(out, word);
    }
    out.push(b'"')?;
    for b in word {
        push_double_quoted(out, *b)?;
    }
    out.push(b'"')?;
    Ok(())
}
