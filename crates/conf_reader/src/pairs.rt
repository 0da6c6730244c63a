//! Pairs: a key and a value with an equals sign between them.

ghost use Rattle.std.specs.Prelude.{◌≡◌, ◌<◌, ◌≤◌, ◌==◌, length, position, IfSome, option_map, option_copied};
ghost use Rattle.std.specs.Str.{byte};
ghost use Rattle.conf_reader.specs.Pairs.{has_quote, is_key, unquoted, pair_in, pair_of, pair_of_parts};

/// A key with its value.
#[derive(Clone, Copy)]
pub struct KeyValue<'a> {
    pub key: &'a [u8],
    pub value: &'a [u8],
}

/// The pair that a word is: a key, an equals sign, and a value, which double quotes may enclose as a whole.
#[tactic(auto, unfolding(crate::specs::Pairs::pair_in))]
pub fn read_pair(word: &[u8]) -> Option<KeyValue<'_>>
    ensures value { option_map pair_of result ≡ pair_in word.now }
    ensures size { IfSome result (λ pair. length pair.value.now ≤ length word.now) }
{
    match equals_sign(word) {
        Some(at) => pair_of_parts(&word[..at], &word[at + 1..]),
        None => None,
    }
}

fn equals_sign(word: &[u8]) -> Option<usize>
    ensures value { result ≡ position (λ b. b == byte "=") word.now }
    ensures inside { IfSome result (λ at. at < length word.now) }
{
    word.iter().position(|b| *b == b'=')
}

#[tactic(auto, unfolding(crate::specs::Pairs::pair_of_parts))]
fn pair_of_parts<'a>(key: &'a [u8], value: &'a [u8]) -> Option<KeyValue<'a>>
    ensures value { option_map pair_of result ≡ pair_of_parts key.now value.now }
    ensures size { IfSome result (λ pair. length pair.value.now ≤ length value.now) }
{
    if !is_key(key) {
        return None;
    }
    match unquoted(value) {
        Some(value) => Some(KeyValue { key, value }),
        None => None,
    }
}

fn has_quote(text: &[u8]) -> bool
    ensures { result ≡ has_quote text.now }
{
    text.iter().any(|b| *b == b'"')
}

fn is_key(text: &[u8]) -> bool
    ensures { result ≡ is_key text.now }
{
    !text.is_empty() && !has_quote(text)
}

// The value that a text writes, with quotes or without.
#[tactic(auto, unfolding(crate::specs::Pairs::unquoted))]
fn unquoted(text: &[u8]) -> Option<&[u8]>
    ensures value { option_copied result ≡ unquoted text.now }
    ensures size { IfSome result (λ value. length value.now ≤ length text.now) }
{
    match text {
        [b'"', inner @ .., b'"'] if !has_quote(inner) => Some(inner),
        _ if has_quote(text) => None,
        _ => Some(text),
    }
}
