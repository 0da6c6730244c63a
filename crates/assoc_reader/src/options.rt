//! The options behind a line's name: keys with their values, with a colon before each.

ghost use Rattle.std.specs.Prelude.{ℕ, ◌≡◌, ◌<◌, ◌≤◌, ◌==◌, ◌∷◌, length, not, false, IfSome, option_map, option_copied};
ghost use Rattle.assoc_reader.specs.Options.{quoted_behind, ends_option, option_len, options_from, options_of_rest, options_in, has_quote, is_key, unquoted, pair_of_parts, pair_in};

use crate::cuts::cut_at;

/// A key with its value.
#[derive(Clone, Copy)]
pub(crate) struct KeyValue<'a> {
    pub(crate) key: &'a [u8],
    pub(crate) value: &'a [u8],
}

fn quoted_behind(quoted: bool, b: u8) -> bool
    ensures { result ≡ quoted_behind quoted b }
{
    if b == b'\'' { !quoted } else { quoted }
}

fn ends_option(quoted: bool, b: u8) -> bool
    ensures { result ≡ ends_option quoted b }
{
    !quoted && b == b':'
}

// How many bytes stand before the first colon outside quotes.
fn option_len(text: &[u8]) -> usize
    ensures value { result ≡ option_len false text.now }
    ensures size { result ≤ length text.now }
{
    let mut quoted = false;
    for (place, b) in text.iter().enumerate() {
        if ends_option(quoted, *b) {
            return place;
        }
        quoted = quoted_behind(quoted, *b);
    }
    text.len()
}

/// The first option of a text, and what follows the colon behind it, where there is one.
#[tactic(auto, using(crate::proofs::OptionLemmas::first_of_more, crate::proofs::OptionLemmas::only_one))]
pub(crate) fn first_option(text: &[u8]) -> (&[u8], Option<&[u8]>)
    ensures cut { options_from false text.now ≡ result.0.now ∷ options_of_rest (option_copied result.1) }
    ensures size { IfSome result.1 (λ rest. length rest.now < length text.now) }
{
    let len = option_len(text);
    if len < text.len() {
        (&text[..len], Some(&text[len + 1..]))
    } else {
        (text, None)
    }
}

/// What follows the colon behind a name, where anything does; None where it isn't a colon.
pub(crate) fn options_behind(rest: &[u8]) -> Option<Option<&[u8]>>
    ensures { options_in rest.now ≡ option_map (λ left. options_of_rest (option_copied left)) result }
{
    match rest {
        [] => Some(None),
        [b':', text @ ..] => Some(Some(text)),
        _ => None,
    }
}

fn has_quote(text: &[u8]) -> bool
    ensures { result ≡ has_quote text.now }
{
    text.iter().any(|b| *b == b'\'')
}

fn is_key(text: &[u8]) -> bool
    ensures { result ≡ is_key text.now }
{
    !text.is_empty() && !has_quote(text)
}

// The value that a text writes, with quotes or without.
#[tactic(auto, unfolding(crate::specs::Options::unquoted))]
fn unquoted(text: &[u8]) -> Option<&[u8]>
    ensures { option_copied result ≡ unquoted text.now }
{
    match text {
        [b'\'', inner @ .., b'\''] if !has_quote(inner) => Some(inner),
        _ if has_quote(text) => None,
        _ => Some(text),
    }
}

#[tactic(auto, unfolding(crate::specs::Options::pair_of_parts))]
fn pair_of_parts<'a>(key: &'a [u8], text: &'a [u8]) -> Option<KeyValue<'a>>
    ensures { option_map (λ pair. (pair.key.now, pair.value.now)) result ≡ pair_of_parts key.now text.now }
{
    if !is_key(key) {
        return None;
    }
    match unquoted(text) {
        Some(value) => Some(KeyValue { key, value }),
        None => None,
    }
}

/// The pair that an option is: a key, an equals sign, and a value, which single quotes may enclose as a whole.
#[tactic(auto, unfolding(crate::specs::Options::pair_in))]
pub(crate) fn read_pair(option: &[u8]) -> Option<KeyValue<'_>>
    ensures { option_map (λ pair. (pair.key.now, pair.value.now)) result ≡ pair_in option.now }
{
    match cut_at(option, b'=') {
        Some((key, text)) => pair_of_parts(key, text),
        None => None,
    }
}
