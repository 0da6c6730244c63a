//! Texts cut at a byte.

ghost use Rattle.std.specs.Prelude.{◌≡◌, ◌==◌, ◌∷◌, ◌+◌, length, position, IfSome};
ghost use Rattle.std.specs.Option.{option_copied};
ghost use Rattle.small_texts.specs.Fields.{fields, fields_of_rest, HasFields};

/// The fields of a text that has at most three.
#[derive(Clone, Copy, Debug)]
pub enum UpToThree<'a> {
    One(&'a [u8]),
    Two(&'a [u8], &'a [u8]),
    Three(&'a [u8], &'a [u8], &'a [u8]),
    /// There are more than three.
    More,
}

/// The first field of the text, up to its first `separator`, and what follows that one where there is one.
pub fn first_field(text: &[u8], separator: u8) -> (&[u8], Option<&[u8]>)
    ensures cut { fields separator text.now
        ≡ result.0.now ∷ fields_of_rest separator (option_copied result.1) }
    ensures len { IfSome result.1 (λ rest. length result.0.now + 1 + length rest.now ≡ length text.now) }
{
    match place_of(text, separator) {
        Some(at) => (&text[..at], Some(&text[at + 1..])),
        None => (text, None),
    }
}

/// All fields of the text, where they are at most three.
pub fn up_to_three(text: &[u8], separator: u8) -> UpToThree<'_>
    ensures { HasFields result (fields separator text.now) }
{
    let (first, rest) = first_field(text, separator);
    let Some(rest) = rest else {
        return UpToThree::One(first);
    };
    let (second, rest) = first_field(rest, separator);
    let Some(rest) = rest else {
        return UpToThree::Two(first, second);
    };
    let (third, rest) = first_field(rest, separator);
    match rest {
        None => UpToThree::Three(first, second, third),
        Some(_) => UpToThree::More,
    }
}

// Where the byte first stands.
fn place_of(text: &[u8], byte: u8) -> Option<usize>
    ensures { result ≡ position (λ b. b == byte) text.now }
{
    text.iter().position(|b| *b == byte)
}
