//! The fields of a line, each ended by a byte.

ghost use Rattle.std.specs.Prelude.{◌≡◌, ◌<◌, ◌≤◌, ◌==◌, ◌^◌, ℕ, List, ◌∷◌, ◌++◌, Some, true, MatchOption, IfSome, IsSomeAnd, decimal, length, position};
ghost use Rattle.orders_text.specs.Fields.{IsCut, IsField, lacks};

use itoa::Buffer;
use small_texts::digits::parse_number;

// Where the first byte of this value stands.
fn place_of(text: &[u8], mark: u8) -> Option<usize>
    ensures value { result ≡ position (λ b. b == mark) text.now }
    ensures bound { IfSome result (λ at. at < length text.now) }
{
    text.iter().position(|b| *b == mark)
}

/// What stands before the first byte of this value, and what stands behind it.
pub(crate) fn cut(text: &[u8], mark: u8) -> Option<(&[u8], &[u8])>
    ensures parts { MatchOption result (lacks mark text.now ≡ true)
        (λ parts. IsCut text.now mark parts.0.now parts.1.now) }
    ensures only { (front back : List ℕ) → IsCut text.now mark front back
        → IsSomeAnd result (λ parts. (parts.0.now ≡ front) × (parts.1.now ≡ back)) }
{
    let at = place_of(text, mark)?;
    Some((text.split_at(at).0, text.split_at(at + 1).1))
}

/// The number that is written so, without needless zeros.
pub(crate) fn read_number(digits: &[u8], greatest: u64) -> Option<u64>
    ensures some { IfSome result (λ number. (decimal number ≡ digits.now) × (number ≤ greatest)) }
    ensures only { (number : ℕ) → number ≤ greatest → decimal number ≡ digits.now → result ≡ Some number }
{
    let number = parse_number(digits, 20, greatest)?;
    let mut buffer = Buffer::new();
    if buffer.format(number).as_bytes() == digits {
        Some(number)
    } else {
        None
    }
}

/// The value behind a label and before a byte, and what follows that.
pub(crate) fn value_before<'a>(
    text: &'a [u8],
    label: &[u8],
    mark: u8,
) -> Option<(&'a [u8], &'a [u8])>
    ensures some { IfSome result (λ parts. IsField text.now label.now mark parts.0.now parts.1.now) }
    ensures only { (value rest : List ℕ) → IsField text.now label.now mark value rest
        → IsSomeAnd result (λ parts. (parts.0.now ≡ value) × (parts.1.now ≡ rest)) }
{
    let behind = text.strip_prefix(label)?;
    cut(behind, mark)
}

/// The number behind a label and before a byte that is no digit, and what follows that.
pub(crate) fn number_before<'a>(
    text: &'a [u8],
    label: &[u8],
    mark: u8,
    greatest: u64,
) -> Option<(u64, &'a [u8])>
    requires { mark < 48 }
    ensures some { IfSome result (λ parts. (parts.0 ≤ greatest)
        × (text.now ≡ label.now ++ (decimal parts.0 ++ mark ∷ parts.1.now))) }
    ensures only { (number : ℕ) (rest : List ℕ) → number ≤ greatest
        → text.now ≡ label.now ++ (decimal number ++ mark ∷ rest)
        → IsSomeAnd result (λ parts. (parts.0 ≡ number) × (parts.1.now ≡ rest)) }
{
    let (digits, rest) = value_before(text, label, mark)?;
    let number = read_number(digits, greatest)?;
    Some((number, rest))
}
