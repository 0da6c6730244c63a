//! Numbers written in decimal digits.

ghost use Rattle.std.specs.Prelude.{◌≡◌, ◌<◌, ◌≤◌, length, IfSome};
ghost use Rattle.small_texts.specs.Digits.{number_within, leading_digits, after_digits, two_digits};
ghost use Rattle.std.specs.Char.{is_ascii_digit};
ghost use Rattle.std.specs.List.{prefix_len};

/// The number that the text writes: decimal digits without a sign, from 1 to `most_digits` of them, leading
/// zeros among them. None where the text is anything else, or where its number is above `greatest`.
pub fn parse_number(text: &[u8], most_digits: usize, greatest: u64) -> Option<u64>
    ensures value { result ≡ number_within most_digits greatest text.now }
    ensures bound { IfSome result (λ n. n ≤ greatest) }
{
    if text.is_empty() || text.len() > most_digits {
        return None;
    }
    let mut number: u64 = 0;
    for digit in text {
        if !digit.is_ascii_digit() {
            return None;
        }
        number = number
            .checked_mul(10)?
            .checked_add(u64::from(*digit - b'0'))?;
        if number > greatest {
            return None;
        }
    }
    Some(number)
}

/// The digits that begin the text, and what follows them.
pub fn split_digits(text: &[u8]) -> (&[u8], &[u8])
    ensures front { result.0.now ≡ leading_digits text.now }
    ensures back { result.1.now ≡ after_digits text.now }
{
    text.split_at(count_digits(text))
}

/// The number in two digits.
pub fn to_two_digits(number: u64) -> [u8; 2]
    requires { number < 100 }
    ensures { result ≡ two_digits number }
{
    [b'0' + (number / 10) as u8, b'0' + (number % 10) as u8]
}

// How many digits begin the text.
fn count_digits(text: &[u8]) -> usize
    ensures value { result ≡ prefix_len is_ascii_digit text.now }
    ensures bound { result ≤ length text.now }
{
    text.iter().take_while(|b| b.is_ascii_digit()).count()
}
