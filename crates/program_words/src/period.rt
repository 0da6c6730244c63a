//! The word that names a period.

ghost use Rattle.std.specs.Prelude.{◌≡◌, ◌<◌, IfSome, length, position};
ghost use Rattle.program_words.specs.Periods.{is_comma, second_in, period_between, period_named};

use plain_data::period::Period;
use small_texts::digits::parse_number;

/// The last second that a request can have (own).
const LAST_SECOND: u64 = 250_000_000_000;

// Where the first comma of a text stands.
fn comma_place(text: &[u8]) -> Option<usize>
    ensures value { result ≡ position is_comma text.now }
    ensures bound { IfSome result (λ at. at < length text.now) }
{
    text.iter().position(|b| *b == b',')
}

fn read_second(text: &[u8]) -> Option<u64>
    ensures { result ≡ second_in text.now }
{
    parse_number(text, 12, LAST_SECOND)
}

fn period_between(from: u64, until: u64) -> Option<Period>
    ensures { result ≡ period_between from until }
{
    if from <= until {
        Some(Period { from, until })
    } else {
        None
    }
}

/// The period that `FROM,UNTIL` names: seconds in one to twelve decimal digits, FROM not behind UNTIL, and UNTIL at most
/// 250,000,000,000 (own). None of any other text.
#[tactic(auto, unfolding(crate::specs::Periods::period_named))]
pub(crate) fn read_period(text: &[u8]) -> Option<Period>
    ensures { result ≡ period_named text.now }
{
    let at = comma_place(text)?;
    let from = read_second(text.split_at(at).0)?;
    let until = read_second(text.split_at(at + 1).1)?;
    period_between(from, until)
}
