//! Moments: "--begin" of sbatch(1). A moment is a number of seconds since 1970-01-01T00:00:00 in UTC.

ghost use Rattle.std.specs.Prelude.{◌≡◌, ℕ, ◌/◌, ◌<◌, ◌≤◌, Some, IfSome, IfOk};
ghost use Rattle.std.specs.Result.{result_ok};
ghost use Rattle.std.specs.Str.{byte};
ghost use Rattle.small_texts.specs.Fields.{fields};
ghost use Rattle.small_texts.specs.Moment.{number_of_width, day_of_date, seconds_of_clock, civil_moment, unit_of, wait_of, up_to_last, moment_of, moment_text};
ghost use Rattle.small_texts.specs.Civil.{date_after, IsDateAfter};

use crate::civil::{date_after_epoch, day_after_epoch};
use crate::digits::{parse_number, split_digits, to_two_digits};
use crate::fields::{UpToThree, up_to_three};
use std::error::Error;
use std::fmt;

/// The text names no moment.
#[derive(Clone, Copy, PartialEq, Eq, Debug)]
pub struct BadMoment;

impl fmt::Display for BadMoment {
    ghost use Rattle.std.specs.Prelude.{Some, codes};

    ghost output = { λ _. Some (codes "bad moment") };

    fn fmt<W: fmt::Write>(&self, f: &mut fmt::Formatter<W>) -> fmt::Result {
        f.write_str("bad moment")
    }
}

impl Error for BadMoment {}

const LAST: u64 = 250_000_000_000;

/// The moment of a text such as `2030-01-31T08:00`, `now` or `now+2hours`, in seconds since 1970, at most
/// 250,000,000,000. A wait has one to nine digits and maybe a unit: `seconds`, `minutes`, `hours`, `days` or `weeks`,
/// else seconds. A date and a time of day are of UTC, whose seconds end at 59.
pub fn parse_moment(text: &[u8], now: u64) -> Result<u64, BadMoment>
    ensures value { result_ok result ≡ moment_of text.now now }
    ensures bound { IfOk result (λ moment. moment ≤ 250_000_000_000) }
{
    parse_parts(text, now).ok_or(BadMoment)
}

/// Writes the moment as `YYYY-MM-DDTHH:MM:SS`.
pub fn print_moment(moment: u64, out: &mut [u8; 19])
    requires { moment ≤ 253_402_300_799 }
    ensures text { out.new ≡ moment_text moment }

    // The date in that text is the one of the calendar that is so many days after 1970-01-01.
    ensures civil { IsDateAfter (moment / 86_400) (date_after (moment / 86_400)) }

    // The text is read as the moment, whenever it is read.
    ensures read { moment ≤ 250_000_000_000 → (now : ℕ) → moment_of out.new now ≡ Some moment }
{
    *out = moment_text(moment);
}

// The text of a moment.
#[tactic(auto, unfolding(crate::specs::Moment::moment_text))]
fn moment_text(moment: u64) -> [u8; 19]
    requires { moment ≤ 253_402_300_799 }
    ensures text { result ≡ moment_text moment }
    ensures civil { IsDateAfter (moment / 86_400) (date_after (moment / 86_400)) }
{
    let date = date_after_epoch(moment / 86_400);
    let seconds = moment % 86_400;
    let [y1, y2] = to_two_digits(date.year / 100);
    let [y3, y4] = to_two_digits(date.year % 100);
    let [m1, m2] = to_two_digits(date.month);
    let [d1, d2] = to_two_digits(date.day);
    let [h1, h2] = to_two_digits(seconds / 3600);
    let [i1, i2] = to_two_digits(seconds / 60 % 60);
    let [s1, s2] = to_two_digits(seconds % 60);
    [
        y1, y2, y3, y4, b'-', m1, m2, b'-', d1, d2, b'T', h1, h2, b':', i1, i2, b':', s1, s2,
    ]
}

// The same, where a text that names no moment is `None`.
#[tactic(auto, unfolding(crate::specs::Moment::moment_of, crate::specs::Moment::moment_of_parts))]
fn parse_parts(text: &[u8], now: u64) -> Option<u64>
    ensures value { result ≡ moment_of text.now now }
    ensures bound { IfSome result (λ moment. moment ≤ 250_000_000_000) }
{
    match up_to_three(text, b'+') {
        UpToThree::One(b"now") => up_to_last(now),
        UpToThree::One(text) => up_to_last(parse_civil(text)?),
        UpToThree::Two(b"now", wait) => up_to_last(now.checked_add(parse_wait(wait)?)?),
        _ => None,
    }
}

// The moment, where it is not behind the last.
fn up_to_last(moment: u64) -> Option<u64>
    ensures value { result ≡ up_to_last moment }
    ensures bound { IfSome result (λ last. last ≤ 250_000_000_000) }
{
    (moment <= LAST).then_some(moment)
}

// A number of units of time, in seconds.
#[tactic(auto, unfolding(crate::specs::Moment::wait_of))]
fn parse_wait(text: &[u8]) -> Option<u64>
    ensures { result ≡ wait_of text.now }
{
    let (digits, unit) = split_digits(text);
    Some(parse_number(digits, 9, 999_999_999)? * parse_unit(unit)?)
}

// The seconds of a unit of time.
#[tactic(auto, unfolding(crate::specs::Moment::unit_of))]
fn parse_unit(text: &[u8]) -> Option<u64>
    ensures value { result ≡ unit_of text.now }
    ensures bound { IfSome result (λ seconds. seconds ≤ 604_800) }
{
    if text.is_empty() || text == b"seconds".as_slice() {
        Some(1)
    } else if text == b"minutes".as_slice() {
        Some(60)
    } else if text == b"hours".as_slice() {
        Some(3600)
    } else if text == b"days".as_slice() {
        Some(86_400)
    } else if text == b"weeks".as_slice() {
        Some(604_800)
    } else {
        None
    }
}

// The moment of a date and a time of day.
#[tactic(auto, unfolding(crate::specs::Moment::civil_moment))]
fn parse_civil(text: &[u8]) -> Option<u64>
    ensures { result ≡ civil_moment (fields (byte "T") text.now) }
{
    match up_to_three(text, b'T') {
        UpToThree::Two(date, clock) => Some(86_400 * parse_date(date)? + parse_clock(clock)?),
        _ => None,
    }
}

// The day number of a date.
#[tactic(auto, unfolding(crate::specs::Moment::day_of_date))]
fn parse_date(text: &[u8]) -> Option<u64>
    ensures value { result ≡ day_of_date (fields (byte "-") text.now) }
    ensures bound { IfSome result (λ day. day ≤ 2_932_896) }
{
    match up_to_three(text, b'-') {
        UpToThree::Three(year, month, day) => day_after_epoch(
            parse_width(year, 4, 9999)?,
            parse_width(month, 2, 12)?,
            parse_width(day, 2, 31)?,
        ),
        _ => None,
    }
}

// The seconds of a time of day.
#[tactic(auto, unfolding(crate::specs::Moment::seconds_of_clock))]
fn parse_clock(text: &[u8]) -> Option<u64>
    ensures value { result ≡ seconds_of_clock (fields (byte ":") text.now) }
    ensures bound { IfSome result (λ seconds. seconds < 86_400) }
{
    match up_to_three(text, b':') {
        UpToThree::Two(hours, minutes) => {
            Some(3600 * parse_width(hours, 2, 23)? + 60 * parse_width(minutes, 2, 59)?)
        }
        UpToThree::Three(hours, minutes, seconds) => {
            let hours = parse_width(hours, 2, 23)?;
            Some(3600 * hours + 60 * parse_width(minutes, 2, 59)? + parse_width(seconds, 2, 59)?)
        }
        _ => None,
    }
}

// The number of a text of so many digits.
#[tactic(auto, unfolding(crate::specs::Moment::number_of_width))]
fn parse_width(text: &[u8], width: usize, greatest: u64) -> Option<u64>
    ensures value { result ≡ number_of_width width greatest text.now }
    ensures bound { IfSome result (λ n. n ≤ greatest) }
{
    if text.len() == width {
        parse_number(text, width, greatest)
    } else {
        None
    }
}
