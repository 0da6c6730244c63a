//! Time limits: "Acceptable time formats" of sbatch(1).

ghost use Rattle.std.specs.Prelude.{◌≡◌, ◌<◌, ◌^◌, IfSome};
ghost use Rattle.std.specs.Result.{result_ok};
ghost use Rattle.std.specs.Str.{byte};
ghost use Rattle.plain_data.specs.Limits.{seconds_of_clock, seconds_of_day, seconds_of, limit_of};
ghost use Rattle.small_texts.specs.Fields.{fields};

use crate::limit::Limit;
use crate::ranged::Ranged;
use small_texts::digits::parse_number;
use small_texts::fields::{UpToThree, up_to_three};
use small_texts::keywords::is_keyword;
use std::error::Error;
use std::fmt;

/// The text is no time limit.
#[derive(Clone, Copy, PartialEq, Eq, Debug)]
pub struct BadTime;

impl fmt::Display for BadTime {
    ghost use Rattle.std.specs.Prelude.{Some, codes};

    ghost output = { λ _. Some (codes "bad time limit") };

    fn fmt<W: fmt::Write>(&self, f: &mut fmt::Formatter<W>) -> fmt::Result {
        f.write_str("bad time limit")
    }
}

impl Error for BadTime {}

const GREATEST: u64 = 52_560_000;

/// The limit of a text such as `90`, `1:30:00` or `2-12`, in whole minutes, at most 52,560,000: seconds round up. A
/// text of no minutes, `UNLIMITED` and `INFINITE` are no limit.
#[tactic(auto, unfolding(crate::specs::Limits::limit_of, crate::specs::Limits::limit_of_minutes))]
pub fn parse_limit(text: &[u8]) -> Result<Limit, BadTime>
    ensures { result_ok result ≡ limit_of text.now }
{
    if is_keyword(text, b"UNLIMITED") || is_keyword(text, b"INFINITE") {
        return Ok(Limit::Unlimited);
    }
    let minutes = parse_seconds(text).ok_or(BadTime)?.div_ceil(60);
    if minutes == 0 {
        Ok(Limit::Unlimited)
    } else if minutes <= GREATEST {
        Ok(Limit::Minutes(Ranged::new(minutes)))
    } else {
        Err(BadTime)
    }
}

// The seconds of a time.
#[tactic(auto, unfolding(crate::specs::Limits::seconds_of, crate::specs::Limits::seconds_of_parts))]
fn parse_seconds(text: &[u8]) -> Option<u64>
    ensures value { result ≡ seconds_of text.now }
    ensures small { IfSome result (λ seconds. seconds < 2 ^ 48) }
{
    match up_to_three(text, b'-') {
        UpToThree::One(time) => parse_clock(time),
        UpToThree::Two(days, time) => Some(
            86_400 * parse_number(days, 9, 999_999_999)? + parse_day(time)?,
        ),
        _ => None,
    }
}

// The seconds of a time without days.
#[tactic(auto, unfolding(crate::specs::Limits::seconds_of_clock))]
fn parse_clock(text: &[u8]) -> Option<u64>
    ensures value { result ≡ seconds_of_clock (fields (byte ":") text.now) }
    ensures small { IfSome result (λ seconds. seconds < 2 ^ 47) }
{
    match up_to_three(text, b':') {
        UpToThree::One(minutes) => Some(60 * parse_number(minutes, 9, 999_999_999)?),
        UpToThree::Two(minutes, seconds) => Some(
            60 * parse_number(minutes, 9, 999_999_999)? + parse_number(seconds, 2, 59)?,
        ),
        UpToThree::Three(hours, minutes, seconds) => {
            let hours = parse_number(hours, 9, 999_999_999)?;
            Some(3600 * hours + 60 * parse_number(minutes, 2, 59)? + parse_number(seconds, 2, 59)?)
        }
        UpToThree::More => None,
    }
}

// The seconds of what follows the days.
#[tactic(auto, unfolding(crate::specs::Limits::seconds_of_day))]
fn parse_day(text: &[u8]) -> Option<u64>
    ensures value { result ≡ seconds_of_day (fields (byte ":") text.now) }
    ensures small { IfSome result (λ seconds. seconds < 86_400) }
{
    match up_to_three(text, b':') {
        UpToThree::One(hours) => Some(3600 * parse_number(hours, 2, 23)?),
        UpToThree::Two(hours, minutes) => Some(
            3600 * parse_number(hours, 2, 23)? + 60 * parse_number(minutes, 2, 59)?,
        ),
        UpToThree::Three(hours, minutes, seconds) => {
            let hours = parse_number(hours, 2, 23)?;
            Some(3600 * hours + 60 * parse_number(minutes, 2, 59)? + parse_number(seconds, 2, 59)?)
        }
        UpToThree::More => None,
    }
}
