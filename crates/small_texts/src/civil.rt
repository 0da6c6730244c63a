//! Dates of the civil calendar, by `jiff`.

ghost use Rattle.std.specs.Prelude.{◌≡◌, ◌≤◌, IfSome};
ghost use Rattle.small_texts.specs.Civil.{day_number, date_after, IsDateAfter};

use jiff::civil::Date;
use jiff_core::civil;

/// A date of the civil calendar.
#[derive(Clone, Copy, Debug)]
pub(crate) struct CivilDate {
    pub(crate) year: u64,
    pub(crate) month: u64,
    pub(crate) day: u64,
}

/// How many days after 1970-01-01 the calendar has this day; None where it has no such day, or has it before.
#[tactic(auto, unfolding(crate::specs::Civil::day_number))]
pub(crate) fn day_after_epoch(year: u64, month: u64, day: u64) -> Option<u64>
    requires year { year ≤ 9999 }
    requires month { month ≤ 12 }
    requires day { day ≤ 31 }
    ensures value { result ≡ day_number year month day }
    ensures bound { IfSome result (λ n. n ≤ 2_932_896) }
{
    let Ok(date) = Date::new(year as i16, month as i8, day as i8) else {
        return None;
    };
    u64::try_from(date.to_plain().to_unix_epoch_day()).ok()
}

/// The date so many days after 1970-01-01.
pub(crate) fn date_after_epoch(days: u64) -> CivilDate
    requires { days ≤ 2_932_896 }
    ensures date { result ≡ date_after days }
    ensures civil { IsDateAfter days result }
{
    let date = civil::Date::from_unix_epoch_day(days as i64).unwrap();
    CivilDate {
        year: u64::from(date.year.unsigned_abs()),
        month: u64::from(date.month),
        day: u64::from(date.day),
    }
}
