//! Limits of time, and moments.

ghost use Rattle.std.specs.Prelude.{◌≡◌};
ghost use Rattle.plain_data.specs.Limits.{limit_of};
ghost use Rattle.small_texts.specs.Moment.{moment_of};

use plain_data::limit::Limit;
use plain_data::parse_limit;
use plain_data::ranged::LongRanged;
use plain_data::seconds::Moment;
use small_texts::moment::parse_moment;

/// A limit of time.
pub fn read_limit(text: &[u8]) -> Option<Limit>
    ensures { result ≡ limit_of text.now }
{
    match parse_limit(text) {
        Ok(limit) => Some(limit),
        Err(_) => None,
    }
}

/// A moment, read at the moment `now`.
pub fn read_moment(text: &[u8], now: u64) -> Option<Moment>
    ensures { result ≡ moment_of text.now now }
{
    match parse_moment(text, now) {
        Ok(moment) => Some(LongRanged::new(moment)),
        Err(_) => None,
    }
}
