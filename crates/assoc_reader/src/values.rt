//! The values of limits.

ghost use Rattle.std.specs.Prelude.{◌≡◌};
ghost use Rattle.assoc_reader.specs.Words.{limit_in, cpus_in};

use plain_data::ranged::LongRanged;
use small_texts::fields::{UpToThree, up_to_three};
use text_values::numbers::read_long_number;

/// A limit: a number of at most ten digits.
pub(crate) fn read_limit(text: &[u8]) -> Option<LongRanged<0, 9999999999>>
    ensures { result ≡ limit_in text.now }
{
    read_long_number(text)
}

/// The processors of `cpu=N`, the only trackable resource that a limit may have.
#[tactic(auto, unfolding(crate::specs::Words::cpus_of))]
pub(crate) fn read_cpus(text: &[u8]) -> Option<LongRanged<0, 9999999999>>
    ensures { result ≡ cpus_in text.now }
{
    match up_to_three(text, b'=') {
        UpToThree::Two(name, number) if name == b"cpu".as_slice() => read_limit(number),
        _ => None,
    }
}
