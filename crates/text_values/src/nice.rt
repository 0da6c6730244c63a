//! Nice values.

ghost use Rattle.std.specs.Prelude.{◌≡◌};
ghost use Rattle.text_values.specs.Nice.{nice_in};

use plain_data::nice::Nice;
use plain_data::ranged::Ranged;
use small_texts::digits::parse_number;

/// A nice value from -2147483645 to 2147483645, in at most ten digits (own).
#[tactic(auto, unfolding(crate::specs::Nice::nice_in))]
pub fn read_nice(text: &[u8]) -> Option<Nice>
    ensures { result ≡ nice_in text.now }
{
    match text {
        [] => None,
        [b'-', digits @ ..] => match parse_number(digits, 10, 2_147_483_645)? {
            0 => Some(Nice::Lower(Ranged::new(0))),
            number => Some(Nice::Raise(Ranged::new(number))),
        },
        _ => Some(Nice::Lower(Ranged::new(parse_number(text, 10, 2_147_483_645)?))),
    }
}
