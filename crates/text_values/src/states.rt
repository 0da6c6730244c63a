//! States of partitions.

ghost use Rattle.std.specs.Prelude.{◌≡◌};
ghost use Rattle.text_values.specs.States.{part_state};

use plain_data::conf::PartState;
use small_texts::keywords::is_keyword;

/// The state of a partition, in any case of letters.
#[tactic(auto, unfolding(crate::specs::States::part_state))]
pub fn read_part_state(text: &[u8]) -> Option<PartState>
    ensures { result ≡ part_state text.now }
{
    if is_keyword(text, b"UP") {
        Some(PartState::Up)
    } else if is_keyword(text, b"DOWN") {
        Some(PartState::Down)
    } else if is_keyword(text, b"DRAIN") {
        Some(PartState::Drain)
    } else if is_keyword(text, b"INACTIVE") {
        Some(PartState::Inactive)
    } else {
        None
    }
}
