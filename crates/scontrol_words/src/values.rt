//! Values of keys.

ghost use Rattle.std.specs.Prelude.{◌≡◌, nat_lt, length};
ghost use Rattle.scontrol_words.specs.Values.{node_order};

use request_data::request::NodeOrder;
use small_texts::keywords::is_keyword;

// A longer text isn't taken.
const LONGEST_TEXT: usize = 1024;

/// What becomes of a node, in any case of letters.
#[tactic(auto, unfolding(crate::specs::Values::node_order))]
pub(crate) fn read_node_order(text: &[u8]) -> Option<NodeOrder>
    ensures { result ≡ node_order text.now }
{
    if is_keyword(text, b"DOWN") {
        Some(NodeOrder::Down)
    } else if is_keyword(text, b"DRAIN") {
        Some(NodeOrder::Drain)
    } else if is_keyword(text, b"RESUME") {
        Some(NodeOrder::Resume)
    } else {
        None
    }
}

/// Whether a text that is kept nowhere is too long.
pub(crate) fn is_long(text: &[u8]) -> bool
    ensures { result ≡ nat_lt 1024 (length text.now) }
{
    text.len() > LONGEST_TEXT
}
