//! Starts in order, each once.

ghost use Rattle.std.specs.Prelude.{◌≡◌};
ghost use Rattle.ctl_node_side.specs.Ordering.{in_order};

use reply_data::orders::Starts;
use request_data::report::Start;

/// The starts by job and number. It takes no memory, and n log n steps.
pub(crate) fn in_order(starts: Vec<Start>) -> Starts
    ensures { result ≡ in_order starts.items }
{
    let mut ordered = starts;
    ordered.sort_unstable_by_key(|start| (start.id, start.number));
    ordered.dedup();
    Starts::from_vec(ordered)
}
