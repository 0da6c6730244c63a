//! Starts that orders name.

ghost use Rattle.std.specs.Prelude.{◌≡◌};
ghost use Rattle.node_daemon.specs.Daemon.{is_among};

use reply_data::orders::Starts;
use request_data::report::Start;

/// Whether the start is among these. Logarithmic in them.
pub(crate) fn is_among(starts: &Starts, start: &Start) -> bool
    ensures { result ≡ is_among starts.now start.now }
{
    starts
        .as_slice()
        .binary_search_by_key(&(start.id, start.number), |one| (one.id, one.number))
        .is_ok()
}
