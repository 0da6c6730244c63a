//! Windows of time.

ghost use Rattle.std.specs.Prelude.{◌≡◌};
ghost use Rattle.sacct_book.specs.Windows as spec;

/// The seconds from one on and before another (own).
#[derive(Clone, Copy)]
pub struct Window {
    pub from: u64,
    pub until: u64,
}

/// How many of the seconds from a moment on and before another are in the window.
pub(crate) fn seconds_in(window: Window, from: u64, until: u64) -> u64
    ensures { result ≡ spec.seconds_in window from until }
{
    until
        .min(window.until)
        .saturating_sub(from.max(window.from))
}
