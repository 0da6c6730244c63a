//! Numbers that stop at the greatest of 64 bits, and shares.

ghost use Rattle.std.specs.Prelude.{◌≡◌};
ghost use Rattle.replay_report.specs.Numbers.{thousandths};

/// A part of a whole in thousandths, rounded down; 0 of nothing.
pub fn thousandths(part: u64, whole: u64) -> u64
    ensures { result ≡ thousandths part whole }
{
    if whole == 0 {
        0
    } else {
        part.saturating_mul(1000) / whole
    }
}
