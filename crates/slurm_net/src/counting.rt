// Counts of what failed.
ghost use Rattle.std.specs.Prelude.{◌≡◌};
ghost use Rattle.slurm_net.specs.Host.{CountsIf, count_if};

/// A count after something that failed, or didn't.
pub(crate) fn count_if(failed: bool, count: u64) -> u64
    ensures counted { CountsIf failed count result }
    ensures value { result ≡ count_if failed count }
{
    if failed {
        count.saturating_add(1)
    } else {
        count
    }
}
