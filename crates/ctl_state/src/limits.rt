//! Limits of jobs, compared.

ghost use Rattle.std.specs.Prelude.{◌≡◌};
ghost use Rattle.ctl_state.specs.Limits;

use plain_data::limit::Limit;

/// Whether the limit is above the longest one.
pub fn exceeds(limit: &Limit, longest: &Limit) -> bool
    ensures { result ≡ Limits.exceeds limit.now longest.now }
{
    match longest {
        Limit::Minutes(longest) => match limit {
            Limit::Minutes(minutes) => minutes.get() > longest.get(),
            Limit::Unlimited => true,
        },
        Limit::Unlimited => false,
    }
}
