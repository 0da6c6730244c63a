//! Moments as lines name them.

ghost use Rattle.std.specs.Prelude.{◌≡◌, ◌≤◌, IfOk, IfSome};
ghost use Rattle.session_text.specs.Moments.{moment_named, spelled_out};

use small_texts::digits::parse_number;
use small_texts::memory_error::Memory;
use small_texts::moment::parse_moment;
use std::alloc::Global;

// The text, with `now` in front of a plus.
fn spelled_out(alloc: Global, text: &[u8]) -> Result<Vec<u8>, Memory>
    ensures { IfOk result (λ long. long.items ≡ spelled_out text.now) }
{
    let mut long = Vec::new(alloc);
    if text.starts_with(b"+") {
        long.extend_from_slice(b"now")?;
    }
    long.extend_from_slice(text)?;
    Ok(long)
}

/// The moment that a text names at the moment `now`, both in seconds since 1970: up to twelve digits, or what `--begin`
/// of sbatch(1) takes, where `+30` stands for `now+30`. It is 250,000,000,000 at most.
#[tactic(auto, unfolding(crate::specs::Moments::moment_named))]
pub(crate) fn moment_named(alloc: Global, now: u64, text: &[u8]) -> Result<Option<u64>, Memory>
    ensures value { IfOk result (λ moment. moment ≡ moment_named now text.now) }
    ensures bound { IfOk result (λ moment. IfSome moment (λ m. m ≤ 250_000_000_000)) }
{
    if let Some(seconds) = parse_number(text, 12, 250_000_000_000) {
        return Ok(Some(seconds));
    }
    let long = spelled_out(alloc, text)?;
    match parse_moment(long.as_slice(), now) {
        Ok(moment) => Ok(Some(moment)),
        Err(_) => Ok(None),
    }
}
