//! How numbers are spread.

ghost use Rattle.std.specs.Prelude.{◌≡◌, ◌<◌, ◌≤◌, ◌-◌, Some, length, slice_get, sum};
ghost use Rattle.replay_report.specs.Numbers.{IsSpreadOf, mean_of, rank_of, stopped};

/// How numbers are spread: their mean, rounded down, and the numbers at two ranks (own). A percentile is the number whose
/// rank among all, the least first, is that part of their count, rounded up.
#[derive(Clone, Copy, Debug, PartialEq, Eq)]
pub struct Spread {
    pub mean: u64,
    pub median: u64,
    /// The 95th percentile.
    pub high: u64,
}

// The sum, which stops at the greatest number of 64 bits.
fn total(numbers: &[u64]) -> u64
    ensures { result ≡ stopped (sum numbers.now) }
{
    let mut total: u64 = 0;
    for number in numbers {
        total = total.saturating_add(*number);
    }
    total
}

fn mean_of(numbers: &[u64]) -> u64
    requires { 0 < length numbers.now }
    ensures { result ≡ mean_of numbers.now }
{
    total(numbers) / numbers.len() as u64
}

fn median_rank(count: usize) -> usize
    ensures value { result ≡ rank_of 50 count }
    ensures within { result ≤ count }
    ensures counted { 0 < count → 0 < result }
{
    count / 2 + count % 2
}

fn high_rank(count: usize) -> usize
    ensures value { result ≡ rank_of 95 count }
    ensures within { result ≤ count }
    ensures counted { 0 < count → 0 < result }
{
    count / 100 * 95 + (count % 100 * 95 + 99) / 100
}

// The number of a rank.
fn at_rank(ordered: &[u64], rank: usize) -> u64
    requires counted { 0 < rank }
    requires within { rank ≤ length ordered.now }
    ensures { slice_get ordered.now (rank - 1) ≡ Some result }
{
    ordered[rank - 1]
}

/// How numbers are spread, where there are any. It sorts them.
pub(crate) fn spread_of(numbers: Vec<u64>) -> Option<Spread>
    ensures { IsSpreadOf numbers.items result }
{
    let mut ordered = numbers;
    let count = ordered.len();
    if count == 0 {
        return None;
    }
    let mean = mean_of(ordered.as_slice());
    ordered.sort_unstable();
    let median = at_rank(ordered.as_slice(), median_rank(count));
    let high = at_rank(ordered.as_slice(), high_rank(count));
    Some(Spread { mean, median, high })
}
