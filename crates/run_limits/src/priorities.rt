//! Slurm's multifactor priority: the priority of a job as the sum of its terms, and the ranks of users by Fair Tree that one
//! of these terms rests on.

ghost use Rattle.std.specs.Prelude.{◌≡◌, ◌<◌, ◌^◌, map, sum};
ghost use Rattle.run_limits.specs.Priority.{terms_of, priority_of, value_of};

use crate::terms::{PriorityInput, Term};
use plain_data::nice::Nice;
use plain_data::scaled;
use reply_data::priority::PriorityParts;

// The least and the greatest priority of a job.
pub(crate) const LEAST: u64 = 1;

pub(crate) const GREATEST: u64 = 4_294_967_295;

/// The priority: each weight's part by its factor, rounded down, their sum, less nice, and never below 1 or above
/// 4,294,967,295.
pub fn priority(input: &PriorityInput) -> PriorityParts
    ensures terms { terms_of result ≡ map value_of input.now.terms }
    ensures nice { result.nice ≡ input.now.nice }
    ensures sum { result.sum ≡ priority_of (sum (terms_of result)) input.now.nice }
{
    let [age, fair_share, job_size, partition, qos] = input.terms;
    let [age, fair_share, job_size, partition, qos] = [
        value(&age),
        value(&fair_share),
        value(&job_size),
        value(&partition),
        value(&qos),
    ];
    PriorityParts {
        age,
        fair_share,
        job_size,
        partition,
        qos,
        nice: input.nice,
        sum: clipped(age + fair_share + job_size + partition + qos, input.nice),
    }
}

// What a term adds to the priority.
pub(crate) fn value(term: &Term) -> u64
    ensures value { result ≡ value_of term.now }
    ensures small { result < 2 ^ 32 }
{
    scaled(term.weight, term.num, term.den)
}

// The priority of so large a sum of terms.
pub(crate) fn clipped(sum: u64, nice: Nice) -> u32
    requires { sum < 2 ^ 35 }
    ensures { result ≡ priority_of sum nice }
{
    let raised = match nice {
        Nice::Lower(by) => sum.saturating_sub(by.get()),
        Nice::Raise(by) => sum + by.get(),
    };
    raised.max(LEAST).min(GREATEST) as u32
}
