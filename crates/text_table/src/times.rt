// Time limits, lengths of time, fractions and shares.
ghost use Rattle.std.specs.Prelude.{◌<◌, ◌^◌, IfOk};

use plain_data::limit::Limit;
use plain_data::seconds::FOREVER;
use plain_data::{Ratio, parse_limit, print_elapsed};
use std::alloc::Global;
use std::cmp::Ordering;
use table_lines::answer::{Unanswered, refused, taken};
use table_lines::fields::{narrow_number, number};

/// A limit in minutes.
pub fn limit(alloc: Global, arguments: &[&[u8]]) -> Result<Vec<u8>, Unanswered> {
    let [text] = *arguments else {
        return Err(Unanswered::Arguments);
    };
    match &parse_limit(text) {
        Ok(Limit::Unlimited) => taken(alloc, &"unlimited"),
        Ok(Limit::Minutes(minutes)) => taken(alloc, &minutes.get()),
        Err(refusal) => refused(alloc, refusal),
    }
}

/// A length of time, as squeue prints it.
pub fn elapsed(alloc: Global, arguments: &[&[u8]]) -> Result<Vec<u8>, Unanswered> {
    let [seconds] = *arguments else {
        return Err(Unanswered::Arguments);
    };
    let seconds = number(seconds)?;
    if seconds > FOREVER {
        return Err(Unanswered::Arguments);
    }
    let mut out = [0; 32];
    let end = print_elapsed(seconds, &mut out);
    Ok(Vec::from_slice(alloc, out.split_at(end).0)?)
}

// A fraction whose sides are within the limits that fractions are compared in.
fn ratio(num: &[u8], den: &[u8]) -> Result<Ratio, Unanswered>
    ensures { IfOk result (λ ratio. (ratio.num < 2 ^ 60) × (0 < ratio.den) × (ratio.den < 2 ^ 68)) }
{
    let num = number(num)?;
    let den = number(den)?;
    if num >= 1 << 60 || den == 0 {
        return Err(Unanswered::Arguments);
    }
    Ok(Ratio {
        num: u128::from(num),
        den: u128::from(den),
    })
}

/// The order of two fractions.
pub fn compare(alloc: Global, arguments: &[&[u8]]) -> Result<Vec<u8>, Unanswered> {
    let [num, den, other_num, other_den] = *arguments else {
        return Err(Unanswered::Arguments);
    };
    let one = ratio(num, den)?;
    let other = ratio(other_num, other_den)?;
    match plain_data::compare(&one, &other) {
        Ordering::Less => taken(alloc, &"less"),
        Ordering::Equal => taken(alloc, &"equal"),
        Ordering::Greater => taken(alloc, &"greater"),
    }
}

/// The share of a weight.
pub fn scaled(alloc: Global, arguments: &[&[u8]]) -> Result<Vec<u8>, Unanswered> {
    let [weight, num, den] = *arguments else {
        return Err(Unanswered::Arguments);
    };
    let num = number(num)?;
    let den = number(den)?;
    let weight = narrow_number(weight)?;
    if num > den {
        return Err(Unanswered::Arguments);
    }
    taken(alloc, &plain_data::scaled(weight, num, den))
}
