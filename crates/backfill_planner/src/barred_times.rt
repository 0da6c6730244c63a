// Which of a job's barred times cross a window, and when the next of them begins or is over.
ghost use Rattle.std.specs.Prelude.{◌≡◌, ◌≤◌, ◌<◌, true, find, option_map, All};
ghost use Rattle.plain_data.specs.Rows.{has_id};
ghost use Rattle.backfill_planner.specs.Giving;
ghost use Rattle.backfill_planner.specs.declared.job.Barred.{Barred as Time};
ghost use Rattle.backfill_planner.specs.declared.stretches.Stretch.{Stretch as Seconds};
ghost use Rattle.backfill_planner.specs.Stretches.{crosses};

use crate::barred_list::BarredList;
use crate::job::Barred;
use crate::stretches::Stretch;

// When the first of these that crosses the seconds from `from` on and before `until` is over; None where none does.
fn crossing_until(stretches: &[Stretch], from: u64, until: u64) -> Option<u64>
    ensures { result ≡ option_map (λ (stretch : Seconds). stretch.until) (find (crosses from until) stretches.now) }
{
    let stretch = stretches
        .iter()
        .find(|stretch| from < stretch.until && stretch.from < until)?;
    Some(stretch.until)
}

// Whether the node is barred at this time, and the time crosses the seconds from `from` on and before `until`.
fn bars(time: &Barred, node: u32, from: u64, until: u64) -> bool
    ensures { result ≡ Giving.bars node from until time.now }
{
    from < time.until && time.from < until && time.nodes.contains(node)
}

// When the first of the times that bar the node at some of these seconds is over; None where none does.
fn walked_until(times: &[Barred], node: u32, from: u64, until: u64) -> Option<u64>
    ensures { result ≡ option_map (λ (time : Time). time.until) (find (Giving.bars node from until) times.now) }
{
    let time = times.iter().find(|time| bars(time, node, from, until))?;
    Some(time.until)
}

// When one of the times that bar the node at some of these seconds is over; None where none does.
pub(crate) fn barred_until(barred: &BarredList, node: u32, from: u64, until: u64) -> Option<u64>
    ensures { result ≡ option_map (λ (time : Time). time.until) (find (Giving.bars node from until) barred.now) }
{
    match barred.of_node(node) {
        Some(stretches) => crossing_until(stretches, from, until),
        None => walked_until(barred.as_slice(), node, from, until),
    }
}

// The least second after `after` at which one of the times is over, or `last` where that is less.
pub(crate) fn next_end(barred: &[Barred], after: u64, last: u64) -> u64
    requires { after < last }
    ensures later { after < result }
    ensures within { result ≤ last }
    ensures least { All (λ (time : Time). after < time.until → result ≤ time.until) barred.now }
{
    let mut next = last;
    for time in barred {
        if after < time.until && time.until < next {
            next = time.until;
        }
    }
    next
}

// The least second, `end` or a later one, at which one of these begins, or `last` where that is less.
fn begin_from(stretches: &[Stretch], end: u64, last: u64) -> u64
    requires { end ≤ last }
    ensures later { end ≤ result }
    ensures within { result ≤ last }
    ensures least { All (λ (stretch : Seconds). end ≤ stretch.from → result ≤ stretch.from) stretches.now }
{
    let mut next = last;
    for stretch in stretches {
        if end <= stretch.from && stretch.from < next {
            next = stretch.from;
        }
    }
    next
}

// The least second, `end` or a later one, at which one of the times that have the node begins, or `last` where that is
// less.
fn walked_begin(times: &[Barred], node: u32, end: u64, last: u64) -> u64
    requires { end ≤ last }
    ensures later { end ≤ result }
    ensures within { result ≤ last }
    ensures least { All (λ (time : Time). has_id time.nodes node ≡ true → end ≤ time.from → result ≤ time.from)
        times.now }
{
    let mut next = last;
    for time in times {
        if end <= time.from && time.from < next && time.nodes.contains(node) {
            next = time.from;
        }
    }
    next
}

// The least second, `end` or a later one, at which one of the node's times begins, or `last` where that is less.
pub(crate) fn next_begin(barred: &BarredList, node: u32, end: u64, last: u64) -> u64
    requires { end ≤ last }
    ensures later { end ≤ result }
    ensures within { result ≤ last }
    ensures least { All (λ (time : Time). has_id time.nodes node ≡ true → end ≤ time.from → result ≤ time.from)
        barred.now }
{
    match barred.of_node(node) {
        Some(stretches) => begin_from(stretches, end, last),
        None => walked_begin(barred.as_slice(), node, end, last),
    }
}
