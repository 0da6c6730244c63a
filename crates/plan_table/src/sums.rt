use backfill_planner::{Placed, Share};

// A sum that depends on each number of the plan and on their order.
pub(crate) fn sum_of(placements: &[Placed]) -> u64 {
    let mut sum = 0;
    for placed in placements {
        sum = with(sum, u64::from(placed.id));
        sum = with(sum, placed.start);
        sum = with_shares(sum, placed.parts.as_slice());
    }
    sum
}

fn with_shares(before: u64, shares: &[Share]) -> u64 {
    let mut sum = before;
    for share in shares {
        sum = with(sum, u64::from(share.node));
        sum = with(sum, u64::from(share.tasks));
        sum = with(sum, u64::from(share.cpus));
        sum = with(sum, share.mem);
    }
    sum
}

fn with(sum: u64, number: u64) -> u64 {
    sum.wrapping_mul(1099511628211).wrapping_add(number)
}
