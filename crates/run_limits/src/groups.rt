//! Which jobs are of a group.

ghost use Rattle.std.specs.Prelude.{◌≡◌, nat_eq};
ghost use Rattle.std.specs.List.{list_any};
ghost use Rattle.run_limits.specs.Accounts;
ghost use Rattle.run_limits.specs.Counting;

use crate::account_laws::numbers_tell_users_apart;
use crate::assocs::Assocs;
use crate::counted::{Counted, Group};

// Whether the associations at two places are of one user.
fn are_of_one_user(assocs: &Assocs, one: u32, other: u32) -> bool
    ensures { result ≡ Accounts.are_of_one_user assocs.now.records one other }
{
    numbers_tell_users_apart();
    match (assocs.user_number(one), assocs.user_number(other)) {
        (Some(one), Some(other)) => one == other,
        _ => false,
    }
}

fn has(places: &[u32], place: u32) -> bool
    ensures { result ≡ list_any (nat_eq place) places.now }
{
    places.iter().any(|other| place == *other)
}

// Whether the association at a place is on the way up from another.
fn is_above(assocs: &Assocs, place: u32, assoc: u32) -> bool
    ensures { result ≡ list_any (nat_eq place) (Accounts.above assocs.now.records assoc) }
{
    let places = assocs.above(assoc);
    has(places.as_slice(), place)
}

/// Whether the job is of the group. Linear in its way up to root where the group is an association's.
#[tactic(auto, unfolding(crate::specs::Counting::is_in))]
pub fn is_in(assocs: &Assocs, group: Group, job: &Counted) -> bool
    ensures { result ≡ Counting.is_in assocs.now.records group job.now }
{
    match group {
        Group::Array(array) => job.array.is_some_and(|other| other == array),
        Group::Below(place) => is_above(assocs, place, job.assoc),
        Group::InQos(qos) => job.qos == qos,
        Group::OfUser { assoc, qos } => job.qos == qos && are_of_one_user(assocs, assoc, job.assoc),
    }
}
