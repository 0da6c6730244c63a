//! Users' associations by their names, and what is saved of what they have used.

ghost use Rattle.std.specs.Prelude.{◌≡◌, ◌<◌, ℕ, List, if◌then◌else◌, IfOk, IfSome, OnOk, Some, None, bytes_eq, length, position};
ghost use Rattle.std.specs.HashMap.{get};
ghost use Rattle.std.specs.Option.{option_or};
ghost use Rattle.run_limits.specs.Accounts as spec;
ghost use Rattle.ctl_restore.specs.Steps.{LeadsToUsers};

use run_limits::assocs::Assocs;
use run_limits::record::AssocRecord;
use small_texts::memory_error::Memory;
use small_texts::name::Name;
use std::alloc::Global;
use std::collections::HashMap;

/// The place that a name leads to, in constant time.
pub fn place_of(places: &HashMap<Name, usize>, name: &Name) -> Option<usize>
    ensures { result ≡ get bytes_eq places.now name.now }
{
    places.get(name).copied()
}

// Notes the place of an association, where it is the first of its user.
fn note_user(
    places: &mut HashMap<Name, usize>,
    place: usize,
    assoc: &AssocRecord,
) -> Result<(), Memory>
    ensures { OnOk result ((name : List ℕ) → get bytes_eq places.new name
        ≡ option_or (get bytes_eq places.old name) (if spec.is_of_user name assoc.now then Some place else None)) }
{
    if assoc.conf.user && !places.contains_key(&assoc.conf.name) {
        places.insert(assoc.conf.name.copy()?, place)?;
    }
    Ok(())
}

/// The place of the first association of each user. Linear in the associations.
pub fn places_of_users(
    alloc: Global,
    assocs: &[AssocRecord],
) -> Result<HashMap<Name, usize>, Memory>
    ensures { IfOk result (LeadsToUsers assocs.now) }
{
    let mut places = HashMap::with_capacity(alloc, assocs.len())?;
    for (place, assoc) in assocs.iter().enumerate() {
        note_user(&mut places, place, assoc)?;
    }
    Ok(places)
}

// Whether the association is the user's, of this account.
fn is_users_in(assocs: &Assocs, user: &Name, account: &Name, assoc: &AssocRecord) -> bool
    ensures { result ≡ spec.is_users_in assocs.now.records user.now account.now assoc.now }
{
    assoc.conf.user && assoc.conf.name.is(user) && assocs.account(assoc) == account.as_bytes()
}

// The first of some associations that is the user's, of this account.
fn first_in(assocs: &Assocs, some: &[AssocRecord], user: &Name, account: &Name) -> Option<usize>
    ensures { result ≡ position (spec.is_users_in assocs.now.records user.now account.now) some.now }
{
    some.iter()
        .position(|assoc| is_users_in(assocs, user, account, assoc))
}

/// The place of the user's association of this account. In constant time for a user of one account, and else linear in
/// the associations from his first one on.
pub fn place_in(
    assocs: &Assocs,
    places: &HashMap<Name, usize>,
    user: &Name,
    account: &Name,
) -> Option<u32>
    requires { LeadsToUsers assocs.now.records places.now }
    ensures place { result ≡ spec.place_in assocs.now.records user.now account.now }
    ensures there { IfSome result (λ place. place < length assocs.now.records) }
{
    let first = place_of(places, user)?;
    let past = first_in(assocs, &assocs.records()[first..], user, account)?;
    Some((first + past) as u32)
}
