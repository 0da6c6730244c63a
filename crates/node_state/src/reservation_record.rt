//! What is kept of a reservation, and tests of one.

ghost use Rattle.std.specs.Prelude.{◌≡◌};
ghost use Rattle.node_state.specs.Reservations;

use plain_data::NodePlaces;
use plain_data::items::Items;
use plain_data::seconds::Second;
use small_texts::name::Name;

/// Nodes that are kept for some users from one second to before another. "RESERVATIONS" in scontrol(1).
#[derive(Drop)]
pub struct Reservation {
    pub name: Name,
    /// The second at which it begins.
    pub start: Second,
    /// The second at which it is over. A duration, or a saved state, may lead past the last moment that can be handed in.
    pub end: Second,
    /// The places of its nodes in the list of nodes.
    pub nodes: NodePlaces,
    /// Its nodes again, in the order in which they were asked for.
    pub names: Items<Name>,
    /// Who may use it.
    pub users: Items<Name>,
    /// Whose users may use it.
    pub accounts: Items<Name>,
}

fn has(names: &Items<Name>, name: &Name) -> bool
    ensures { result ≡ Reservations.has names.now name.now }
{
    names.iter().any(|one| name.is(one))
}

/// Whether this user, whose jobs count for this account, may use the reservation: he is named, or the account is (own).
/// Linear in the names.
pub fn may_use(reservation: &Reservation, user: &Name, account: &Name) -> bool
    ensures { result ≡ Reservations.may_use user.now account.now reservation.now }
{
    has(&reservation.users, user) || has(&reservation.accounts, account)
}

/// Whether the reservation's time crosses the seconds from `from` on and before `until`.
pub fn crosses(reservation: &Reservation, from: u64, until: u64) -> bool
    ensures { result ≡ Reservations.crosses from until reservation.now }
{
    from < reservation.end.get() && reservation.start.get() < until
}
