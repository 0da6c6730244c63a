//! Reservations that are asked for.

ghost use Rattle.std.specs.Prelude.{◌≡◌, IfOk};

use plain_data::Plain;
use plain_data::items::Items;
use plain_data::seconds::{Moment, ReservationEnd};
use small_texts::memory_error::Memory;
use small_texts::name::Name;

/// Nodes that are kept for some users and accounts for a time. "RESERVATIONS" in scontrol(1).
#[derive(PartialEq, Debug, Drop)]
pub struct ReservationDesc {
    pub name: Name,
    /// The second at which it begins.
    pub start: Moment,
    /// The second at which it is over; a duration may lead past the last moment that can be written.
    pub end: ReservationEnd,
    pub nodes: Items<Name>,
    /// Who may use it.
    pub users: Items<Name>,
    /// Whose users may use it.
    pub accounts: Items<Name>,
}

impl ReservationDesc {
    /// An equal description.
    pub fn copy(&self) -> Result<ReservationDesc, Memory>
        ensures { IfOk result (λ desc. desc ≡ self.now) }
    {
        Ok(ReservationDesc {
            name: self.name.copy()?,
            start: self.start,
            end: self.end,
            nodes: self.nodes.copy()?,
            users: self.users.copy()?,
            accounts: self.accounts.copy()?,
        })
    }
}

impl Plain for ReservationDesc {
    fn copy(&self) -> Result<ReservationDesc, Memory> {
        self.copy()
    }
}
