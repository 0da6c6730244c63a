ghost use Rattle.std.specs.Prelude.{◌≡◌, IfOk};

use plain_data::items::Items;
use resource_profile::{Hold, NodeRoom};
use small_texts::memory_error::Memory;
use std::alloc::Global;
use std::marker::Model;

/// What a plan begins with: the nodes' rooms, what the running jobs hold of them, and the last second at which a start
/// is tried. Its holds are on nodes that there are, begin before they end, and are at no second more than the room.
#[derive(Drop)]
pub struct Base {
    pub rooms: Items<NodeRoom>,
    pub holds: Items<Hold>,
    /// In seconds since 1970, at most 250,002,592,000.
    pub horizon: u64,
}

impl Model for Base {
    ghost use Rattle.std.specs.Prelude.{◌≤◌};
    ghost use Rattle.plain_data.specs.declared.seconds.TheConstants.{LAST_START};
    ghost use Rattle.resource_profile.specs.Profiles.{AreWithin};
    ghost use Rattle.backfill_planner.specs.Bases.{BaseView};

    ghost Value = { BaseView };

    ghost view = { λ base. record { rooms = base.rooms; holds = base.holds; horizon = base.horizon } };

    ghost invariant = { λ base. AreWithin base.rooms base.holds × (base.horizon ≤ LAST_START) };
}

impl Base {
    /// An equal base. Linear in its rooms and holds.
    pub fn copy(&self, alloc: Global) -> Result<Base, Memory>
        ensures { IfOk result (λ base. base ≡ self.now) }
    {
        Ok(Base {
            rooms: Items::from_vec(Vec::from_slice(alloc, self.rooms.as_slice())?),
            holds: Items::from_vec(Vec::from_slice(alloc, self.holds.as_slice())?),
            horizon: self.horizon,
        })
    }
}
