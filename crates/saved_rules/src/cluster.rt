//! What types keep of what is saved beside the jobs.

ghost use Rattle.state_save.specs.Savable.{PartitionFits, NodeFits, DroppedFits, UsageFits, ReservationFits, ArrayFits, PlacedFits};

use crate::typed::Typed;
use node_state::record::DroppedNode;
use saved_data::parts::{
    SavedArray, SavedNode, SavedPartition, SavedPlaced, SavedReservation, SavedUsage,
};

impl Typed for SavedPartition {
    ghost typed = { PartitionFits };

    fn tell(&self) {
        self.name.tell();
    }
}

impl Typed for SavedNode {
    ghost typed = { NodeFits };

    fn tell(&self) {
        self.name.tell();
        self.heard.tell();
    }
}

impl Typed for DroppedNode {
    ghost typed = { DroppedFits };

    fn tell(&self) {
        self.name.tell();
        self.boot.tell();
        self.number.tell();
    }
}

impl Typed for SavedUsage {
    ghost typed = { UsageFits };

    fn tell(&self) {
        self.account.tell();
        self.user.tell();
        self.total.tell();
    }
}

impl Typed for SavedReservation {
    ghost typed = { ReservationFits };

    fn tell(&self) {
        self.name.tell();
        self.start.tell();
        self.end.tell();
        self.nodes.tell();
        self.users.tell();
        self.accounts.tell();
    }
}

impl Typed for SavedArray {
    ghost typed = { ArrayFits };

    fn tell(&self) {
        self.id.tell();
        self.indices.tell();
    }
}

impl Typed for SavedPlaced {
    ghost typed = { PlacedFits };

    fn tell(&self) {
        self.id.tell();
        self.start.tell();
        self.shares.tell();
    }
}
