//! What is kept in mind of the nodes as long as each job of the new list is the one at its place in the old list.

ghost use Rattle.std.specs.Prelude.{◌≡◌, length, option_copied};
ghost use Rattle.plan_keeper.specs.Kept.{AreOnNodes, GoesOn, Lowers};

use crate::node_seconds::NodeSeconds;
use crate::same_placed::is_same_placement;
use backfill_planner::Placed;

/// How much of the nodes is free now, against how much was when the old plan had come as far.
#[derive(Drop)]
pub struct Kept {
    /// As much of the node is free from now on and before this second.
    pub same: NodeSeconds,
    /// And no more before this one.
    pub no_freer: NodeSeconds,
}

// Of each node of the placement, if there is one, it is its start or an earlier second then.
fn lower_by(seconds: &mut NodeSeconds, placed: Option<&Placed>)
    requires { AreOnNodes (length seconds.old.seconds.items) (option_copied placed) }
    ensures { Lowers seconds.old.seconds.items (option_copied placed.entry) seconds.new.seconds.items }
{
    if let Some(placed) = placed {
        seconds.lower(placed);
    }
}

impl Kept {
    /// One job more is planned. Linear in the parts of both placements: only where they differ anything changes, and
    /// that on their nodes alone and from their starts on.
    pub fn go_on(&mut self, before: Option<&Placed>, after: &Option<Placed>)
        requires before { AreOnNodes (length self.old.same.seconds.items) (option_copied before) }
        requires after { AreOnNodes (length self.old.same.seconds.items) after.now }
        requires long { length self.old.no_freer.seconds.items ≡ length self.old.same.seconds.items }
        ensures { GoesOn self.old.same.seconds.items self.old.no_freer.seconds.items
            (option_copied before.entry) after.now
            self.new.same.seconds.items self.new.no_freer.seconds.items }
    {
        if is_same_placement(before, after) {
            return;
        }
        lower_by(&mut self.same, before);
        lower_by(&mut self.same, after.as_ref());
        lower_by(&mut self.no_freer, before);
    }

    /// A job is planned that the old list has not. Linear in its parts: from its start on less may be free on their nodes.
    pub fn place_new(&mut self, after: &Option<Placed>)
        requires { AreOnNodes (length self.old.same.seconds.items) after.now }
        ensures same { Lowers self.old.same.seconds.items after.now self.new.same.seconds.items }
        ensures no_freer { self.new.no_freer.seconds.items ≡ self.old.no_freer.seconds.items }
    {
        if let Some(placed) = after {
            self.same.lower(placed);
        }
    }
}
