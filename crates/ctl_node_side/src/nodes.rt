//! What the nodes reported last.

ghost use Rattle.std.specs.Prelude.{◌≡◌};
ghost use Rattle.ctl_node_side.specs.Reporting.{heard_of, is_after, heard_nodes};

use node_state::nodes::Nodes;
use node_state::record::NodeChange;
use request_data::report::{Heard, Report};

/// The last accepted report of the node at a place.
pub(crate) fn heard_of(nodes: &Nodes, place: u32) -> Option<Heard>
    ensures { result ≡ heard_of nodes.now.records place }
{
    nodes.at(place)?.heard
}

/// Whether the report comes after that one.
pub(crate) fn is_after(heard: &Heard, report: &Report) -> bool
    ensures { result ≡ is_after heard.now report.now }
{
    heard.boot < report.boot || heard.boot == report.boot && heard.number < report.number
}

/// Notes the report at its node, if there is one at the place, in constant time.
#[tactic(auto, using(crate::proofs::Heard::heard_past))]
pub(crate) fn hear(nodes: &mut Nodes, now: u64, place: u32, report: &Report)
    ensures heard { nodes.new.records ≡ heard_nodes now place report.now nodes.old.records }
    ensures held { nodes.new.held ≡ nodes.old.held }
{
    if place >= nodes.len() {
        return;
    }
    let heard = Heard {
        boot: report.boot,
        number: report.number,
        moment: now,
    };
    let empty = report.running.as_slice().is_empty();
    nodes.set_state(place, NodeChange::Heard { heard, empty });
}
