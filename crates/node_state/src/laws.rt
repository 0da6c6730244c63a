//! What stays true of the nodes, whatever happens to one. A law is the contract of a function that does nothing.

ghost use Rattle.node_state.specs.Laws;

/// A change of a node leaves what slurm.conf(5) says of each node, and so their names and places.
pub fn a_change_leaves_the_confs()
    ensures confs { Laws.ConfsStay }
    ensures places { Laws.PlacesStay }
    ensures named { Laws.NamesStay }
{}

/// A report of a node sets no node down.
pub fn a_report_sets_no_node_down()
    ensures { Laws.ReportsSetNoneDown }
{}

/// The name of a node leads to its place, and no other name does.
pub fn names_lead_to_places()
    ensures there { Laws.NamesLeadToPlaces }
    ensures named { Laws.PlacesAreNamed }
{}
