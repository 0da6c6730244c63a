//! What the files of the cluster come to.

ghost use Rattle.std.specs.Prelude.{◌≡◌, Ok};
ghost use Rattle.cluster_opening.specs.Cluster.{opening_in};
ghost use Rattle.ctl_state.specs.State.{State};
ghost use Rattle.cluster_opening.specs.SimulatedFiles.{simulated_conf, simulated_assocs};

/// The files open a cluster.
#[tactic(none)]
pub fn simulated_files_are_good()
    ensures { (s : State) × (opening_in simulated_conf simulated_assocs ≡ Ok s) }
{}
