//! A desk at the cluster.

ghost use Rattle.std.specs.Prelude.{◌≡◌, [], Ok, IfOk};
ghost use Rattle.cluster_opening.specs.Cluster.{opening_in};
ghost use Rattle.ctl_state.specs.State.{State};
ghost use Rattle.cluster_opening.specs.SimulatedFiles.{simulated_conf, simulated_assocs};

use crate::simulated_files::{assocs, conf};
use crate::simulated_laws::simulated_files_are_good;
use crate::{ClusterRefusal, open_desk};
use ctl_desk::own_desk::OwnDesk;
use small_texts::memory_error::Memory;
use std::alloc::Global;

/// A desk of its own at the controller of the cluster, before any request. Its files are good: none of them is refused.
pub fn simulated_desk(alloc: Global) -> Result<OwnDesk, Memory>
    ensures { IfOk result (λ desk. (s : State) × (opening_in simulated_conf simulated_assocs ≡ Ok s)
        × (desk ≡ record { opening = s; before = []; since = [] })) }
{
    simulated_files_are_good();
    match open_desk(alloc, conf(), assocs()) {
        Ok(desk) => Ok(desk),
        Err(ClusterRefusal::Bad(_bad)) => unreachable!(),
        Err(ClusterRefusal::Memory) => Err(Memory),
    }
}
