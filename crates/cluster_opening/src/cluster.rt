//! The cluster of the two files, before any request.

ghost use Rattle.std.specs.Prelude.{◌≡◌, ℕ, [], IfOk, IsErrOf, Ok, Err};
ghost use Rattle.ctl_state.specs.State.{State};
ghost use Rattle.ctl_state.specs.Soundness.{IsSound};
ghost use Rattle.cluster_opening.specs.Cluster.{cluster_in, opening_in};
ghost use Rattle.cluster_opening.specs.declared.refusal.BadFile.{BadFile};

use crate::refusal::ClusterRefusal;
use assoc_reader::read_assocs;
use conf_reader::read_conf;
use ctl_core::controller::Ctl;
use ctl_desk::book::Book;
use ctl_desk::own_desk::{OwnDesk, own_desk};
use plain_data::assoc::AssocFile;
use plain_data::conf::Conf;
use std::alloc::Global;

/// What a file slurm.conf(5) and an association file say.
#[tactic(auto, unfolding(crate::specs::Cluster::cluster_in))]
pub(crate) fn read_both(
    alloc: Global,
    conf: &[u8],
    assocs: &[u8],
) -> Result<(Conf, AssocFile), ClusterRefusal>
    ensures says { IfOk result (λ both. cluster_in conf.now assocs.now ≡ Ok (both.0, both.1)) }
    ensures bad { (bad : BadFile) → IsErrOf result (ClusterRefusal.Bad bad)
        → cluster_in conf.now assocs.now ≡ Err (ClusterRefusal.Bad bad) }
    ensures no_state { (line : ℕ) → IsErrOf result (ClusterRefusal.Bad (BadFile.State line)) → ⊥ }
{
    let conf = read_conf(alloc, conf)?;
    let assocs = read_assocs(alloc, assocs)?;
    Ok((conf, assocs))
}

// The controller of the cluster of a file slurm.conf(5) and an association file, before any request.
#[tactic(auto, unfolding(crate::specs::Cluster::opening_in))]
fn new_controller(alloc: Global, conf: &[u8], assocs: &[u8]) -> Result<Ctl, ClusterRefusal>
    ensures opening { IfOk result (λ ctl. opening_in conf.now assocs.now ≡ Ok ctl.state) }
    ensures sound { IfOk result (λ ctl. IsSound ctl.state) }
    ensures bad { (bad : BadFile) → IsErrOf result (ClusterRefusal.Bad bad)
        → opening_in conf.now assocs.now ≡ Err (ClusterRefusal.Bad bad) }
    ensures no_state { (line : ℕ) → IsErrOf result (ClusterRefusal.Bad (BadFile.State line)) → ⊥ }
{
    let (conf, assocs) = read_both(alloc, conf, assocs)?;
    let ctl = Ctl::new(alloc, conf, assocs)?;
    Ok(ctl)
}

/// A desk of its own at the controller of the cluster of a file slurm.conf(5) and an association file, sacctmgr(1),
/// before any request. The book keeps its opening as a second controller, so the files are read twice.
pub fn open_desk(alloc: Global, conf: &[u8], assocs: &[u8]) -> Result<OwnDesk, ClusterRefusal>
    ensures fresh { IfOk result (λ desk. (s : State) × (opening_in conf.now assocs.now ≡ Ok s)
        × (desk ≡ record { opening = s; before = []; since = [] })) }
    ensures bad { (bad : BadFile) → IsErrOf result (ClusterRefusal.Bad bad)
        → opening_in conf.now assocs.now ≡ Err (ClusterRefusal.Bad bad) }
    ensures no_state { (line : ℕ) → IsErrOf result (ClusterRefusal.Bad (BadFile.State line)) → ⊥ }
{
    let ctl = new_controller(alloc, conf, assocs)?;
    match new_controller(alloc, conf, assocs) {
        Ok(opening) => Ok(own_desk(Book::new(alloc, ctl, opening))),
        Err(refusal) => {
            ctl.let_go();
            Err(refusal)
        }
    }
}
