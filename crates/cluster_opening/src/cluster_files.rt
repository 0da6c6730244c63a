//! Good files of a cluster, and the controllers that they open.

ghost use Rattle.std.specs.Prelude.{◌≡◌, ℕ, [], IfOk, IsErrOf, None, Ok, Err};
ghost use Rattle.ctl_restore.specs.declared.refusal.RestoreRefusal.{RestoreRefusal as OneRefusal};
ghost use Rattle.ctl_state.specs.State.{State};
ghost use Rattle.cluster_opening.specs.Files.{fresh};
ghost use Rattle.cluster_opening.specs.Restoring.{IsBegun, OpensIn};

use crate::cluster::read_both;
use crate::refusal::ClusterRefusal;
use ctl_core::controller::Ctl;
use ctl_desk::book::Book;
use ctl_desk::own_desk::{OwnDesk, own_desk};
use ctl_restore::{RestoreRefusal, restore};
use plain_data::assoc::AssocFile;
use plain_data::conf::Conf;
use saved_data::saved::Saved;
use small_texts::memory_error::Memory;
use std::alloc::Global;

/// The files of a cluster, as they were read: good ones, where they come of `open_files`.
#[derive(Drop)]
pub struct ClusterFiles {
    /// The bytes of slurm.conf(5).
    pub conf: Vec<u8>,
    /// Those of the association file, sacctmgr(1).
    pub assocs: Vec<u8>,
    /// The saved state from which the cluster goes on.
    pub saved: Option<Saved>,
}

/// A controller of the cluster that the two files describe: before any request, or restored of what is saved.
pub(crate) fn begin(
    alloc: Global,
    conf: Conf,
    assocs: AssocFile,
    saved: &Option<Saved>,
) -> Result<Ctl, RestoreRefusal>
    ensures begun { IfOk result (λ ctl. IsBegun conf assocs saved.now ctl.state) }
    ensures unfit { IsErrOf result OneRefusal.Unfit → (s : State) → IsBegun conf assocs saved.now s → ⊥ }
{
    match saved {
        Some(saved) => restore(alloc, conf, assocs, saved),
        None => {
            let ctl = Ctl::new(alloc, conf, assocs)?;
            Ok(ctl)
        }
    }
}

/// A controller of the cluster of these files, before any request. Linear in the files.
pub fn controller(alloc: Global, files: &ClusterFiles) -> Result<Ctl, Memory>
    requires good { (s : State) × OpensIn files.now s }
    ensures { (s : State) → OpensIn files.now s → IfOk result (λ ctl. ctl.state ≡ s) }
{
    let (conf, assocs) = match read_both(alloc, files.conf.as_slice(), files.assocs.as_slice()) {
        Ok(both) => both,
        Err(ClusterRefusal::Memory) => return Err(Memory),
        Err(ClusterRefusal::Bad(_bad)) => unreachable!(),
    };
    match begin(alloc, conf, assocs, &files.saved) {
        Ok(ctl) => Ok(ctl),
        Err(RestoreRefusal::Memory) => Err(Memory),
        Err(RestoreRefusal::Unfit) => unreachable!(),
    }
}

/// A desk of its own at the cluster of these files, before any request. The book keeps its opening as a second
/// controller, so the files are read twice.
pub fn desk(alloc: Global, files: &ClusterFiles) -> Result<OwnDesk, Memory>
    requires good { (s : State) × OpensIn files.now s }
    ensures { (s : State) → OpensIn files.now s → IfOk result (λ desk. desk ≡ fresh s) }
{
    let ctl = controller(alloc, files)?;
    match controller(alloc, files) {
        Ok(opening) => Ok(own_desk(Book::new(alloc, ctl, opening))),
        Err(Memory) => {
            ctl.let_go();
            Err(Memory)
        }
    }
}
