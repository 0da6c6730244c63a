//! A controller restored of what was saved of one.

ghost use Rattle.std.specs.Prelude.{◌≡◌, IfOk, IsErrOf, None};
ghost use Rattle.ctl_restore.specs.Fits.{Fits, IsRestored};

use crate::refusal::RestoreRefusal;
use crate::restoring::restored_cluster;
use ctl_core::controller::Ctl;
use plain_data::assoc::AssocFile;
use plain_data::conf::Conf;
use saved_data::saved::Saved;
use std::alloc::Global;

/// The controller that is restored of what was saved of one, over the two files (own). It keeps no plan for the next pass.
/// Linear in what is saved and in the files; for each job in the partitions and the qualities of service, for each part
/// of a job in the processors of its node, logarithmic in the arrays, and quadratic in the reservations.
pub fn restore(
    alloc: Global,
    conf: Conf,
    assocs: AssocFile,
    saved: &Saved,
) -> Result<Ctl, RestoreRefusal>
    ensures restored { IfOk result (λ ctl. IsRestored conf assocs saved.now ctl.state) }
    ensures kept { IfOk result (λ ctl. ctl.kept ≡ None) }
    ensures unfit { IsErrOf result RestoreRefusal.Unfit → Fits conf assocs saved.now → ⊥ }
{
    match restored_cluster(alloc, conf, assocs, saved) {
        Ok(cluster) => Ok(Ctl::over(alloc, cluster)),
        Err(refusal) => Err(refusal),
    }
}
