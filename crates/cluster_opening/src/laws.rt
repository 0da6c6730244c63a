//! A law on what files open.

ghost use Rattle.std.specs.Prelude.{◌≡◌, List, Some, Result};
ghost use Rattle.ctl_state.specs.State.{State};
ghost use Rattle.plain_data.specs.Files.{Named};
ghost use Rattle.slurm_io.specs.Shelf.{ShelfFile};
ghost use Rattle.cluster_opening.specs.Files.{Opens};
ghost use Rattle.cluster_opening.specs.declared.refusal.ClusterRefusal.{ClusterRefusal as OneRefusal};

use state_save::saved_texts_are_apart;

/// Files open one cluster, or are refused for one cause (own).
pub fn files_open_one_cluster()
    ensures { (files : List ShelfFile) (named : Named) (one other : Result State OneRefusal)
        → Opens (Some files) named one → Opens (Some files) named other → one ≡ other }
{
    saved_texts_are_apart();
}
