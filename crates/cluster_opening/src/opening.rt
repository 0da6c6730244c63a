//! The cluster of files of a shelf, opened.

ghost use Rattle.std.specs.Prelude.{◌≡◌};
ghost use Rattle.cluster_opening.specs.Files.{IsOpening, IsSeating};
ghost use Rattle.plain_data.specs.Files.{named_by};

use crate::cluster_files::{ClusterFiles, desk};
use crate::files::{Files, read_files};
use crate::judging::judge;
use crate::refusal::{BadFile, ClusterRefusal};
use ctl_desk::own_desk::OwnDesk;
use plain_data::files::FileNames;
use saved_data::saved::Saved;
use slurm_io::{Shelf, ShelfRefusal};
use small_texts::memory_error::Memory;
use std::alloc::Global;

/// Why no cluster was opened.
#[derive(Clone, Copy, Debug, PartialEq, Eq)]
pub enum OpenRefusal {
    /// A read of one of the files failed.
    NoFile,
    Bad(BadFile),
    Memory,
}

impl From<ClusterRefusal> for OpenRefusal {
    ghost use Rattle.std.specs.Prelude.{◌≡◌};
    ghost use Rattle.cluster_opening.specs.Files.{of_cluster};

    ghost from_gives = { λ refusal e. e ≡ of_cluster refusal };

    fn from(refusal: ClusterRefusal) -> OpenRefusal {
        match refusal {
            ClusterRefusal::Bad(bad) => OpenRefusal::Bad(bad),
            ClusterRefusal::Memory => OpenRefusal::Memory,
        }
    }
}

// The files of a cluster, of which the saved state was read.
fn with_state(files: Files, saved: Option<Saved>) -> ClusterFiles
    ensures { result ≡ record { conf = files.conf; assocs = files.assocs; saved = saved } }
{
    ClusterFiles {
        conf: files.conf,
        assocs: files.assocs,
        saved,
    }
}

// Lets go of the files of a cluster.
fn let_go(_files: ClusterFiles) {}

/// Reads the file slurm.conf(5), the association file, sacctmgr(1), and the saved state of these names, all before any is
/// judged, and keeps them, where they open a cluster. Linear in the files. To judge them a controller is made, and let
/// go again.
pub fn open_files<Q: Shelf>(
    alloc: Global,
    names: &FileNames<'_>,
    shelf: &mut Q,
) -> Result<ClusterFiles, OpenRefusal>
    ensures opening { IsOpening (Q.files shelf.old) (named_by names.now)
        (Q.shelf_faults shelf.old) (Q.shelf_faults shelf.new) result }
    ensures kept { Q.files shelf.new ≡ Q.files shelf.old }
{
    let files = match read_files(alloc, shelf, names) {
        Ok(files) => files,
        Err(ShelfRefusal::Failed) => return Err(OpenRefusal::NoFile),
        Err(ShelfRefusal::Memory) => return Err(OpenRefusal::Memory),
    };
    match judge(alloc, &files) {
        Ok(saved) => Ok(with_state(files, saved)),
        Err(refusal) => Err(OpenRefusal::from(refusal)),
    }
}

/// Opens the cluster of the files of these names at a desk of its own, as `open_files` reads them.
pub fn open_named<Q: Shelf>(
    alloc: Global,
    names: &FileNames<'_>,
    shelf: &mut Q,
) -> Result<OwnDesk, OpenRefusal>
    ensures opening { IsSeating (Q.files shelf.old) (named_by names.now)
        (Q.shelf_faults shelf.old) (Q.shelf_faults shelf.new) result }
    ensures kept { Q.files shelf.new ≡ Q.files shelf.old }
{
    let files = match open_files(alloc, names, shelf) {
        Ok(files) => files,
        Err(refusal) => return Err(refusal),
    };
    match desk(alloc, &files) {
        Ok(desk) => {
            let_go(files);
            Ok(desk)
        }
        Err(Memory) => {
            let_go(files);
            Err(OpenRefusal::Memory)
        }
    }
}
