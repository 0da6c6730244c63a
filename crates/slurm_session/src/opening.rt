//! The cluster of a run, opened.

ghost use Rattle.std.specs.Prelude.{◌≡◌};
ghost use Rattle.slurm_session.specs.Runs.{IsOpened, unopened};
ghost use Rattle.plain_data.specs.Files.{named_by};

use crate::ending::RunEnd;
use cluster_opening::{OpenRefusal, open_named};
use ctl_desk::own_desk::OwnDesk;
use plain_data::files::FileNames;
use slurm_io::Shelf;
use std::alloc::Global;

// The end of a run whose cluster wasn't opened.
fn end_unopened(refusal: OpenRefusal) -> RunEnd
    ensures { result ≡ unopened refusal }
{
    match refusal {
        OpenRefusal::NoFile => RunEnd::NoFile,
        OpenRefusal::Bad(bad) => RunEnd::BadFile(bad),
        OpenRefusal::Memory => RunEnd::Memory,
    }
}

/// Opens the cluster of these files at a desk of its own.
pub(crate) fn open_cluster<Q: Shelf>(
    alloc: Global,
    names: &FileNames<'_>,
    shelf: &mut Q,
) -> Result<OwnDesk, RunEnd>
    ensures opened { IsOpened (Q.files shelf.old) (named_by names.now)
        (Q.shelf_faults shelf.old) (Q.shelf_faults shelf.new) result }
    ensures kept { Q.files shelf.new ≡ Q.files shelf.old }
{
    match open_named(alloc, names, shelf) {
        Ok(desk) => Ok(desk),
        Err(refusal) => Err(end_unopened(refusal)),
    }
}
