//! The files of a cluster, read.

ghost use Rattle.std.specs.Prelude.{◌≡◌, IfOk};
ghost use Rattle.slurm_io.specs.ShelfRefusal.{CountsReading};
ghost use Rattle.plain_data.specs.Files.{text_of};
ghost use Rattle.cluster_opening.specs.Files.{IsFrontIf, IsFrontOf};
ghost use Rattle.cluster_opening.specs.Judging.{bytes_read};

use plain_data::files::FileNames;
use slurm_io::{Shelf, ShelfRefusal, read_file};
use std::alloc::Global;

/// The most bytes of slurm.conf(5) that are read, but for one that tells a longer file.
const LONGEST_CONF: u64 = 1_048_576;

/// The same of an association file, sacctmgr(1).
const LONGEST_ASSOCS: u64 = 4_194_304;

/// The same of a saved state (own).
const LONGEST_STATE: u64 = 268_435_456;

/// The bytes of the files, up to one more than the longest has.
#[derive(Drop)]
pub(crate) struct Files {
    /// Those of slurm.conf(5).
    pub conf: Vec<u8>,
    /// Those of the association file.
    pub assocs: Vec<u8>,
    /// Those of the saved state, where one is named.
    pub state: Option<Vec<u8>>,
}

// Reads the saved state, where one is named.
fn read_state<Q: Shelf>(
    alloc: Global,
    shelf: &mut Q,
    name: Option<&str>,
) -> Result<Option<Vec<u8>>, ShelfRefusal>
    ensures state { IfOk result (λ state. IsFrontIf (Q.files shelf.old) (text_of name.entry) 268_435_457 (bytes_read state)) }
    ensures faults { CountsReading (Q.shelf_faults shelf.old) (Q.shelf_faults shelf.new) result }
    ensures kept { Q.files shelf.new ≡ Q.files shelf.old }
{
    let Some(name) = name else {
        return Ok(None);
    };
    match read_file(alloc, shelf, name, LONGEST_STATE) {
        Ok(bytes) => Ok(Some(bytes)),
        Err(refusal) => Err(refusal),
    }
}

/// Reads slurm.conf(5) first, then the association file, then the saved state.
pub(crate) fn read_files<Q: Shelf>(
    alloc: Global,
    shelf: &mut Q,
    names: &FileNames<'_>,
) -> Result<Files, ShelfRefusal>
    ensures conf { IfOk result (λ files. IsFrontOf (Q.files shelf.old) names.now.conf.now 1_048_577 files.conf.items) }
    ensures assocs { IfOk result (λ files.
        IsFrontOf (Q.files shelf.old) names.now.assocs.now 4_194_305 files.assocs.items) }
    ensures state { IfOk result (λ files.
        IsFrontIf (Q.files shelf.old) (text_of names.now.state) 268_435_457 (bytes_read files.state)) }
    ensures faults { CountsReading (Q.shelf_faults shelf.old) (Q.shelf_faults shelf.new) result }
    ensures kept { Q.files shelf.new ≡ Q.files shelf.old }
{
    let conf = read_file(alloc, shelf, names.conf, LONGEST_CONF)?;
    let assocs = read_file(alloc, shelf, names.assocs, LONGEST_ASSOCS)?;
    let state = read_state(alloc, shelf, names.state)?;
    Ok(Files {
        conf,
        assocs,
        state,
    })
}
