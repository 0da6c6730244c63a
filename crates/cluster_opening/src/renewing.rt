//! A new book for a cluster as it stands.

ghost use Rattle.std.specs.Prelude.{◌≡◌, IfOk, Ok};
ghost use Rattle.assoc_reader.specs.Reader.{assocs_in};
ghost use Rattle.conf_reader.specs.Reader.{conf_in};
ghost use Rattle.cluster_opening.specs.Files.{fresh};
ghost use Rattle.ctl_desk.specs.Desk.{state_of};
ghost use Rattle.ctl_saved.specs.Saving.{saved_of};
ghost use Rattle.ctl_state.specs.State.{State};
ghost use Rattle.cluster_opening.specs.Renewing.{IsReopened};

use crate::refusal::{BadFile, ClusterRefusal};
use assoc_reader::read_assocs;
use conf_reader::read_conf;
use ctl_core::controller::Ctl;
use ctl_desk::book::Book;
use ctl_desk::own_desk::{OwnDesk, own_desk};
use ctl_restore::{RestoreRefusal, restore};
use ctl_saved::saved;
use plain_data::assoc::AssocFile;
use plain_data::conf::Conf;
use saved_data::saved::Saved;
use small_texts::memory_error::Memory;
use std::alloc::Global;

fn conf_of(alloc: Global, text: &[u8]) -> Result<Conf, ClusterRefusal>
    ensures { IfOk result (λ conf. conf_in text.now ≡ Ok conf) }
{
    match read_conf(alloc, text) {
        Ok(conf) => Ok(conf),
        Err(refusal) => Err(ClusterRefusal::from(refusal)),
    }
}

fn assocs_of(alloc: Global, text: &[u8]) -> Result<AssocFile, ClusterRefusal>
    ensures { IfOk result (λ file. assocs_in text.now ≡ Ok file) }
{
    match read_assocs(alloc, text) {
        Ok(file) => Ok(file),
        Err(refusal) => Err(ClusterRefusal::from(refusal)),
    }
}

// A controller restored of what was saved of one.
fn reopened(alloc: Global, conf: &[u8], assocs: &[u8], saved: &Saved) -> Result<Ctl, ClusterRefusal>
    ensures { IfOk result (λ ctl. IsReopened conf.now assocs.now saved.now ctl.state) }
{
    let conf = conf_of(alloc, conf)?;
    let assocs = assocs_of(alloc, assocs)?;
    match restore(alloc, conf, assocs, saved) {
        Ok(ctl) => Ok(ctl),
        Err(RestoreRefusal::Unfit) => Err(ClusterRefusal::Bad(BadFile::State { line: 0 })),
        Err(RestoreRefusal::Memory) => Err(ClusterRefusal::Memory),
    }
}

// What is saved of the cluster at a desk; all else of it goes.
fn saved_at(alloc: Global, desk: OwnDesk) -> Result<Saved, ClusterRefusal>
    ensures { IfOk result (λ kept. kept ≡ saved_of (state_of desk)) }
{
    let book = desk.into_book();
    let kept = saved(alloc, book.ctl());
    book.let_go();
    match kept {
        Ok(kept) => Ok(kept),
        Err(Memory) => Err(ClusterRefusal::Memory),
    }
}

// A desk at a new book, which opens with what was saved.
fn seated(
    alloc: Global,
    conf: &[u8],
    assocs: &[u8],
    saved: &Saved,
) -> Result<OwnDesk, ClusterRefusal>
    ensures { IfOk result (λ desk. (s : State) × IsReopened conf.now assocs.now saved.now s × (desk ≡ fresh s)) }
{
    let ctl = reopened(alloc, conf, assocs, saved)?;
    match reopened(alloc, conf, assocs, saved) {
        Ok(opening) => Ok(own_desk(Book::new(alloc, ctl, opening))),
        Err(refusal) => {
            ctl.let_go();
            Err(refusal)
        }
    }
}

/// A desk at a new book of the cluster of these two files, which opens as the cluster stands at a desk: its history, and the sum of
/// sizes that bounds it, begin anew. Linear in what the cluster keeps and in the files, which are read twice.
pub fn renewed(
    alloc: Global,
    conf: &[u8],
    assocs: &[u8],
    desk: OwnDesk,
) -> Result<OwnDesk, ClusterRefusal>
    ensures { IfOk result (λ new. (s : State) × IsReopened conf.now assocs.now (saved_of (state_of desk)) s × (new ≡ fresh s)) }
{
    let kept = saved_at(alloc, desk)?;
    seated(alloc, conf, assocs, &kept)
}
