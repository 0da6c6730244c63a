//! Whether files open a cluster.

ghost use Rattle.std.specs.Prelude.{◌≡◌, ℕ, List, Option, None, Some, IfOk, IfErr, IsSomeAnd, OnOk, Ok, Err};
ghost use Rattle.plain_data.specs.Assocs.{AssocView};
ghost use Rattle.plain_data.specs.Confs.{ConfView};
ghost use Rattle.ctl_state.specs.State.{State};
ghost use Rattle.cluster_opening.specs.Restoring.{IsBadAt, IsBegun, IsSavedText};
ghost use Rattle.cluster_opening.specs.Judging.{IsJudged, IsOfState, IsTextRead};

use crate::cluster::read_both;
use crate::cluster_files::begin;
use crate::files::Files;
use crate::refusal::{BadFile, ClusterRefusal};
use ctl_restore::RestoreRefusal;
use plain_data::assoc::AssocFile;
use plain_data::conf::Conf;
use saved_data::saved::Saved;
use state_save::{SavedRefusal, read_saved};
use std::alloc::Global;

// The saved state of a text.
fn read_text(alloc: Global, text: &[u8]) -> Result<Saved, ClusterRefusal>
    ensures text { IfOk result (IsSavedText text.now) }
    ensures bad { IfErr result (λ refusal. IsOfState refusal (λ line. IsBadAt text.now line)) }
{
    match read_saved(alloc, text) {
        Ok(saved) => Ok(saved),
        Err(SavedRefusal::BadSaved { line }) => Err(ClusterRefusal::Bad(BadFile::State { line })),
        Err(SavedRefusal::Memory) => Err(ClusterRefusal::Memory),
    }
}

// The saved state of a text, where there is one.
fn read_state(alloc: Global, text: &Option<Vec<u8>>) -> Result<Option<Saved>, ClusterRefusal>
    ensures text { IfOk result (IsTextRead text.now) }
    ensures bad { IfErr result (λ refusal.
        IsOfState refusal (λ line. IsSomeAnd text.now (λ bytes. IsBadAt bytes.items line))) }
{
    match text {
        Some(text) => match read_text(alloc, text.as_slice()) {
            Ok(saved) => Ok(Some(saved)),
            Err(refusal) => Err(refusal),
        },
        None => Ok(None),
    }
}

// Whether a saved state fits the cluster that two files describe.
fn fits(
    alloc: Global,
    conf: Conf,
    assocs: AssocFile,
    saved: &Option<Saved>,
) -> Result<(), ClusterRefusal>
    ensures fits { OnOk result ((s : State) × IsBegun conf assocs saved.now s) }
    ensures unfit { IfErr result (λ refusal.
        IsOfState refusal (λ line. (line ≡ 0) × ((s : State) → IsBegun conf assocs saved.now s → ⊥))) }
{
    match begin(alloc, conf, assocs, saved) {
        Ok(ctl) => {
            ctl.let_go();
            Ok(())
        }
        Err(RestoreRefusal::Unfit) => Err(ClusterRefusal::Bad(BadFile::State { line: 0 })),
        Err(RestoreRefusal::Memory) => Err(ClusterRefusal::Memory),
    }
}

// Lets go of what two files say.
fn let_both_go(_conf: Conf, _assocs: AssocFile) {}

// Lets go of a saved state.
fn let_go(_saved: Option<Saved>) {}

/// The saved state among texts that open a cluster, or why they open none.
pub(crate) fn judge(alloc: Global, files: &Files) -> Result<Option<Saved>, ClusterRefusal>
    ensures { IsJudged files.now result }
{
    let (conf, assocs) = match read_both(alloc, files.conf.as_slice(), files.assocs.as_slice()) {
        Ok(both) => both,
        Err(refusal) => return Err(refusal),
    };
    let saved = match read_state(alloc, &files.state) {
        Ok(saved) => saved,
        Err(refusal) => {
            let_both_go(conf, assocs);
            return Err(refusal);
        }
    };
    match fits(alloc, conf, assocs, &saved) {
        Ok(()) => Ok(saved),
        Err(refusal) => {
            let_go(saved);
            Err(refusal)
        }
    }
}
