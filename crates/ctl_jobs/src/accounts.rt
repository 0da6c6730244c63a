//! Accounts and qualities of service: those that a submission counts for, and those whose jobs a partition takes.

ghost use Rattle.std.specs.Prelude.{◌≡◌, IfOk, bytes_eq};
ghost use Rattle.std.specs.List.{list_any};
ghost use Rattle.ctl_state.specs.State.{state_of};
ghost use Rattle.ctl_jobs.specs.Submission;

use ctl_state::cluster::Cluster;
use node_state::partition_record::PartRecord;
use plain_data::items::Items;
use plain_data::job::JobDesc;
use run_limits::assocs::Assocs;
use small_texts::memory_error::Memory;
use small_texts::name::Name;
use std::alloc::Global;

/// The place of the association that a submission counts for. It costs what `Assocs::find` does: constant time for a user
/// of one association.
pub(crate) fn assoc_for(cluster: &Cluster, user: &Name, desc: &JobDesc) -> Option<u32>
    ensures { result ≡ Submission.assoc_for (state_of cluster.now) user.now desc.now }
{
    cluster.assocs.find(user, desc.account.as_ref())
}

/// The place of its quality of service, which is `normal` where it names none.
pub(crate) fn qos_for(cluster: &Cluster, desc: &JobDesc) -> Option<u32>
    ensures { result ≡ Submission.qos_for (state_of cluster.now) desc.now }
{
    cluster.assocs.find_qos(desc.qos.as_ref())
}

// The account of the association at a place.
fn account_at(assocs: &Assocs, place: u32) -> &[u8]
    ensures { result.now ≡ Submission.account_at assocs.now.records place }
{
    match assocs.records().get(place as usize) {
        Some(assoc) => assocs.account(assoc),
        None => b"root",
    }
}

/// The name of the account of the association at a place.
pub(crate) fn account_name(alloc: Global, cluster: &Cluster, place: u32) -> Result<Name, Memory>
    ensures { IfOk result (λ name. name ≡ Submission.account_at (state_of cluster.now).assocs place) }
{
    let account = account_at(&cluster.assocs, place);
    Name::read(alloc, account).map_err(|_| Memory)
}

// The name of the quality of service of a submission.
fn quality_of(desc: &JobDesc) -> &[u8]
    ensures { result.now ≡ Submission.quality_of desc.now }
{
    match &desc.qos {
        Some(qos) => qos.as_bytes(),
        None => b"normal",
    }
}

// Whether the name is one of these.
fn has(names: &Items<Name>, name: &[u8]) -> bool
    ensures { result ≡ list_any (bytes_eq name.now) names.now }
{
    names.iter().any(|one| name == one.as_bytes())
}

// Whether a partition that takes jobs of these names takes those of this one; None takes all.
fn takes(names: &Option<Items<Name>>, name: &[u8]) -> bool
    ensures { result ≡ Submission.takes names.now name.now }
{
    match names {
        Some(names) => has(names, name),
        None => true,
    }
}

/// Whether the partition takes jobs of the account in the submission's quality of service. `AllowAccounts` and
/// `AllowQos` in slurm.conf(5).
pub(crate) fn takes_jobs_of(partition: &PartRecord, account: &Name, desc: &JobDesc) -> bool
    ensures { result ≡ Submission.takes_jobs_of partition.now account.now (Submission.quality_of desc.now) }
{
    takes(&partition.conf.accounts, account.as_bytes())
        && takes(&partition.conf.qos, quality_of(desc))
}
