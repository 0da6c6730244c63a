//! The accounts and the qualities of service, found by name.

ghost use Rattle.std.specs.Prelude.{◌≡◌, ◌<◌, ◌^◌, ℕ, List, length, map, bytes_eq, slice_get, vec_len, IfOk};
ghost use Rattle.std.specs.HashMap.{get};
ghost use Rattle.run_limits.specs.Accounts as spec;
ghost use Rattle.run_limits.specs.Spans.{IsSpanIfAny};

use crate::meant;
use crate::record::{AssocRecord, QosRecord};
use crate::spans::{Span, spans_of};
use crate::way_up::way_up;
use arrayvec::ArrayVec;
use plain_data::assoc::{AssocConf, AssocFile, AssocLimits, QosConf, QosLimits};
use small_texts::memory_error::Memory;
use small_texts::name::Name;
use std::alloc::Global;
use std::collections::HashMap;
use std::marker::Model;

const NO_LIMITS: AssocLimits = AssocLimits {
    grp_jobs: None,
    grp_submit: None,
    grp_cpus: None,
    max_jobs: None,
    max_submit: None,
};

const NO_QOS_LIMITS: QosLimits = QosLimits {
    grp_jobs: None,
    grp_submit: None,
    grp_cpus: None,
    user_jobs: None,
    user_submit: None,
    user_cpus: None,
    max_wall: None,
};

/// The accounts, their users and the qualities of service of a site. A contract sees the records of them.
#[derive(Drop)]
pub struct Assocs {
    records: Vec<AssocRecord>,
    qos: Vec<QosRecord>,
    // The number of the user of each association.
    users: Vec<u32>,
    // Where the associations of each name stand.
    spans: HashMap<Name, Span>,
}

impl Model for Assocs {
    ghost use Rattle.std.specs.Prelude.{◌≡◌, ◌<◌, ◌^◌, ℕ, List, length, map, bytes_eq};
    ghost use Rattle.std.specs.HashMap.{get};
    ghost use Rattle.run_limits.specs.Spans.{IsSpanIfAny};
    ghost use Rattle.run_limits.specs.Accounts.{AssocsView, AreFew, AreRooted, number_in};

    ghost Value = { AssocsView };

    ghost view = { λ assocs. record { records = assocs.records.items; qos = assocs.qos.items } };

    ghost invariant = { λ assocs. AreRooted assocs.records.items
        × (length assocs.records.items < 2 ^ 32) × (length assocs.qos.items < 2 ^ 32)
        × (assocs.users.items ≡ map (number_in assocs.records.items) assocs.records.items)
        × AreFew assocs.records.items
        × ((name : List ℕ) → IsSpanIfAny assocs.records.items name (get bytes_eq assocs.spans name)) };
}

fn opened(conf: AssocConf) -> AssocRecord
    ensures { result ≡ spec.opened conf }
{
    AssocRecord { conf }
}

fn opened_qos(conf: QosConf) -> QosRecord
    ensures { result ≡ spec.opened_qos conf }
{
    QosRecord { conf }
}

fn records_of(alloc: Global, confs: Vec<AssocConf>) -> Result<Vec<AssocRecord>, Memory>
    ensures { IfOk result (λ records. records.items ≡ map spec.opened confs.items) }
{
    Ok(confs.into_iter().map(opened).collect(alloc)?)
}

fn qos_of(alloc: Global, confs: Vec<QosConf>) -> Result<Vec<QosRecord>, Memory>
    ensures { IfOk result (λ qos. qos.items ≡ map spec.opened_qos confs.items) }
{
    Ok(confs.into_iter().map(opened_qos).collect(alloc)?)
}

// The number of the user of each association.
fn users_of(
    alloc: Global,
    records: &[AssocRecord],
    spans: &HashMap<Name, Span>,
) -> Result<Vec<u32>, Memory>
    requires { (name : List ℕ) → IsSpanIfAny records.now name (get bytes_eq spans.now name) }
    ensures { IfOk result (λ users. users.items ≡ map (spec.number_in records.now) records.now) }
{
    let mut users = Vec::with_capacity(alloc, records.len())?;
    for assoc in records {
        let first = match spans.get(&assoc.conf.name) {
            Some(span) => span.first,
            None => 0,
        };
        users.push(first)?;
    }
    Ok(users)
}

impl Assocs {
    ghost use Rattle.std.specs.Prelude.{◌≡◌, ◌<◌, ◌^◌, ◌↔◌, ℕ, map, length, IfOk, Err, true, slice_get, bytes_eq, AllPairs, IfSome, IsSome, Some, option_copied, option_map};
    ghost use Rattle.run_limits.specs.Accounts as spec;

    /// The accounts of the association file, before any request. Linear in them.
    pub fn build(alloc: Global, file: AssocFile) -> Result<Assocs, Memory>
        ensures records { IfOk result (λ assocs. assocs.records ≡ map spec.opened file.assocs) }
        ensures qos { IfOk result (λ assocs. assocs.qos ≡ map spec.opened_qos file.qos) }
    {
        let records = records_of(alloc, file.assocs.into_vec())?;
        let qos = qos_of(alloc, file.qos.into_vec())?;
        if records.len() > u32::MAX as usize || qos.len() > u32::MAX as usize {
            return Err(Memory);
        }
        let spans = spans_of(alloc, records.as_slice())?;
        let users = users_of(alloc, records.as_slice(), &spans)?;
        Ok(Assocs {
            records,
            qos,
            users,
            spans,
        })
    }

    /// The associations, in the order of the file.
    pub fn records(&self) -> &[AssocRecord]
        ensures value { result.now ≡ self.now.records }
        ensures rooted { spec.AreRooted self.now.records }
        ensures few { spec.AreFew self.now.records }
        ensures small { length self.now.records < 2 ^ 32 }
    {
        self.records.as_slice()
    }

    /// The qualities of service, in the order of the file.
    pub fn qos(&self) -> &[QosRecord]
        ensures { result.now ≡ self.now.qos }
    {
        self.qos.as_slice()
    }

    /// The place of the association that a user means who names this account, or none: then his default account. In
    /// constant time where at most one association has his name; else linear in the associations from the first to the
    /// last that has it, for each default account of his that he has no part in once more. It takes no memory.
    /// sacctmgr(1), DefaultAccount.
    pub fn find(&self, user: &Name, account: Option<&Name>) -> Option<u32>
        ensures value { result ≡ spec.place_meant self.now.records user.now (option_copied account.entry) }
        ensures there { IfSome result (λ place. place < length self.now.records) }
    {
        let Some(span) = self.spans.get(user) else {
            return None;
        };
        meant::place_meant(self.records.as_slice(), *span, user, account).map(|place| place as u32)
    }

    /// The place of the quality of service with this name, or of `normal` where none is named. Linear in them.
    pub fn find_qos(&self, name: Option<&Name>) -> Option<u32>
        ensures value { result ≡ spec.qos_meant self.now.qos (option_copied name.entry) }
        ensures there { IfSome result (λ place. place < length self.now.qos) }
    {
        meant::qos_meant(self.qos.as_slice(), name).map(|place| place as u32)
    }

    /// The name of the account that an association of these belongs to.
    pub fn account(&self, assoc: &AssocRecord) -> &[u8]
        ensures { result.now ≡ spec.account_of self.now.records assoc.now }
    {
        meant::account_of(self.records.as_slice(), assoc)
    }

    /// The limits of the association at a place.
    pub fn limits(&self, place: u32) -> AssocLimits
        ensures { result ≡ spec.limits_at self.now.records place }
    {
        match self.records.get(place as usize) {
            Some(assoc) => assoc.conf.limits,
            None => NO_LIMITS,
        }
    }

    /// The limits of the quality of service at a place.
    pub fn qos_limits(&self, place: u32) -> QosLimits
        ensures { result ≡ spec.qos_limits_at self.now.qos place }
    {
        match self.qos.get(place as usize) {
            Some(one) => one.conf.limits,
            None => NO_QOS_LIMITS,
        }
    }

    /// The places on the way up to root from an association, which is the first of them. Linear in them.
    pub fn above(&self, place: u32) -> ArrayVec<u32, 16>
        ensures value { result.items ≡ spec.above self.now.records place }
        ensures falling { AllPairs (λ (lower upper : ℕ). upper < lower) result.items }
    {
        way_up(self.records.as_slice(), place)
    }

    /// The number that the user of the association at a place has: his associations share it, and no other has it. In
    /// constant time.
    pub fn user_number(&self, place: u32) -> Option<u32>
        ensures value { result ≡ spec.user_number self.now.records place }
    {
        self.users.get(place as usize).copied()
    }
}
