//! What is saved of what users have used.

ghost use Rattle.std.specs.Prelude.{◌≡◌, IfOk, length};
ghost use Rattle.run_limits.specs.Accounts.{account_of};
ghost use Rattle.ctl_saved.specs.Saving as spec;

use plain_data::ranged::LongRanged;
use run_limits::assocs::Assocs;
use run_limits::record::AssocRecord;
use saved_data::parts::SavedUsage;
use small_texts::memory_error::Memory;
use small_texts::name::Name;
use std::alloc::Global;

// The name of the account that an association belongs to.
fn account_name(alloc: Global, assocs: &Assocs, assoc: &AssocRecord) -> Result<Name, Memory>
    ensures { IfOk result (λ name. name ≡ account_of assocs.now.records assoc.now) }
{
    // The name of an account, or root: always a name.
    Name::read(alloc, assocs.account(assoc)).map_err(|_| Memory)
}

// What a user's jobs in an account have used, where that is something.
fn saved_usage(
    alloc: Global,
    assocs: &Assocs,
    assoc: &AssocRecord,
    total: u64,
) -> Result<Option<SavedUsage>, Memory>
    ensures { IfOk result (λ saved. saved ≡ spec.saved_usage assocs.now.records (assoc.now, total)) }
{
    if !assoc.conf.user || total == 0 {
        return Ok(None);
    }
    Ok(Some(SavedUsage {
        account: account_name(alloc, assocs, assoc)?,
        user: assoc.conf.name.copy()?,
        total: LongRanged::new(total),
    }))
}

/// What is saved of these totals. Linear in the associations.
pub fn saved_usages(
    alloc: Global,
    assocs: &Assocs,
    totals: &[u64],
) -> Result<Vec<SavedUsage>, Memory>
    requires { length totals.now ≡ length assocs.now.records }
    ensures { IfOk result (λ saved. saved.items ≡ spec.saved_usages assocs.now.records totals.now) }
{
    let mut saved = Vec::new(alloc);
    for (place, assoc) in assocs.records().iter().enumerate() {
        if let Some(usage) = saved_usage(alloc, assocs, assoc, totals[place])? {
            saved.push(usage)?;
        }
    }
    Ok(saved)
}
