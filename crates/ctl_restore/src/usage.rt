//! What users have used, by what is saved of it.

ghost use Rattle.std.specs.Prelude.{◌≡◌, ◌↔◌, IfOk, IfSome, IsSome, All, AllPairs, replicate, true};
ghost use Rattle.saved_data.specs.declared.parts.SavedUsage.{SavedUsage as OneUsage};
ghost use Rattle.ctl_restore.specs.Fits.{AreOfOthers, is_user_of};
ghost use Rattle.ctl_restore.specs.Restored.{restored_usages};
ghost use Rattle.ctl_restore.specs.Steps.{LeadsToUsers};

use crate::accounts::place_in;
use run_limits::assocs::Assocs;
use saved_data::parts::SavedUsage;
use small_texts::memory_error::Memory;
use small_texts::name::Name;
use std::alloc::Global;
use std::collections::HashMap;

// So many associations have used nothing.
fn nothing_used(alloc: Global, assocs: usize) -> Result<Vec<u64>, Memory>
    ensures { IfOk result (λ usage. usage.items ≡ replicate assocs 0) }
{
    Ok(vec![in alloc; 0; assocs]?)
}

/// What the associations have used, by these lines: None where a line's user has no association with its account, or two
/// lines are of one. Linear in the associations and in the lines.
pub fn restored_usages(
    alloc: Global,
    assocs: &Assocs,
    places: &HashMap<Name, usize>,
    lines: &[SavedUsage],
) -> Result<Option<Vec<u64>>, Memory>
    requires { LeadsToUsers assocs.now.records places.now }
    ensures some { IfOk result (λ found. IsSome found
        ↔ (All (λ (line : OneUsage). is_user_of assocs.now.records line.user line.account ≡ true) lines.now
        × AllPairs AreOfOthers lines.now)) }
    ensures usage { IfOk result (λ found. IfSome found (λ usage. usage.items
        ≡ restored_usages lines.now assocs.now.records)) }
{
    let mut usage = nothing_used(alloc, assocs.records().len())?;
    for line in lines {
        let Some(place) = place_in(assocs, places, &line.user, &line.account) else {
            return Ok(None);
        };
        if usage[place as usize] != 0 {
            return Ok(None);
        }
        usage[place as usize] = line.total.get();
    }
    Ok(Some(usage))
}
