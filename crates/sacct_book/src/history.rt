//! Sums that go on by many entries.

ghost use Rattle.std.specs.Prelude.{◌≡◌, [], OnOk};
ghost use Rattle.ctl_desk.specs.History.{IsLegal};

use crate::sums::Sums;
use ctl_desk::entry::Entry;
use ctl_desk::laws::a_legal_history_begins_legally;
use small_texts::memory_error::Memory;

/// Goes on by entries, one after the other, where there are none yet.
pub fn add_all(sums: &mut Sums, entries: Vec<Entry>) -> Result<(), Memory>
    requires none { sums.old.entries ≡ [] }
    requires legal { IsLegal sums.old.opening entries.items }
    ensures { OnOk result (sums.new ≡ record { opening = sums.old.opening; entries = entries.items }) }
{
    a_legal_history_begins_legally();
    for entry in entries {
        sums.add(entry)?;
    }
    Ok(())
}
