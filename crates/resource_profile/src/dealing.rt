ghost use Rattle.std.specs.Prelude.{◌≡◌, ℕ, ◌<◌, ◌≤◌, [], length, OnOk, OnErr, All};
ghost use Rattle.resource_profile.specs.Sets.{dealt};

use crate::picking::Dealt;
use std::alloc::AllocError;

// Deals the tasks to the places of a set in order: each gets the lesser of what it can give and what remains after
// one task for each later place. What `out` had before goes.
pub(crate) fn deal(
    caps: &[u32],
    tasks: u32,
    set: &[u32],
    out: &mut Vec<Dealt>,
) -> Result<(), AllocError>
    requires few { length set.now ≤ tasks }
    requires places { All (λ place. place < length caps.now) set.now }
    ensures ok { OnOk result (out.new.items ≡ dealt caps.now tasks set.now) }
    ensures err { OnErr result (out.new.items ≡ out.old.items) }
{
    out.reserve(set.len())?;
    out.clear();
    let mut left = tasks;
    for (i, place) in set.iter().enumerate() {
        let later = (set.len() - 1 - i) as u32;
        let given = caps[*place as usize].min(left - later);
        left -= given;
        let dealt = Dealt {
            place: *place,
            tasks: given,
        };
        out.push(dealt).unwrap();
    }
    Ok(())
}
