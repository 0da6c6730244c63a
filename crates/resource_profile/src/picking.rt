//! The choice of nodes: of all sets of places that fit a job's need, the first in dictionary order, and how the job's
//! tasks are dealt to it. A place is an index into the list of what each node can give. Own: Slurm's manual leaves open
//! which nodes a job gets.

ghost use Rattle.std.specs.Prelude.{◌≡◌, ℕ, List, [], Some, None, IsTrue, IfOk, OnErr};
ghost use Rattle.std.specs.Bool.{OnTrue, OnFalse};
ghost use Rattle.resource_profile.specs.Sets.{Fits, IsChosen, dealt, places};
ghost use Rattle.resource_profile.specs.Choosing.{chosen};

use small_texts::memory_error::Memory;
use std::alloc::Global;

/// What a job asks of the set of places that it gets (sbatch(1): `--ntasks`, `--nodes`, `--nodelist`).
#[derive(Clone, Copy, Debug, PartialEq, Eq)]
pub struct Need {
    /// The tasks to be placed.
    pub tasks: u32,
    /// The fewest places.
    pub least: u32,
    /// The most places. A number above `tasks` has no effect, since each place takes a task.
    pub most: u32,
    /// How many places, from the first on, the set must hold. More than there are leave no set.
    pub required: u32,
}

/// A place of the chosen set and the tasks that it gets.
#[derive(Clone, Copy, Debug, PartialEq, Eq)]
pub struct Dealt {
    pub place: u32,
    pub tasks: u32,
}

/// The chosen set with its tasks, in `out`: true, or false where no set fits, and then `out` is empty. It sorts the
/// capacities once and then walks along them, O(n log n) for n capacities, whatever the number of sets. More than
/// 4,294,967,295 places count as too many to keep.
pub fn pick(alloc: Global, caps: &[u32], need: &Need, out: &mut Vec<Dealt>) -> Result<bool, Memory>
    ensures chosen { IfOk result (λ found. OnTrue found (IsChosen caps.now need.now (places out.new.items))) }
    ensures dealt { IfOk result (λ found.
        OnTrue found (out.new.items ≡ dealt caps.now need.now.tasks (places out.new.items))) }
    ensures choice { IfOk result (λ found. OnTrue found (chosen caps.now need.now ≡ Some (places out.new.items))) }
    ensures none_fits { IfOk result (λ found. OnFalse found ((set : List ℕ) → ¬ Fits caps.now need.now set)) }
    ensures no_choice { IfOk result (λ found. OnFalse found (chosen caps.now need.now ≡ None)) }
    ensures none { IfOk result (λ found. OnFalse found (out.new.items ≡ [])) }
    ensures err { OnErr result (out.new.items ≡ out.old.items) }
{
    let Some(set) = crate::choice::first_set(alloc, caps, need)? else {
        out.clear();
        return Ok(false);
    };
    crate::dealing::deal(caps, need.tasks, &set, out)?;
    Ok(true)
}
