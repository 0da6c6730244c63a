//! The gates of a server that nothing holds.

ghost use Rattle.std.specs.Prelude.{◌≡◌, ◌+◌, IfOk, vec_len};

use slurm_net::NoGate;
use std::alloc::{AllocError, Global};

/// A gate for each of so many workers, and one for the planner.
pub(crate) fn no_gates(alloc: Global, workers: u32) -> Result<Vec<NoGate>, AllocError>
    ensures { IfOk result (λ gates. vec_len gates ≡ workers + 1) }
{
    let gates = vec![in alloc; NoGate; workers as usize + 1]?;
    Ok(gates)
}
