//! Names, and where a list has them.

ghost use Rattle.std.specs.Prelude.{◌≡◌, ℕ, List, bytes_eq, position, IfOk};
ghost use Rattle.std.specs.HashMap.{get};

use small_texts::memory_error::Memory;
use small_texts::name::Name;
use std::alloc::Global;
use std::collections::HashMap;

/// The places of the names in their list, by the names: the first place of one that stands there more than once. Linear
/// in them.
pub fn first_places(alloc: Global, names: &[Name]) -> Result<HashMap<Name, usize>, Memory>
    ensures { IfOk result (λ places. (name : List ℕ) → get bytes_eq places name ≡ position (bytes_eq name) names.now) }
{
    let mut places = HashMap::with_capacity(alloc, names.len())?;
    for (place, name) in names.iter().enumerate() {
        if !places.contains_key(name) {
            places.insert(name.copy()?, place)?;
        }
    }
    Ok(places)
}
