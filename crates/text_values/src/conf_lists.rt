//! Lists of names that a line or the lines before it give.

ghost use Rattle.std.specs.Prelude.{◌≡◌, [], IfOk, unwrap_or};
ghost use Rattle.std.specs.Option.{option_or};

use plain_data::items::Items;
use small_texts::memory_error::Memory;
use small_texts::name::Name;
use std::alloc::Global;

/// The first list, or else a copy of the second.
pub fn or_copy(
    own: Option<Items<Name>>,
    default: &Option<Items<Name>>,
) -> Result<Option<Items<Name>>, Memory>
    ensures { IfOk result (λ list. list ≡ option_or own default.now) }
{
    match (own, default) {
        (Some(own), _) => Ok(Some(own)),
        (None, Some(default)) => Ok(Some(default.copy()?)),
        (None, None) => Ok(None),
    }
}

/// A copy of the list, or an empty one.
pub fn copy_or_none(alloc: Global, names: &Option<Items<Name>>) -> Result<Items<Name>, Memory>
    ensures { IfOk result (λ list. list ≡ unwrap_or names.now []) }
{
    match names {
        Some(names) => names.copy(),
        None => Ok(Items::from_vec(Vec::new(alloc))),
    }
}
