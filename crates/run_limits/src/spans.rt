//! Where the associations of a name stand.

ghost use Rattle.std.specs.Prelude.{◌<◌, ◌^◌, ℕ, List, length, bytes_eq, IfOk};
ghost use Rattle.std.specs.HashMap.{get};
ghost use Rattle.run_limits.specs.Spans as spec;

use crate::record::AssocRecord;
use small_texts::memory_error::Memory;
use small_texts::name::Name;
use std::alloc::Global;
use std::collections::HashMap;

/// The places of the first and of the last association with a name.
#[derive(Clone, Copy, PartialEq, Eq, Debug)]
pub struct Span {
    pub first: u32,
    pub last: u32,
}

impl Span {
    ghost use Rattle.std.specs.Prelude.{◌≡◌, ◌<◌, ◌≤◌, length};
    ghost use Rattle.run_limits.specs.Spans as spec;

    /// The associations at the places of the span.
    pub fn of<'a>(&self, records: &'a [AssocRecord]) -> &'a [AssocRecord]
        requires ordered { self.now.first ≤ self.now.last }
        requires inside { self.now.last < length records.now }
        ensures { result.now ≡ spec.within records.now self.now }
    {
        &records[self.first as usize..self.last as usize + 1]
    }

    // The span of a name that stands at this place too, behind all others.
    fn up_to(span: Option<Span>, place: u32) -> Span
        ensures { result ≡ spec.up_to span place }
    {
        match span {
            Some(span) => Span {
                first: span.first,
                last: place,
            },
            None => Span {
                first: place,
                last: place,
            },
        }
    }
}

/// The span of each name. Linear in the associations.
pub fn spans_of(alloc: Global, records: &[AssocRecord]) -> Result<HashMap<Name, Span>, Memory>
    requires { length records.now < 2 ^ 32 }
    ensures { IfOk result (λ spans. (name : List ℕ) → spec.IsSpanIfAny records.now name (get bytes_eq spans name)) }
{
    let mut spans = HashMap::with_capacity(alloc, records.len())?;
    for (place, assoc) in records.iter().enumerate() {
        let span = Span::up_to(spans.get(&assoc.conf.name).copied(), place as u32);
        spans.insert(assoc.conf.name.copy()?, span)?;
    }
    Ok(spans)
}
