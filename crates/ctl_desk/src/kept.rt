//! A book under a lock, where desks of several threads take turns at it.

use crate::book::Book;
use crate::entry::Entry;
use turn_lock::Kept;

/// Each entry bears the number of the session that asked it, which is that of a pass. A book keeps its opening.
impl Kept<Entry> for Book {
    ghost use Rattle.std.specs.Prelude.{◌≡◌};

    ghost entries = { λ book. book.entries };

    ghost bearer = { λ entry. entry.session };

    ghost begins_as = { λ first book. book.opening ≡ first.opening };

    fn len(&self) -> u64 {
        Book::len(self)
    }
}
