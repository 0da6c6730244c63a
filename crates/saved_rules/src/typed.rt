//! What a type keeps of its values.

ghost use Rattle.std.specs.Prelude.{All};
ghost use Rattle.state_save.specs.Fitting.{FitsOptional};

use plain_data::items::Items;

/// A value of a saved state, of which its type keeps something.
pub trait Typed {
    ghost typed: { Self → Type 0 };

    /// It does nothing: its contract tells what the type keeps of every value. Linear in the value.
    fn tell(&self)
        ensures { typed self.now };
}

// The same of a list.
fn tell_all<T: Typed>(values: &[T])
    ensures { All T.typed values.now }
{
    for value in values {
        value.tell();
    }
}

impl<T: Typed> Typed for Option<T> {
    ghost typed = { FitsOptional T.typed };

    fn tell(&self) {
        if let Some(value) = self {
            value.tell();
        }
    }
}

impl<T: Typed> Typed for Items<T> {
    ghost typed = { All T.typed };

    fn tell(&self) {
        tell_all(self.as_slice());
    }
}
