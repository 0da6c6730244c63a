//! Names that are kept in place.

ghost use Rattle.std.specs.Prelude.{◌≡◌, ◌≤◌, length, bytes_eq};
ghost use Rattle.std.specs.Cmp.{partial_equiv_from_equiv};
ghost use Rattle.std.specs.Cmp.Lexicographic.{nat_list_eq_equiv};
ghost use Rattle.reply_data.specs.ShortName.{padded};

use small_texts::name::Name;
use std::alloc::AllocError;
use std::marker::Model;

/// The text of a name, kept in place: it is copied freely, and takes no memory of its own. A contract sees it as its
/// bytes (own).
#[derive(Debug, Drop)]
pub struct ShortName {
    bytes: [u8; 64],
    len: usize,
}

impl Model for ShortName {
    ghost use Rattle.std.specs.Prelude.{◌≡◌, ℕ, ◌≤◌, List, length, take};
    ghost use Rattle.std.proofs.Common.{sym};
    ghost use Rattle.reply_data.specs.ShortName.{padded};

    ghost Value = { List ℕ };

    ghost view = { λ name. take name.len name.bytes };

    ghost invariant = { λ name.
        (name.len ≤ 64) × (name.bytes ≡ padded (take name.len name.bytes)) × (length (take name.len name.bytes) ≡ name.len) };

    ghost inverse = { λ text. record { bytes = padded text; len = length text } };

    ghost inverse_ok = { λ name h i. record { bytes = sym h.1 i; len = h.2 i } };
}

impl Clone for ShortName {
    fn clone(&self) -> Result<Self, AllocError> {
        Ok(*self)
    }
}

impl Copy for ShortName {}

impl PartialEq for ShortName {
    ghost eq = { bytes_eq };

    ghost laws = { partial_equiv_from_equiv nat_list_eq_equiv };

    fn eq(&self, other: &ShortName) -> bool {
        self.as_bytes() == other.as_bytes()
    }
}

impl Eq for ShortName {
    ghost laws = { nat_list_eq_equiv };
}

// The text, and zeros behind it.
#[tactic(auto, using(crate::proofs::ShortNames::over_zeros))]
fn padded(text: &[u8]) -> [u8; 64]
    requires { length text.now ≤ 64 }
    ensures { result ≡ padded text.now }
{
    let mut bytes = [0; 64];
    bytes[..text.len()].copy_from_slice(text);
    bytes
}

impl ShortName {
    /// The text of this name. It costs a copy of 64 bytes.
    #[tactic(auto, using(crate::proofs::ShortNames::taken_back, crate::proofs::ShortNames::name_is_short))]
    pub fn of(name: &Name) -> ShortName
        ensures { result ≡ name.now }
    {
        let text = name.as_bytes();
        ShortName {
            bytes: padded(text),
            len: text.len(),
        }
    }

    /// The bytes of the name.
    pub fn as_bytes(&self) -> &[u8]
        ensures value { result.now ≡ self.now }
        ensures short { length result.now ≤ 64 }
    {
        &self.bytes[..self.len]
    }
}
