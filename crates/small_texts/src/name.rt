ghost use Rattle.std.specs.Prelude.{◌≡◌, ◌↔◌, IfOk, OnOk, IsErrOf, IsTrue, IsFalse, Some, refl, bytes_eq};
ghost use Rattle.std.specs.List.{list_all};
ghost use Rattle.std.specs.Str.{bytes_eq};
ghost use Rattle.small_texts.specs.Name.{is_name_byte, is_printable, is_name, is_job_name};
ghost use Rattle.std.proofs.Common.{rules};
ghost use Rattle.std.specs.Ordering.{nat_cmp};
ghost use Rattle.std.specs.Hash as fed;
ghost use Rattle.std.specs.Cmp.{partial_equiv_from_equiv};
ghost use Rattle.std.specs.Cmp.Lexicographic.{slice_cmp, nat_list_eq_equiv, nat_list_cmp_total, texts_ties, texts_po};
ghost use Rattle.std.specs.Cmp.Rules.{hashing};

use crate::memory_error::{self, Memory};
use crate::text::Text;
use std::alloc::{AllocError, AllocFailed, Global};
use std::cmp::Ordering;
use std::error::Error;
use std::fmt;
use std::hash::{Hash, Hasher};
use std::marker::Model;

/// How many bytes a name has at most.
pub const LONGEST_NAME: usize = 64;

const LONGEST_JOB_NAME: usize = 128;

/// A name of a node, a partition, a user, an account and the like (own).
#[derive(Drop)]
pub struct Name {
    text: Text,
}

impl Model for Name {
    ghost use Rattle.std.specs.Prelude.{List, ℕ, IsTrue};
    ghost use Rattle.small_texts.specs.Name.{is_name};

    ghost Value = { List ℕ };

    ghost view = { λ n. n.text };

    ghost invariant = { λ n. IsTrue (is_name n.text) };
}

impl PartialEq for Name {
    ghost eq = { bytes_eq };

    ghost laws = { partial_equiv_from_equiv nat_list_eq_equiv };

    fn eq(&self, other: &Name) -> bool {
        self.text.as_bytes() == other.text.as_bytes()
    }
}

impl Eq for Name {
    ghost laws = { nat_list_eq_equiv };
}

impl PartialOrd for Name {
    ghost partial_cmp = { λ a b. Some (slice_cmp nat_cmp a b) };

    ghost laws = { texts_po };

    fn partial_cmp(&self, other: &Name) -> Option<Ordering> {
        Some(self.cmp(other))
    }
}

impl Ord for Name {
    ghost cmp = { slice_cmp nat_cmp };

    ghost total = { nat_list_cmp_total };

    ghost matches_partial_cmp = { λ a b. refl };

    ghost matches_eq = { texts_ties };

    fn cmp(&self, other: &Name) -> Ordering {
        self.text.as_bytes().cmp(other.text.as_bytes())
    }
}

impl Hash for Name {
    ghost hash_input = { λ name. fed.slice fed.u8 name };

    ghost respects_eq = { Prim.search (hashing, rules) };

    fn hash<H: Hasher>(&self, state: &mut H) {
        self.text.as_bytes().hash(state);
    }
}

/// A name of a job, which may have blanks (own).
#[derive(Drop)]
pub struct JobName {
    text: Text,
}

impl Model for JobName {
    ghost use Rattle.std.specs.Prelude.{List, ℕ, IsTrue};
    ghost use Rattle.small_texts.specs.Name.{is_job_name};

    ghost Value = { List ℕ };

    ghost view = { λ n. n.text };

    ghost invariant = { λ n. IsTrue (is_job_name n.text) };
}

impl PartialEq for JobName {
    ghost eq = { bytes_eq };

    ghost laws = { partial_equiv_from_equiv nat_list_eq_equiv };

    fn eq(&self, other: &JobName) -> bool {
        self.text.as_bytes() == other.text.as_bytes()
    }
}

impl Eq for JobName {
    ghost laws = { nat_list_eq_equiv };
}

impl fmt::Debug for Name {
    fn fmt<W: fmt::Write>(&self, f: &mut fmt::Formatter<W>) -> fmt::Result {
        write_quoted(f, self.text.as_bytes())
    }
}

impl fmt::Debug for JobName {
    fn fmt<W: fmt::Write>(&self, f: &mut fmt::Formatter<W>) -> fmt::Result {
        write_quoted(f, self.text.as_bytes())
    }
}

// Writes a text in quotes.
fn write_quoted<W: fmt::Write>(f: &mut fmt::Formatter<W>, text: &[u8]) -> fmt::Result {
    f.write_char('"')?;
    for b in text {
        f.write_char(char::from(*b))?;
    }
    f.write_char('"')
}

/// Why a text gave no name.
#[derive(Clone, Copy, Debug, PartialEq, Eq)]
pub enum NameRefusal {
    /// It is off the grammar.
    BadName,
    Memory,
}

impl fmt::Display for NameRefusal {
    ghost use Rattle.std.specs.Prelude.{Some};
    ghost use Rattle.small_texts.specs.Refusals.{name_message};

    ghost output = { λ refusal. Some (name_message refusal) };

    fn fmt<W: fmt::Write>(&self, f: &mut fmt::Formatter<W>) -> fmt::Result {
        f.write_str(match self {
            NameRefusal::BadName => "bad name",
            NameRefusal::Memory => "out of memory",
        })
    }
}

impl Error for NameRefusal {}

impl From<AllocError> for NameRefusal {
    ghost use Rattle.std.specs.Prelude.{◌≡◌};
    ghost use Rattle.small_texts.specs.declared.name.NameRefusal.TheVariants.{Memory};

    ghost from_gives = { λ _ e. e ≡ Memory };

    fn from(_error: AllocError) -> NameRefusal {
        NameRefusal::Memory
    }
}

impl<T: Drop> From<AllocFailed<T>> for NameRefusal {
    ghost use Rattle.std.specs.Prelude.{◌≡◌};
    ghost use Rattle.small_texts.specs.declared.name.NameRefusal.TheVariants.{Memory};

    ghost from_gives = { λ _ e. e ≡ Memory };

    fn from(_error: AllocFailed<T>) -> NameRefusal {
        NameRefusal::Memory
    }
}

impl From<Memory> for NameRefusal {
    ghost use Rattle.std.specs.Prelude.{◌≡◌};
    ghost use Rattle.small_texts.specs.declared.name.NameRefusal.TheVariants.{Memory};

    ghost from_gives = { λ _ e. e ≡ Memory };

    fn from(_error: memory_error::Memory) -> NameRefusal {
        NameRefusal::Memory
    }
}

/// Whether the text has only bytes of names: letters, digits, `_`, `-` and `.`.
pub fn has_name_bytes(text: &[u8]) -> bool
    ensures { result ≡ list_all is_name_byte text.now }
{
    text.iter().all(|b| b.is_ascii_alphanumeric() || matches!(*b, b'_' | b'-' | b'.'))
}

fn is_printable(text: &[u8]) -> bool
    ensures { result ≡ list_all is_printable text.now }
{
    text.iter().all(|b| matches!(*b, b' '..=b'~'))
}

/// Whether the text is a name: the test that `Name::read` makes, without a copy.
#[tactic(auto, unfolding(crate::specs::Name::is_name))]
pub fn is_name(text: &[u8]) -> bool
    ensures { result ≡ is_name text.now }
{
    !text.is_empty() && text.len() <= LONGEST_NAME && has_name_bytes(text)
}

#[tactic(auto, unfolding(crate::specs::Name::is_job_name))]
fn is_job_name(text: &[u8]) -> bool
    ensures { result ≡ is_job_name text.now }
{
    !text.is_empty() && text.len() <= LONGEST_JOB_NAME && is_printable(text)
}

impl Name {
    /// Takes a copy of a text of 1 to 64 letters, digits, `_`, `-` and `.`.
    pub fn read(alloc: Global, text: &[u8]) -> Result<Name, NameRefusal>
        ensures value { IfOk result (λ name. name ≡ text.now) }
        ensures named { OnOk result (IsTrue (is_name text.now)) }
        ensures refused { IsErrOf result NameRefusal.BadName ↔ IsFalse (is_name text.now) }
    {
        if !is_name(text) {
            return Err(NameRefusal::BadName);
        }
        let text = Text::of(alloc, text)?;
        Ok(Name { text })
    }

    /// The bytes of the name.
    pub fn as_bytes(&self) -> &[u8]
        ensures value { result.now ≡ self.now }
        ensures named { IsTrue (is_name self.now) }
    {
        self.text.as_bytes()
    }

    /// An equal name.
    pub fn copy(&self) -> Result<Name, Memory>
        ensures { IfOk result (λ name. name ≡ self.now) }
    {
        let text = self.text.copy()?;
        Ok(Name { text })
    }

    /// Whether the other name has the same bytes.
    pub fn is(&self, other: &Name) -> bool
        ensures equal { IsTrue result ↔ (self.now ≡ other.now) }
        ensures test { result ≡ bytes_eq self.now other.now }
    {
        self.text.as_bytes() == other.text.as_bytes()
    }
}

impl JobName {
    /// Takes a copy of a text of 1 to 128 bytes from 0x20 to 0x7E.
    pub fn read(alloc: Global, text: &[u8]) -> Result<JobName, NameRefusal>
        ensures value { IfOk result (λ name. name ≡ text.now) }
        ensures named { OnOk result (IsTrue (is_job_name text.now)) }
        ensures refused { IsErrOf result NameRefusal.BadName ↔ IsFalse (is_job_name text.now) }
    {
        if !is_job_name(text) {
            return Err(NameRefusal::BadName);
        }
        let text = Text::of(alloc, text)?;
        Ok(JobName { text })
    }

    /// The bytes of the name.
    pub fn as_bytes(&self) -> &[u8]
        ensures value { result.now ≡ self.now }
        ensures named { IsTrue (is_job_name self.now) }
    {
        self.text.as_bytes()
    }

    /// An equal name.
    pub fn copy(&self) -> Result<JobName, Memory>
        ensures { IfOk result (λ name. name ≡ self.now) }
    {
        let text = self.text.copy()?;
        Ok(JobName { text })
    }

    /// Whether the other name has the same bytes.
    pub fn is(&self, other: &JobName) -> bool
        ensures equal { IsTrue result ↔ (self.now ≡ other.now) }
        ensures test { result ≡ bytes_eq self.now other.now }
    {
        self.text.as_bytes() == other.text.as_bytes()
    }
}
