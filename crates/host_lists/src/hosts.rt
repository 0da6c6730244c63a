//! Host expressions: names, and prefixes with numbers in brackets.

ghost use Rattle.std.specs.Prelude.{◌≡◌, ℕ, ◌↔◌, ◌<◌, ◌≤◌, ◌^◌, [], length, unwrap_or, IfOk, OnOk, IsErrOf, IsSome, Some, None, fold};
ghost use Rattle.host_lists.specs.Hosts.{item_names, with_name, first_bad_item, hosts_in};
ghost use Rattle.host_lists.specs.Found.{AreFound};

use crate::brackets::make_bracket;
use crate::found::Found;
use crate::items::{first_bad_item, first_item};
use small_texts::fields::{UpToThree, up_to_three};
use small_texts::memory_error;
use small_texts::memory_error::Memory;
use small_texts::name::Name;
use std::alloc::{AllocError, AllocFailed, Global};
use std::error::Error;
use std::fmt;

/// Why a text gave no names of hosts.
#[derive(Clone, Copy, Debug, PartialEq, Eq)]
pub enum HostRefusal {
    /// The item that begins at this byte, counted from 0, is the first that is none or makes more than 1,024 names.
    BadHosts { place: u32 },
    /// The text is good, and names more hosts than the caller takes.
    TooMany,
    Memory,
}

impl fmt::Display for HostRefusal {
    ghost use Rattle.std.specs.Prelude.{Some};
    ghost use Rattle.host_lists.specs.Refusals.{host_message};

    ghost output = { λ refusal. Some (host_message refusal) };

    fn fmt<W: fmt::Write>(&self, f: &mut fmt::Formatter<W>) -> fmt::Result {
        match self {
            HostRefusal::BadHosts { place } => write!(f, "bad host expression at byte {place}"),
            HostRefusal::TooMany => write!(f, "too many hosts"),
            HostRefusal::Memory => write!(f, "out of memory"),
        }
    }
}

impl Error for HostRefusal {}

impl From<Memory> for HostRefusal {
    ghost use Rattle.std.specs.Prelude.{◌≡◌};
    ghost use Rattle.host_lists.specs.declared.hosts.HostRefusal.TheVariants.{Memory};

    ghost from_gives = { λ _ e. e ≡ Memory };

    fn from(_error: memory_error::Memory) -> HostRefusal {
        HostRefusal::Memory
    }
}

impl From<AllocError> for HostRefusal {
    ghost use Rattle.std.specs.Prelude.{◌≡◌};
    ghost use Rattle.host_lists.specs.declared.hosts.HostRefusal.TheVariants.{Memory};

    ghost from_gives = { λ _ e. e ≡ Memory };

    fn from(_error: AllocError) -> HostRefusal {
        HostRefusal::Memory
    }
}

impl<T: Drop> From<AllocFailed<T>> for HostRefusal {
    ghost use Rattle.std.specs.Prelude.{◌≡◌};
    ghost use Rattle.host_lists.specs.declared.hosts.HostRefusal.TheVariants.{Memory};

    ghost from_gives = { λ _ e. e ≡ Memory };

    fn from(_error: AllocFailed<T>) -> HostRefusal {
        HostRefusal::Memory
    }
}

// Puts the names of a good item behind those that were found.
#[tactic(auto, unfolding(crate::specs::Hosts::made_by, crate::specs::Hosts::made_behind))]
fn make_item<'a>(found: &mut Found<'a>, alloc: Global, item: &'a [u8]) -> Result<(), Memory>
    requires found { AreFound found.old }
    requires good { IsSome (item_names item.now) }
    ensures found { OnOk result (AreFound found.new) }
    ensures names { OnOk result (found.new.names.keys ≡ fold with_name found.old.names.keys
        (unwrap_or (item_names item.now) [])) }
{
    match up_to_three(item, b'[') {
        UpToThree::One(text) => found.add(alloc, text),
        UpToThree::Two(prefix, rest) => match up_to_three(rest, b']') {
            UpToThree::Two(inside, []) => make_bracket(found, alloc, prefix, inside),
            _ => unreachable!(),
        },
        _ => unreachable!(),
    }
}

// The names of a good text; it stops behind the item with which they are more than the most.
fn make_hosts(alloc: Global, text: &[u8], most: usize) -> Result<Vec<Name>, HostRefusal>
    requires { first_bad_item text.now ≡ None }
    ensures value { IfOk result (λ names. names.items ≡ hosts_in text.now) }
    ensures most { IfOk result (λ names. length names.items ≤ most) }
    ensures many { IsErrOf result HostRefusal.TooMany → most < length (hosts_in text.now) }
    ensures good { (p : ℕ) → ¬ (IsErrOf result (HostRefusal.BadHosts p)) }
{
    let mut found = Found::new(alloc);
    let mut rest = Some(text);
    while let Some(items) = rest {
        let (item, others) = first_item(items);
        make_item(&mut found, alloc, item)?;
        if found.names.len() > most {
            return Err(HostRefusal::TooMany);
        }
        rest = others;
    }
    let names = found.names.into_iter().collect(alloc)?;
    Ok(names)
}

/// The names of a host expression, each once, at its first place: items between commas, each a name or a prefix with
/// numbers and ranges of numbers in a bracket, as in `n[01-03,7]`. A number has 1 to 9 digits, and an item makes at
/// most 1,024 names, each counted once (own). A text is looked at before names are made, so a bad one takes no memory.
/// Where they are more than `most`, it stops within 1,024 names of that.
pub fn expand_hosts(alloc: Global, text: &[u8], most: usize) -> Result<Vec<Name>, HostRefusal>
    requires { length text.now < 2 ^ 32 }
    ensures value { IfOk result (λ names. names.items ≡ hosts_in text.now) }
    ensures good { OnOk result (first_bad_item text.now ≡ None) }
    ensures most { IfOk result (λ names. length names.items ≤ most) }
    ensures refused { (p : ℕ) → IsErrOf result (HostRefusal.BadHosts p) ↔ (first_bad_item text.now ≡ Some p) }
    ensures many { IsErrOf result HostRefusal.TooMany → most < length (hosts_in text.now) }
{
    match first_bad_item(text) {
        Some(place) => Err(HostRefusal::BadHosts {
            place: place as u32,
        }),
        None => make_hosts(alloc, text, most),
    }
}
