//! The qualities of service that a file gives: a list may also name one of a later line, so they are looked up before
//! the lines are read.

ghost use Rattle.std.specs.Prelude.{ℕ, ◌≡◌, ◌||◌, List, bytes_eq, IfOk, OnOk, IsErrOf, Some, None};
ghost use Rattle.std.specs.HashSet.{contains};
ghost use Rattle.std.specs.List.{list_all};
ghost use Rattle.std.specs.Str.{byte};
ghost use Rattle.small_texts.specs.Fields.{fields};
ghost use Rattle.assoc_reader.specs.Qos.{names_qos, may_name};
ghost use Rattle.assoc_reader.specs.Words.{known_names_in};

use crate::keys::LineKind;
use crate::lines::{copy_name, is_skipped, read_form};
use plain_data::items::Items;
use small_texts::fields::first_field;
use small_texts::memory_error::Memory;
use small_texts::name::Name;
use std::alloc::Global;
use std::collections::HashSet;
use text_values::names::read_names;
use text_values::refusal::ValueRefusal;

// Takes up the name of a line that has the form of a quality of service.
#[tactic(auto, unfolding(crate::specs::Qos::names_qos))]
fn add_line(alloc: Global, known: &mut HashSet<Name>, line: &[u8]) -> Result<(), Memory>
    ensures { OnOk result ((name : List ℕ)
        → contains bytes_eq known.new name ≡ (names_qos name line.now || contains bytes_eq known.old name)) }
{
    if is_skipped(line) {
        return Ok(());
    }
    let Some(form) = read_form(line) else {
        return Ok(());
    };
    match form.kind {
        LineKind::Qos => {
            let name = copy_name(alloc, form.name)?;
            known.insert(name)?;
            Ok(())
        }
        LineKind::Cluster | LineKind::Parent | LineKind::Account | LineKind::User => Ok(()),
    }
}

/// The names that the list of a quality of service may have: `normal`, and those that lines give, whatever else is
/// wrong with these. One look at each line.
#[tactic(auto, unfolding(crate::specs::Qos::may_name))]
pub(crate) fn known_qos(alloc: Global, file: &[u8]) -> Result<HashSet<Name>, Memory>
    ensures { IfOk result (λ known. (name : List ℕ)
        → contains bytes_eq known name ≡ may_name (fields (byte "\n") file.now) name) }
{
    let mut known = HashSet::new(alloc);
    let mut rest = Some(file);
    while let Some(text) = rest {
        let (line, behind) = first_field(text, b'\n');
        add_line(alloc, &mut known, line)?;
        rest = behind;
    }
    let normal = copy_name(alloc, b"normal")?;
    known.insert(normal)?;
    Ok(known)
}

fn are_known(known: &HashSet<Name>, names: &[Name]) -> bool
    ensures { result ≡ list_all (contains bytes_eq known.now) names.now }
{
    names.iter().all(|name| known.contains(name))
}

/// Names between commas, each of which is known; in their order, and as often as they stand there.
pub(crate) fn read_known_names(
    alloc: Global,
    known: &HashSet<Name>,
    text: &[u8],
) -> Result<Items<Name>, ValueRefusal>
    ensures value { IfOk result (λ names. known_names_in (contains bytes_eq known.now) text.now ≡ Some names) }
    ensures refused { IsErrOf result ValueRefusal.BadValue
        → known_names_in (contains bytes_eq known.now) text.now ≡ None }
{
    let names = read_names(alloc, text)?;
    if are_known(known, names.as_slice()) {
        Ok(names)
    } else {
        Err(ValueRefusal::BadValue)
    }
}
