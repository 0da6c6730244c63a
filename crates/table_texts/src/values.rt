//! Values of single pairs of scontrol(1)'s lines.

ghost use Rattle.std.specs.Prelude.{◌≡◌, ◌∷◌, ◌++◌, flat_map, OnOk};
ghost use Rattle.std.specs.Str.{byte};
ghost use Rattle.table_texts.specs.Values.{number_or_null, moment_or_null, hosts_or_null, names_or_null};

use crate::columns::push_moment;
use crate::sinfo::push_names;
use plain_data::seconds::Second;
use small_texts::memory_error::Memory;
use small_texts::name::Name;
use small_texts::pieces::{push_number, push_text};
use std::alloc::Global;

/// Writes the bytes, which are a key and its sign, and a text behind them.
pub fn push_pair(out: &mut Vec<u8>, key: &[u8], text: &[u8]) -> Result<(), Memory>
    ensures { OnOk result (out.new.items ≡ out.old.items ++ key.now ++ text.now) }
{
    push_text(out, key)?;
    push_text(out, text)
}

/// Writes the bytes, which are a key and its sign, and a number behind them, if there is one.
pub fn push_number_or_null(out: &mut Vec<u8>, key: &[u8], number: Option<u32>) -> Result<(), Memory>
    ensures { OnOk result (out.new.items ≡ out.old.items ++ key.now ++ number_or_null number) }
{
    push_text(out, key)?;
    match number {
        Some(number) => push_number(out, u64::from(number)),
        None => push_text(out, b"(null)"),
    }
}

/// Writes a moment, if there is one.
pub fn push_moment_or_null(out: &mut Vec<u8>, second: Option<Second>) -> Result<(), Memory>
    ensures { OnOk result (out.new.items ≡ out.old.items ++ moment_or_null second) }
{
    match second {
        Some(second) => push_moment(out, second),
        None => push_text(out, b"(null)"),
    }
}

/// Writes the names of hosts, folded. It sorts them, which takes memory beside `out`.
pub fn push_hosts_or_null(alloc: Global, out: &mut Vec<u8>, names: &[Name]) -> Result<(), Memory>
    ensures { OnOk result (out.new.items ≡ out.old.items ++ hosts_or_null names.now) }
{
    if names.is_empty() {
        return push_text(out, b"(null)");
    }
    push_names(alloc, out, names)
}

fn push_later_names(out: &mut Vec<u8>, names: &[Name]) -> Result<(), Memory>
    ensures { OnOk result (out.new.items ≡ out.old.items ++ flat_map (λ name. byte "," ∷ name) names.now) }
{
    for name in names {
        push_text(out, b",")?;
        push_text(out, name.as_bytes())?;
    }
    Ok(())
}

/// Writes the names with commas between them.
pub fn push_names_or_null(out: &mut Vec<u8>, names: &[Name]) -> Result<(), Memory>
    ensures { OnOk result (out.new.items ≡ out.old.items ++ names_or_null names.now) }
{
    let Some((first, others)) = names.split_first() else {
        return push_text(out, b"(null)");
    };
    push_text(out, first.as_bytes())?;
    push_later_names(out, others)
}
