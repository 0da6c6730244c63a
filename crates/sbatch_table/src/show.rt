//! How values are shown.

use plain_data::boxed::Boxed;
use plain_data::ranged::{LongRanged, Ranged};
use std::fmt::Debug;
use table_lines::answer::{Unanswered, push};

/// A value that an answer shows.
pub trait Show {
    /// Puts the value's text behind an answer.
    fn show(&self, out: &mut Vec<u8>) -> Result<(), Unanswered>;
}

/// Puts the name of an enum's variant behind an answer.
pub fn push_variant<T: Debug>(out: &mut Vec<u8>, value: &T) -> Result<(), Unanswered> {
    let text = format!(in *out.allocator(); "{value:?}")?;
    out.extend_from_slice(text.as_bytes())?;
    Ok(())
}

/// Puts values behind an answer, with a mark between two.
pub fn show_joined<T: Show>(
    out: &mut Vec<u8>,
    values: &[T],
    mark: &[u8],
) -> Result<(), Unanswered> {
    for (place, value) in values.iter().enumerate() {
        if place > 0 {
            out.extend_from_slice(mark)?;
        }
        value.show(out)?;
    }
    Ok(())
}

/// Puts a mark and values behind an answer, with a comma between two.
pub fn push_listed<T: Show>(
    out: &mut Vec<u8>,
    mark: &[u8],
    values: &[T],
) -> Result<(), Unanswered> {
    out.extend_from_slice(mark)?;
    show_joined(out, values, b",")
}

/// Puts a mark and a value behind an answer.
pub fn push_marked<T: Show>(out: &mut Vec<u8>, mark: &[u8], value: &T) -> Result<(), Unanswered> {
    out.extend_from_slice(mark)?;
    value.show(out)
}

/// Puts a mark and a value behind an answer, where there is a value.
pub fn push_if_some<T: Show>(
    out: &mut Vec<u8>,
    mark: &[u8],
    value: Option<&T>,
) -> Result<(), Unanswered> {
    match value {
        Some(value) => push_marked(out, mark, value),
        None => Ok(()),
    }
}

/// Puts a field behind others, where it has a value.
pub fn push_field<T: Show>(
    out: &mut Vec<u8>,
    name: &str,
    value: Option<&T>,
) -> Result<(), Unanswered> {
    let Some(value) = value else {
        return Ok(());
    };
    if !out.is_empty() {
        out.extend_from_slice(b"; ")?;
    }
    out.extend_from_slice(name.as_bytes())?;
    out.push(b'=')?;
    value.show(out)
}

/// The fields, or `-` where there are none.
pub fn or_dash(fields: Vec<u8>) -> Result<Vec<u8>, Unanswered> {
    let mut out = fields;
    if out.is_empty() {
        out.push(b'-')?;
    }
    Ok(out)
}

impl Show for u32 {
    fn show(&self, out: &mut Vec<u8>) -> Result<(), Unanswered> {
        push(out, self)
    }
}

impl Show for u64 {
    fn show(&self, out: &mut Vec<u8>) -> Result<(), Unanswered> {
        push(out, self)
    }
}

impl Show for bool {
    fn show(&self, out: &mut Vec<u8>) -> Result<(), Unanswered> {
        push(out, self)
    }
}

impl<const LEAST: u32, const MOST: u32> Show for Ranged<LEAST, MOST> {
    fn show(&self, out: &mut Vec<u8>) -> Result<(), Unanswered> {
        push(out, &self.get())
    }
}

impl<const LEAST: u64, const MOST: u64> Show for LongRanged<LEAST, MOST> {
    fn show(&self, out: &mut Vec<u8>) -> Result<(), Unanswered> {
        push(out, &self.get())
    }
}

impl<T: Show> Show for Boxed<T> {
    fn show(&self, out: &mut Vec<u8>) -> Result<(), Unanswered> {
        self.value().show(out)
    }
}
