// Texts of a job's options.

use crate::show::Show;
use crate::values::quantifier;
use plain_data::array::ArraySpec;
use plain_data::dependency::DepSpec;
use sbatch_reader::array::read_array;
use sbatch_reader::dependency::read_dependency;
use sbatch_reader::features::read_features;
use std::alloc::Global;
use table_lines::answer::{Unanswered, push, refused};
use text_values::refusal::ValueRefusal;

fn shown<T: Show>(alloc: Global, value: &T) -> Result<Vec<u8>, Unanswered> {
    let mut out = Vec::new(alloc);
    value.show(&mut out)?;
    Ok(out)
}

fn refused_value(alloc: Global, refusal: ValueRefusal) -> Result<Vec<u8>, Unanswered> {
    match refusal {
        ValueRefusal::Memory => Err(Unanswered::Memory),
        ValueRefusal::BadValue => refused(alloc, &refusal),
    }
}

/// The indices of an array.
pub fn array(alloc: Global, arguments: &[&[u8]]) -> Result<Vec<u8>, Unanswered> {
    let [text] = *arguments else {
        return Err(Unanswered::Arguments);
    };
    match read_array(alloc, text) {
        Ok(array) => shown(alloc, &array),
        Err(refusal) => refused_value(alloc, refusal),
    }
}

/// How many indices an array has, the least and the greatest.
pub fn array_size(alloc: Global, arguments: &[&[u8]]) -> Result<Vec<u8>, Unanswered> {
    let [text] = *arguments else {
        return Err(Unanswered::Arguments);
    };
    match read_array(alloc, text) {
        Ok(array) => size_of_array(alloc, &array),
        Err(refusal) => refused_value(alloc, refusal),
    }
}

// How many indices there are, the least and the greatest.
fn size_of_array(alloc: Global, array: &ArraySpec) -> Result<Vec<u8>, Unanswered> {
    let mut out = Vec::new(alloc);
    push(&mut out, &array.indices.count())?;
    if let Some(index) = array.indices.iter().next() {
        out.push(b' ')?;
        push(&mut out, index)?;
    }
    if let Some(index) = array.indices.iter().last() {
        out.push(b' ')?;
        push(&mut out, index)?;
    }
    Ok(out)
}

/// The jobs that a job waits for.
pub fn dependency(alloc: Global, arguments: &[&[u8]]) -> Result<Vec<u8>, Unanswered> {
    let [text] = *arguments else {
        return Err(Unanswered::Arguments);
    };
    match read_dependency(alloc, text) {
        Ok(dependency) => shown(alloc, &dependency),
        Err(refusal) => refused_value(alloc, refusal),
    }
}

/// How many items and ids a dependency has.
pub fn dependency_size(alloc: Global, arguments: &[&[u8]]) -> Result<Vec<u8>, Unanswered> {
    let [text] = *arguments else {
        return Err(Unanswered::Arguments);
    };
    match read_dependency(alloc, text) {
        Ok(dependency) => size_of_dependency(alloc, &dependency),
        Err(refusal) => refused_value(alloc, refusal),
    }
}

// How many items and ids there are.
fn size_of_dependency(alloc: Global, dependency: &DepSpec) -> Result<Vec<u8>, Unanswered> {
    let mut out = Vec::new(alloc);
    push(&mut out, &quantifier(dependency))?;
    out.push(b' ')?;
    push(&mut out, &dependency.items.as_slice().len())?;
    out.push(b' ')?;
    push(&mut out, &count_ids(dependency))?;
    Ok(out)
}

fn count_ids(dependency: &DepSpec) -> usize {
    let mut count: usize = 0;
    for item in dependency.items.as_slice() {
        count = count.saturating_add(item.ids.as_slice().len());
    }
    count
}

/// The features that a job asks for.
pub fn features(alloc: Global, arguments: &[&[u8]]) -> Result<Vec<u8>, Unanswered> {
    let [text] = *arguments else {
        return Err(Unanswered::Arguments);
    };
    match read_features(alloc, text) {
        Ok(features) => shown(alloc, &features),
        Err(refusal) => refused_value(alloc, refusal),
    }
}
