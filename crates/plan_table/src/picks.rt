// The choice of nodes for a job's tasks.

use crate::numbers::narrow_row;
use resource_profile::{Dealt, Need, pick as pick_places};
use std::alloc::Global;
use table_lines::answer::{Unanswered, push, taken};
use table_lines::fields::narrow_numbers;

// `PLACE:TASKS` for each place.
fn dealt_text(alloc: Global, dealt: &[Dealt]) -> Result<Vec<u8>, Unanswered> {
    let mut out = Vec::new(alloc);
    for part in dealt {
        let (place, tasks) = (part.place, part.tasks);
        push(&mut out, &format_args!("{place}:{tasks} "))?;
    }
    Ok(out)
}

// The tasks, and the least, the most and the required places.
fn need(alloc: Global, words: &[&[u8]]) -> Result<Need, Unanswered> {
    let [tasks, least, most, required] = *narrow_row(alloc, words)?.as_slice() else {
        return Err(Unanswered::Arguments);
    };
    Ok(Need {
        tasks,
        least,
        most,
        required,
    })
}

// The chosen places with their tasks.
fn pick_from(alloc: Global, capacities: &[u32], need: &Need) -> Result<Vec<u8>, Unanswered> {
    let mut dealt = Vec::new(alloc);
    if pick_places(alloc, capacities, need, &mut dealt)? {
        dealt_text(alloc, dealt.as_slice())
    } else {
        taken(alloc, &"none")
    }
}

/// The chosen places with their tasks, where the places can take as many tasks as the first word says, and the others
/// are the need.
pub fn pick(alloc: Global, words: &[&[u8]]) -> Result<Vec<u8>, Unanswered> {
    let Some((capacities, rest)) = words.split_first() else {
        return Err(Unanswered::Arguments);
    };
    let need = need(alloc, rest)?;
    let capacities = narrow_numbers(alloc, capacities, b',')?;
    pick_from(alloc, capacities.as_slice(), &need)
}
