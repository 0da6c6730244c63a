// What gates do.

/// A part of the server that has a gate.
#[derive(Clone, Copy, PartialEq, Eq)]
pub enum Part {
    /// The worker of the door of this number, counted from 1.
    Worker(u32),
    Planner,
}

/// What is done about an event.
#[derive(Clone, Copy, PartialEq, Eq)]
pub enum Act {
    Tells,
    Waits,
}

/// What the gate of a part does at one of its passes, counted from 1.
#[derive(Clone, Copy)]
pub struct Step {
    pub part: Part,
    pub pass: u32,
    pub act: Act,
    /// The number of the event.
    pub event: usize,
}

fn part_in(text: &str) -> Option<Part> {
    if text == "planner" {
        return Some(Part::Planner);
    }
    match text.split_once(' ') {
        Some(("worker", number)) => Some(Part::Worker(number.parse::<u32>().ok()?)),
        _ => None,
    }
}

fn act_in(word: &str) -> Option<Act> {
    match word {
        "tells" => Some(Act::Tells),
        "waits" => Some(Act::Waits),
        _ => None,
    }
}

/// The step of a text such as `worker 1 pass 2 tells 0`.
pub fn step_in(text: &str) -> Option<Step> {
    let (part, rest) = text.split_once(" pass ")?;
    let (pass, rest) = rest.split_once(' ')?;
    let (act, event) = rest.split_once(' ')?;
    Some(Step {
        part: part_in(part)?,
        pass: pass.parse::<u32>().ok()?,
        act: act_in(act)?,
        event: event.parse::<usize>().ok()?,
    })
}
