// What a line of the table asks.

/// The desks that a simulation is run over.
#[derive(Clone, Copy)]
pub enum Desks {
    /// One that owns its book.
    Own,
    /// So many at the book of one lock.
    Locked(u32),
}

/// A simulation.
#[derive(Clone, Copy)]
pub struct Asked {
    /// The number that its script is drawn from.
    pub number: u32,
    pub desks: Desks,
}

fn desks_in(text: &str) -> Option<Desks> {
    match text.split_once(' ') {
        None if text == "own" => Some(Desks::Own),
        Some(("locked", count)) => Some(Desks::Locked(count.parse::<u32>().ok()?)),
        _ => None,
    }
}

/// The simulation of a line such as `7 own` or `7 locked 8`.
pub fn asked_in(line: &str) -> Option<Asked> {
    let (number, desks) = line.split_once(' ')?;
    Some(Asked {
        number: number.parse::<u32>().ok()?,
        desks: desks_in(desks)?,
    })
}
