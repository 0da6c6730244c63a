// Nodes and what is held of them.
ghost use Rattle.std.specs.Prelude.{◌≡◌, IfOk};

use resource_profile::{Hold, NodeRoom, Profile};
use std::alloc::Global;
use table_lines::answer::{Unanswered, taken};
use table_lines::fields::{narrow_number, number, parts};

// Processors and megabytes.
fn sizes(cpus: &[u8], mem: &[u8]) -> Result<(u32, u64), Unanswered> {
    let cpus = narrow_number(cpus)?;
    let mem = number(mem)?;
    Ok((cpus, mem))
}

// The words of a room.
fn room_of(words: &[&[u8]]) -> Result<NodeRoom, Unanswered> {
    let (cpus, mem, usable) = match *words {
        [cpus, mem] => (cpus, mem, true),
        [cpus, mem, mark] if mark == b"unusable".as_slice() => (cpus, mem, false),
        _ => return Err(Unanswered::Arguments),
    };
    let (cpus, mem) = sizes(cpus, mem)?;
    Ok(NodeRoom { cpus, mem, usable })
}

// `CPUS/MEM`, or `CPUS/MEM/unusable` of a node that no plan may use.
fn room(alloc: Global, text: &[u8]) -> Result<NodeRoom, Unanswered> {
    room_of(parts(alloc, text, b'/')?.as_slice())
}

/// The rooms of nodes, as `4/4000,1/8000`.
pub fn rooms(alloc: Global, text: &[u8]) -> Result<Vec<NodeRoom>, Unanswered> {
    let mut rooms = Vec::new(alloc);
    for text in &parts(alloc, text, b',')? {
        rooms.push(room(alloc, text)?)?;
    }
    Ok(rooms)
}

// A node, and a window's first second and the one behind its last.
fn window(node: &[u8], from: &[u8], until: &[u8]) -> Result<(u32, u64, u64), Unanswered> {
    let node = narrow_number(node)?;
    let from = number(from)?;
    let until = number(until)?;
    Ok((node, from, until))
}

// The words of a hold.
fn hold_of(words: &[&[u8]]) -> Result<Hold, Unanswered> {
    let [node, from, until, cpus, mem] = *words else {
        return Err(Unanswered::Arguments);
    };
    let (node, from, until) = window(node, from, until)?;
    let (cpus, mem) = sizes(cpus, mem)?;
    Ok(Hold {
        node,
        from,
        until,
        cpus,
        mem,
    })
}

// `NODE/FROM/UNTIL/CPUS/MEM`.
fn hold(alloc: Global, text: &[u8]) -> Result<Hold, Unanswered> {
    hold_of(parts(alloc, text, b'/')?.as_slice())
}

/// Adds the hold where so much is free.
pub fn try_hold(profile: &mut Profile, rooms: &[NodeRoom], hold: &Hold) -> Result<(), Unanswered>
    requires { profile.old.rooms ≡ rooms.now }
    ensures { profile.new.rooms ≡ profile.old.rooms }
{
    if hold.until <= hold.from || hold.node as usize >= rooms.len() {
        return Ok(());
    }
    let (cpus, mem) = profile.free_min(hold.node, hold.from, hold.until);
    if hold.cpus > cpus || hold.mem > mem {
        return Ok(());
    }
    match profile.hold(hold) {
        Ok(()) => Ok(()),
        Err(_) => Err(Unanswered::Memory),
    }
}

// Adds those of the holds that have room, one after another.
fn try_holds(
    alloc: Global,
    profile: &mut Profile,
    rooms: &[NodeRoom],
    holds: &[u8],
) -> Result<(), Unanswered>
    requires { profile.old.rooms ≡ rooms.now }
    ensures { profile.new.rooms ≡ profile.old.rooms }
{
    if holds.is_empty() {
        return Ok(());
    }
    for text in &parts(alloc, holds, b',')? {
        let hold = hold(alloc, text)?;
        try_hold(profile, rooms, &hold)?;
    }
    Ok(())
}

/// The rooms with those of the holds that have room, one after another.
pub fn held(alloc: Global, rooms: &[NodeRoom], holds: &[u8]) -> Result<Profile, Unanswered>
    ensures { IfOk result (λ profile. profile.rooms ≡ rooms.now) }
{
    let mut profile = Profile::new(alloc, rooms)?;
    try_holds(alloc, &mut profile, rooms, holds)?;
    Ok(profile)
}

fn profile_of(alloc: Global, rooms_text: &[u8], holds: &[u8]) -> Result<Profile, Unanswered> {
    let rooms = rooms(alloc, rooms_text)?;
    held(alloc, rooms.as_slice(), holds)
}

// The least that is free of a node over a window, as `CPUS/MEM`.
fn least_free(
    alloc: Global,
    profile: &Profile,
    node: &[u8],
    from: &[u8],
    until: &[u8],
) -> Result<Vec<u8>, Unanswered> {
    let (node, from, until) = window(node, from, until)?;
    if until <= from {
        return Err(Unanswered::Arguments);
    }
    let (cpus, mem) = profile.free_min(node, from, until);
    taken(alloc, &format_args!("{cpus}/{mem}"))
}

/// The least that is free of a node over a window, as text: the words are rooms, holds, the node, and the window.
pub fn free(alloc: Global, words: &[&[u8]]) -> Result<Vec<u8>, Unanswered> {
    let [rooms_text, holds, node, from, until] = *words else {
        return Err(Unanswered::Arguments);
    };
    let profile = profile_of(alloc, rooms_text, holds)?;
    least_free(alloc, &profile, node, from, until)
}

/// The next end of a hold that is later than a second: the words are rooms, holds, and the second.
pub fn rise(alloc: Global, words: &[&[u8]]) -> Result<Vec<u8>, Unanswered> {
    let [rooms_text, holds, after] = *words else {
        return Err(Unanswered::Arguments);
    };
    let after = number(after)?;
    let end = profile_of(alloc, rooms_text, holds)?.next_rise(after);
    match end {
        Some(end) => taken(alloc, &end),
        None => taken(alloc, &"none"),
    }
}
