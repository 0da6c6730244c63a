//! Runs simulations over desks of two kinds, as the lines of a table say, and prints the line that tells of each.
#![tactic(auto)]

mod asked;
mod desks;
mod table;

use std::io;

fn main(rt: HostRuntime) -> io::Result<()> {
    let alloc = rt.alloc();
    let text = io::read_to_string(alloc, rt.reader())?;
    let answers = table::answers(&rt, alloc, text.as_str())?;
    print!(rt; "{answers}")
}
