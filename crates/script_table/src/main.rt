//! Runs the scripts of a table, each by the program over objects in memory, and prints what each comes to.
#![tactic(auto)]

mod case;
mod outcome;
mod print;
mod table;

use std::io;

fn main(rt: HostRuntime) -> io::Result<()> {
    let alloc = rt.alloc();
    let text = io::read_to_string(alloc, rt.reader())?;
    let answers = table::answers(&rt, alloc, text.as_str())?;
    print!(rt; "{answers}")
}
