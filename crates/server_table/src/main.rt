//! Serves a small cluster over doors in memory, as the cases of a table say, whose parts wait for one another at gates, and
//! prints what each server comes to.
#![tactic(auto)]

mod alone;
mod case;
mod cluster;
mod gates;
mod print;
mod replies;
mod running;
mod step;
mod table;

use std::io;

fn main(rt: HostRuntime) -> io::Result<()> {
    let alloc = rt.alloc();
    let text = io::read_to_string(alloc, rt.reader())?;
    let answers = table::answers(&rt, alloc, text.as_str())?;
    print!(rt; "{answers}")
}
