//! Runs slurmd over objects in memory, reads the texts of orders, and follows the daemon of a node, as the lines of a table
//! say, and prints each line with what comes of it.
#![tactic(auto)]

mod daemon;
mod orders;
mod runs;

use std::alloc::Global;
use std::io;
use table_lines::answer::Unanswered;
use table_lines::table::{answers, print_answers};

fn answer(alloc: Global, function: &str, arguments: &[&[u8]]) -> Result<Vec<u8>, Unanswered> {
    match function {
        "daemon" => daemon::follow(alloc, arguments),
        "orders" => orders::read(alloc, arguments),
        "slurmd" => runs::run(alloc, arguments),
        _ => Err(Unanswered::Arguments),
    }
}

fn main(rt: HostRuntime) -> io::Result<()> {
    print_answers(&rt, |alloc, table| answers(alloc, table, "|", answer))
}
