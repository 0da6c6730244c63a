//! Calls the choice of nodes, profiles and plans that the lines of a table name, and prints each line with the answer.
#![tactic(auto)]

mod barring;
mod chance;
mod jobs;
mod numbers;
mod picks;
mod plans;
mod profiles;
mod replans;
mod scenes;
mod sums;

use std::alloc::Global;
use std::io;
use table_lines::answer::Unanswered;
use table_lines::table::{answers, print_answers};

fn answer(alloc: Global, function: &str, arguments: &[&[u8]]) -> Result<Vec<u8>, Unanswered> {
    match function {
        "pick" => picks::pick(alloc, arguments),
        "plan" => plans::plan(alloc, arguments),
        "free" => profiles::free(alloc, arguments),
        "rise" => profiles::rise(alloc, arguments),
        "replan" => replans::replan(alloc, arguments),
        "replans" => replans::replans(alloc, arguments),
        "scene" => scenes::scene(alloc, arguments),
        _ => Err(Unanswered::Arguments),
    }
}

fn main(rt: HostRuntime) -> io::Result<()> {
    print_answers(&rt, |alloc, table| answers(alloc, table, "|", answer))
}
