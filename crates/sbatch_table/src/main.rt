//! Reads the words of commands that the lines of a table hold, and prints each line with what they mean.
#![tactic(auto)]

mod changes;
mod commands;
mod description;
mod headers;
mod jobs;
mod queries;
mod reports;
mod requests;
mod show;
mod targets;
mod texts;
mod values;

use std::alloc::Global;
use std::io;
use table_lines::answer::Unanswered;
use table_lines::table::{answers, print_answers};

fn answer(alloc: Global, function: &str, arguments: &[&[u8]]) -> Result<Vec<u8>, Unanswered> {
    match function {
        "job" => jobs::job(alloc, arguments),
        "header" => headers::header(alloc, arguments),
        "command" => commands::command(alloc, arguments),
        "array" => texts::array(alloc, arguments),
        "array_size" => texts::array_size(alloc, arguments),
        "dependency" => texts::dependency(alloc, arguments),
        "dependency_size" => texts::dependency_size(alloc, arguments),
        "features" => texts::features(alloc, arguments),
        "script_word" => jobs::script(alloc, arguments),
        _ => Err(Unanswered::Arguments),
    }
}

fn main(rt: HostRuntime) -> io::Result<()> {
    print_answers(&rt, |alloc, table| answers(alloc, table, " => ", answer))
}
