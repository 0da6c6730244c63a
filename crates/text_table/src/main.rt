//! Calls the functions of small texts that the lines of a table name, and prints each line with the answer.
#![tactic(auto)]

mod blocks;
mod calls;
mod hosts;
mod lines;
mod numbers;
mod priorities;
mod replies;
mod rows;
mod scripts;
mod texts;
mod times;
mod trees;
mod views;
mod words;

use std::alloc::Global;
use std::io;
use table_lines::answer::Unanswered;
use table_lines::table::{answers, print_answers};

fn answer(alloc: Global, function: &str, arguments: &[&[u8]]) -> Result<Vec<u8>, Unanswered> {
    match function {
        "name" => texts::name(alloc, arguments),
        "job_name" => texts::job_name(alloc, arguments),
        "number" => texts::number(alloc, arguments),
        "memory" => texts::memory(alloc, arguments),
        "moment" => texts::moment(alloc, arguments),
        "print_moment" => texts::print_moment(alloc, arguments),
        "expand" => hosts::expand(alloc, arguments),
        "count" => hosts::count(alloc, arguments),
        "fold" => hosts::fold(alloc, arguments),
        "split" => words::split(alloc, arguments),
        "quote" => words::quote(alloc, arguments),
        _ => answer_of_others(alloc, function, arguments),
    }
}

// The functions of times, of whole lines, blocks, replies and calls.
fn answer_of_others(
    alloc: Global,
    function: &str,
    arguments: &[&[u8]],
) -> Result<Vec<u8>, Unanswered> {
    match function {
        "limit" => times::limit(alloc, arguments),
        "elapsed" => times::elapsed(alloc, arguments),
        "compare" => times::compare(alloc, arguments),
        "scaled" => times::scaled(alloc, arguments),
        "cut" => blocks::cut(alloc, arguments),
        "frames" => blocks::frames(alloc, arguments),
        "reply" => replies::written(alloc, arguments),
        "said" => replies::said(alloc, arguments),
        "call" => calls::call(alloc, arguments),
        "call_with_script" => calls::call_with_script(alloc, arguments),
        "address" => calls::address(alloc, arguments),
        "row" => lines::row(alloc, arguments),
        "line" => lines::line(alloc, arguments),
        "titles" => lines::titles(alloc, arguments),
        "priority" => priorities::priority(alloc, arguments),
        "titled_priority" => priorities::titled_priority(alloc, arguments),
        "ranks" => trees::ranks(alloc, arguments),
        _ => answer_of_scripts(alloc, function, arguments),
    }
}

// The functions of scripts that are drawn from a number.
fn answer_of_scripts(
    alloc: Global,
    function: &str,
    arguments: &[&[u8]],
) -> Result<Vec<u8>, Unanswered> {
    match function {
        "script_number" => scripts::number(alloc, arguments),
        "script_lines" => scripts::lines(alloc, arguments),
        "script_digest" => scripts::digest(alloc, arguments),
        _ => Err(Unanswered::Arguments),
    }
}

fn main(rt: HostRuntime) -> io::Result<()> {
    print_answers(&rt, |alloc, table| answers(alloc, table, "|", answer))
}
