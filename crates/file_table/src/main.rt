//! A table of files of several kinds: for each what it says, or its first fault. In the input a line `== KIND NAME` begins a
//! file: `conf` a slurm.conf, `assoc` an association file, `state` a saved state, `swf` and `sacct` a trace, `picture`
//! what a picture shows. In one that begins with `=~` the last line has no line feed.
#![tactic(auto)]

mod assoc;
mod conf;
mod drawing;
mod repeats;
mod scene;
mod shown;
mod state;
mod trace;
mod trace_jobs;

use std::alloc::Global;
use std::io;
use std::io::Read;
use table_lines::cases::next_case;
use trace_text::TraceKind;

// What a file says, by the line that begins it.
fn answer(rt: &impl Print, alloc: Global, name: &[u8], file: &[u8]) -> io::Result<()> {
    match kind_of(name) {
        b"conf" => conf::answer(rt, alloc, file),
        b"assoc" => assoc::answer(rt, alloc, file),
        b"state" => state::answer(rt, alloc, file),
        b"swf" => trace::answer(rt, alloc, TraceKind::Swf, file),
        b"sacct" => trace::answer(rt, alloc, TraceKind::Sacct, file),
        b"picture" => drawing::answer(rt, alloc, file),
        _ => rt.println("no such kind"),
    }
}

// The word behind the sign that begins a file.
fn kind_of(name: &[u8]) -> &[u8] {
    name.split(|b| *b == b' ').nth(1).unwrap_or(b"")
}

fn main(rt: HostRuntime) -> io::Result<()> {
    let mut text = Vec::new(rt.alloc());
    rt.stdin().read_to_end(&mut text)?;
    let mut rest = text.as_slice();
    while let Some(case) = next_case(rest) {
        rt.write_all(case.name)?;
        answer(&rt, rt.alloc(), case.name, case.file)?;
        rest = case.rest;
    }
    Ok(())
}
