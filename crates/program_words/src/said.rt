//! What the words of slurmctld(8) say, and what they ask.

ghost use Rattle.std.specs.Prelude.{◌≡◌, ◌≤◌, ◌&&◌, not, is_some, is_none, option_map, IfSome};
ghost use Rattle.program_words.specs.Asked.{is_alone, has_one_task, has_its_files, has_its_numbers, has_its_run, has_its_state, has_its_sums, are_together, period_in, port_in, workers_in, files_of, script_of, serve_of, generate_of, task_of, asked_by};
ghost use Rattle.plain_data.specs.Files.{named_by, text_of};
ghost use Rattle.program_words.specs.Words.{said_of, asked_of, Fits};

use crate::asked::{Asked, ScriptWords, ServeWords};
use crate::period::read_period;
use generator::read_number;
use plain_data::files::FileNames;
use plain_data::period::Period;
use small_texts::digits::parse_number;

/// The port of a server that names none, as of Slurm's own slurmctld(8).
const USUAL_PORT: u16 = 6817;

/// The workers of a server that names none (own).
const USUAL_WORKERS: u32 = 4;

const MOST_WORKERS: u64 = 64;

/// Which options without a value are there, and the values of the others.
#[derive(Clone, Copy)]
pub(crate) struct Said<'a> {
    pub script: bool,
    pub serve: bool,
    pub run: bool,
    pub save: bool,
    pub conf: Option<&'a str>,
    pub assocs: Option<&'a str>,
    pub state: Option<&'a str>,
    pub port: Option<&'a str>,
    pub workers: Option<&'a str>,
    pub sacct: Option<&'a str>,
    pub generate: Option<&'a str>,
}

fn is_alone(one: bool, other: bool, third: bool) -> bool
    ensures { result ≡ is_alone one other third }
{
    one && !other && !third
}

fn has_one_task(said: &Said<'_>) -> bool
    ensures { result ≡ has_one_task (said_of said.now) }
{
    let generate = said.generate.is_some();
    is_alone(said.script, said.serve, generate)
        || is_alone(said.serve, said.script, generate)
        || is_alone(generate, said.script, said.serve)
}

fn has_its_files(said: &Said<'_>) -> bool
    ensures { result ≡ has_its_files (said_of said.now) }
{
    if said.generate.is_some() {
        said.conf.is_none() && said.assocs.is_none()
    } else {
        said.conf.is_some() && said.assocs.is_some()
    }
}

fn has_its_numbers(said: &Said<'_>) -> bool
    ensures { result ≡ has_its_numbers (said_of said.now) }
{
    said.serve || (said.port.is_none() && said.workers.is_none())
}

fn has_its_run(said: &Said<'_>) -> bool
    ensures { result ≡ has_its_run (said_of said.now) }
{
    !said.run || said.generate.is_some()
}

fn has_its_state(said: &Said<'_>) -> bool
    ensures { result ≡ has_its_state (said_of said.now) }
{
    said.generate.is_none() || (said.state.is_none() && !said.save)
}

fn has_its_sums(said: &Said<'_>) -> bool
    ensures { result ≡ has_its_sums (said_of said.now) }
{
    said.script || said.sacct.is_none()
}

fn are_together(said: &Said<'_>) -> bool
    ensures { result ≡ are_together (said_of said.now) }
{
    has_one_task(said)
        && has_its_files(said)
        && has_its_numbers(said)
        && has_its_run(said)
        && has_its_state(said)
        && has_its_sums(said)
}

fn read_sacct(text: Option<&str>) -> Option<Option<Period>>
    ensures { result ≡ period_in (text_of text.entry) }
{
    let Some(text) = text else {
        return Some(None);
    };
    match read_period(text.as_bytes()) {
        Some(period) => Some(Some(period)),
        None => None,
    }
}

fn read_port(text: Option<&str>) -> Option<u16>
    ensures { result ≡ port_in (text_of text.entry) }
{
    let Some(text) = text else {
        return Some(USUAL_PORT);
    };
    match parse_number(text.as_bytes(), 10, 65_535) {
        Some(0) | None => None,
        Some(port) => Some(port as u16),
    }
}

fn read_workers(text: Option<&str>) -> Option<u32>
    ensures value { result ≡ workers_in (text_of text.entry) }
    ensures few { IfSome result (λ workers. (1 ≤ workers) × (workers ≤ 64)) }
{
    let Some(text) = text else {
        return Some(USUAL_WORKERS);
    };
    match parse_number(text.as_bytes(), 10, MOST_WORKERS) {
        Some(0) | None => None,
        Some(workers) => Some(workers as u32),
    }
}

fn files_of<'a>(said: &Said<'a>) -> Option<FileNames<'a>>
    ensures { option_map named_by result ≡ files_of (said_of said.now) }
{
    let conf = said.conf?;
    let assocs = said.assocs?;
    Some(FileNames {
        conf,
        assocs,
        state: said.state,
    })
}

fn script_of<'a>(said: &Said<'a>) -> Option<Asked<'a>>
    ensures asked { option_map asked_of result ≡ script_of (said_of said.now) }
    ensures fits { IfSome result Fits }
{
    let files = files_of(said)?;
    let sacct = read_sacct(said.sacct)?;
    Some(Asked::Script(ScriptWords {
        files,
        sacct,
        save: said.save,
    }))
}

fn serve_of<'a>(said: &Said<'a>) -> Option<Asked<'a>>
    ensures asked { option_map asked_of result ≡ serve_of (said_of said.now) }
    ensures fits { IfSome result Fits }
{
    let files = files_of(said)?;
    let port = read_port(said.port)?;
    let workers = read_workers(said.workers)?;
    Some(Asked::Serve(ServeWords {
        files,
        port,
        workers,
        save: said.save,
    }))
}

fn generate_of<'a>(said: &Said<'a>) -> Option<Asked<'a>>
    ensures asked { option_map asked_of result ≡ generate_of (said_of said.now) }
    ensures fits { IfSome result Fits }
{
    let number = read_number(said.generate?.as_bytes())?;
    if said.run {
        Some(Asked::Simulate(number))
    } else {
        Some(Asked::Generate(number))
    }
}

fn task_of<'a>(said: &Said<'a>) -> Option<Asked<'a>>
    ensures asked { option_map asked_of result ≡ task_of (said_of said.now) }
    ensures fits { IfSome result Fits }
{
    if said.script {
        script_of(said)
    } else if said.serve {
        serve_of(said)
    } else {
        generate_of(said)
    }
}

/// What is asked by what is there; None where it may not stand together, or a number is off.
#[tactic(auto, unfolding(crate::specs::Asked::asked_by))]
pub(crate) fn asked_by<'a>(said: &Said<'a>) -> Option<Asked<'a>>
    ensures asked { option_map asked_of result ≡ asked_by (said_of said.now) }
    ensures fits { IfSome result Fits }
{
    if are_together(said) {
        task_of(said)
    } else {
        None
    }
}
