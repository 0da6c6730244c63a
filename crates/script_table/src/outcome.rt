// What a run of the program comes to.
ghost use Rattle.std.specs.Prelude.{◌<◌, All, IfOk, IfSome};
ghost use Rattle.slurm_net.specs.MemHost.{IsUnusedDoor};
ghost use Rattle.slurm_net.specs.Unused.{IsUnused};

use crate::case::Case;
use slurm_io::{MemLink, MemShelf, Pair};
use slurm_net::{MemClock, MemDoor, MemHost};
use slurm_top::run;
use std::alloc::{AllocError, Global};
use std::sync::Wait;
use std::thread::Threads;

/// What a run ended with, what it wrote and what it told.
#[derive(Drop)]
pub struct Outcome {
    pub status: u8,
    pub output: Vec<u8>,
    pub errors: Vec<u8>,
    /// What the dialled link had taken when it was hung up.
    pub sent: Vec<u8>,
    /// What the links had taken that came to its door, one after the other.
    pub replies: Vec<Vec<u8>>,
}

impl Outcome {
    /// Whether both runs came to the same.
    pub fn is(&self, other: &Outcome) -> bool {
        self.status == other.status
            && self.output.as_slice() == other.output.as_slice()
            && self.errors.as_slice() == other.errors.as_slice()
            && self.sent.as_slice() == other.sent.as_slice()
            && self.replies.len() == other.replies.len()
    }
}

fn words_of(alloc: Global, text: &str) -> Result<Vec<String>, AllocError> {
    let mut words = Vec::new(alloc);
    for word in text.split_whitespace() {
        words.push(String::from_str(alloc, word)?)?;
    }
    Ok(words)
}

// What is no number is passed over.
fn numbers_of(alloc: Global, text: &str) -> Result<Vec<u64>, AllocError> {
    let mut numbers = Vec::new(alloc);
    for word in text.split_whitespace() {
        if let Ok(number) = word.parse::<u64>() {
            numbers.push(number)?;
        }
    }
    Ok(numbers)
}

// The shelf of the case, with its files.
fn shelf_of(alloc: Global, case: &Case<'_>) -> Result<MemShelf, AllocError> {
    let conf_name = String::from_str(alloc, "slurm.conf")?;
    let conf = Vec::from_slice(alloc, case.conf())?;
    let assocs_name = String::from_str(alloc, "site.assoc")?;
    let assocs = Vec::from_slice(alloc, case.assocs())?;
    let failing = numbers_of(alloc, case.failing_files)?;
    let mut files = vec![in alloc; (conf_name, conf), (assocs_name, assocs)]?;
    if let Some(state) = &case.state {
        let name = String::from_str(alloc, "saved.state")?;
        files.push((name, Vec::from_slice(alloc, state.as_slice())?))?;
    }
    Ok(MemShelf::new(files, failing))
}

// A link that asks these bytes.
fn link_asking(alloc: Global, asked: &[u8], most: u32) -> Result<MemLink, AllocError>
    requires { 0 < most }
    ensures { IfOk result IsUnused }
{
    let bytes = Vec::from_slice(alloc, asked)?;
    Ok(MemLink::new(alloc, bytes, most, Vec::new(alloc), Vec::new(alloc)))
}

// The links that come to the door of the case.
fn links_of(alloc: Global, case: &Case<'_>, most: u32) -> Result<Vec<Option<MemLink>>, AllocError>
    requires { 0 < most }
    ensures { IfOk result (λ links. All (λ link. IfSome link IsUnused) links.items) }
{
    let mut links = Vec::new(alloc);
    for asked in case.coming.iter() {
        links.push(Some(link_asking(alloc, asked.as_slice(), most)?))?;
    }
    Ok(links)
}

// The door of the case.
fn door_of(alloc: Global, case: &Case<'_>, most: u32) -> Result<MemDoor, AllocError>
    requires { 0 < most }
    ensures { IfOk result IsUnusedDoor }
{
    let links = links_of(alloc, case, most)?;
    MemDoor::new(alloc, links, Vec::new(alloc))
}

// A host with the one link and the one door of the case.
fn host_of(alloc: Global, case: &Case<'_>, most: u32) -> Result<MemHost, AllocError>
    requires { 0 < most }
{
    let bytes = Vec::from_slice(alloc, case.reply.as_slice())?;
    let reads = numbers_of(alloc, case.failing_link_reads)?;
    let writes = numbers_of(alloc, case.failing_link_writes)?;
    let dials = numbers_of(alloc, case.failing_dials)?;
    let link = MemLink::new(alloc, bytes, most, reads, writes);
    let links = vec![in alloc; link]?;
    let doors = vec![in alloc; door_of(alloc, case, most)?]?;
    Ok(MemHost::new(alloc, doors, links, dials))
}

// What the link that was hung up last had taken.
fn sent_by(alloc: Global, host: &MemHost) -> Result<Vec<u8>, AllocError> {
    match host.last() {
        Some(link) => Vec::from_slice(alloc, link.taken()),
        None => Ok(Vec::new(alloc)),
    }
}

// What the links had taken that came to the doors which were closed.
fn replies_by(alloc: Global, host: &MemHost) -> Result<Vec<Vec<u8>>, AllocError> {
    let mut replies = Vec::new(alloc);
    for door in host.closed() {
        for session in door.sessions() {
            replies.push(Vec::from_slice(alloc, session.link.taken())?)?;
        }
    }
    Ok(replies)
}

// What takes the errors of the case.
fn errors_of(alloc: Global, case: &Case<'_>) -> Result<MemLink, AllocError> {
    let failing = numbers_of(alloc, case.failing_errors)?;
    Ok(MemLink::new(alloc, Vec::new(alloc), 64, Vec::new(alloc), failing))
}

/// Runs the case with at most so many bytes a call.
pub fn outcome_of<R: Threads + Wait + Sync>(
    rt: &R,
    alloc: Global,
    case: &Case<'_>,
    most: u32,
) -> Result<Outcome, AllocError>
    requires { 0 < most }
{
    let words = words_of(alloc, case.words)?;
    let mut shelf = shelf_of(alloc, case)?;
    let bytes = Vec::from_slice(alloc, case.input.as_slice())?;
    let reads = numbers_of(alloc, case.failing_reads)?;
    let writes = numbers_of(alloc, case.failing_writes)?;
    let input = MemLink::new(alloc, bytes, most, reads, Vec::new(alloc));
    let output = MemLink::new(alloc, Vec::new(alloc), most, Vec::new(alloc), writes);
    let mut link = Pair::new(input, output);
    let mut errors = errors_of(alloc, case)?;
    let mut host = host_of(alloc, case, most)?;
    let status = run(
        rt,
        alloc,
        words.as_slice(),
        &mut shelf,
        &mut link,
        &mut errors,
        &mut MemClock::new(1000, 1),
        &mut host,
    );
    Ok(Outcome {
        status,
        output: Vec::from_slice(alloc, link.sink.taken())?,
        errors: Vec::from_slice(alloc, errors.taken())?,
        sent: sent_by(alloc, &host)?,
        replies: replies_by(alloc, &host)?,
    })
}
