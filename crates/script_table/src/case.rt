// A script and what it is run with.

use percent_encoding::percent_decode;
use std::alloc::{AllocError, Global};

/// The file slurm.conf(5) of a case that has none of its own.
const USUAL_CONF: &[u8] = b"ClusterName=c\nSlurmdTimeout=0\nDefMemPerCPU=1000\n\
    NodeName=n1 CPUs=4 RealMemory=4000\nPartitionName=main Nodes=ALL Default=YES\n";

/// The association file of a case that has none of its own.
const USUAL_ASSOCS: &[u8] = b"Cluster - 'c'\nParent - 'root'\nAccount - 'acct'\nParent - 'acct'\n\
    User - 'alice'\nUser - 'bob'\n";

/// The lines of a case that were read so far. Lists are numbers with a blank between two.
#[derive(Drop)]
pub struct Case<'a> {
    /// The words of the command, with a blank between two.
    pub words: &'a str,
    /// How many bytes a read gives and a write takes at most, one number a run.
    pub pieces: &'a str,
    /// The numbers of the reads of files that fail, counted from 1.
    pub failing_files: &'a str,
    /// The numbers of the reads that fail, counted from 1.
    pub failing_reads: &'a str,
    /// The numbers of the writes that fail, counted from 1.
    pub failing_writes: &'a str,
    /// The numbers of the writes of the errors that fail, counted from 1.
    pub failing_errors: &'a str,
    /// The numbers of the dials that fail, counted from 1.
    pub failing_dials: &'a str,
    /// The numbers of the reads and of the writes of the dialled link that fail, counted from 1.
    pub failing_link_reads: &'a str,
    pub failing_link_writes: &'a str,
    /// How many lines of the output are shown at most.
    pub shown: u32,
    /// The file slurm.conf(5), where the case has one of its own.
    pub conf: Option<Vec<u8>>,
    /// The association file, where the case has one of its own.
    pub assocs: Option<Vec<u8>>,
    /// The saved state `saved.state`, where the case has one.
    pub state: Option<Vec<u8>>,
    /// The links that come to the one door of its host, each with the bytes that it asks.
    pub coming: Vec<Vec<u8>>,
    /// The bytes that the program reads.
    pub input: Vec<u8>,
    /// The bytes that the dialled link has.
    pub reply: Vec<u8>,
}

impl<'a> Case<'a> {
    /// An empty script that is answered in pieces of one byte and of many.
    pub fn new(alloc: Global) -> Self {
        Case {
            words: "slurmctld --script -f slurm.conf -a site.assoc",
            pieces: "4096 1",
            failing_files: "",
            failing_reads: "",
            failing_writes: "",
            failing_errors: "",
            failing_dials: "",
            failing_link_reads: "",
            failing_link_writes: "",
            shown: u32::MAX,
            conf: None,
            assocs: None,
            state: None,
            coming: Vec::new(alloc),
            input: Vec::new(alloc),
            reply: Vec::new(alloc),
        }
    }

    /// The bytes of its file slurm.conf(5).
    pub fn conf(&self) -> &[u8] {
        match &self.conf {
            Some(conf) => conf.as_slice(),
            None => USUAL_CONF,
        }
    }

    /// The bytes of its association file.
    pub fn assocs(&self) -> &[u8] {
        match &self.assocs {
            Some(assocs) => assocs.as_slice(),
            None => USUAL_ASSOCS,
        }
    }

    /// Takes a line of the case that begins with this key. False where no line does.
    pub fn take(&mut self, key: &str, text: &'a str) -> Result<bool, AllocError> {
        let alloc = *self.input.allocator();
        match key {
            "words" => self.words = text,
            "pieces" => self.pieces = text,
            "files" => self.failing_files = text,
            "reads" => self.failing_reads = text,
            "writes" => self.failing_writes = text,
            "errors" => self.failing_errors = text,
            "dials" => self.failing_dials = text,
            "link-reads" => self.failing_link_reads = text,
            "link-writes" => self.failing_link_writes = text,
            "shown" => self.shown = text.parse::<u32>().unwrap_or(u32::MAX),
            "<" | "<!" | "<*" => push_text(&mut self.input, key, text)?,
            "+" | "+!" | "+*" => push_text(&mut self.reply, key, text)?,
            "=" | "=!" | "=*" => push_to(alloc, &mut self.conf, key, text)?,
            "@" | "@!" | "@*" => push_to(alloc, &mut self.assocs, key, text)?,
            "~" | "~!" | "~*" => push_to(alloc, &mut self.state, key, text)?,
            "?" => self.coming.push(framed(alloc, text)?)?,
            _ => return Ok(false),
        }
        Ok(true)
    }
}

// A request of the framed form, which has only this header.
fn framed(alloc: Global, header: &str) -> Result<Vec<u8>, AllocError> {
    let mut frame = Vec::new(alloc);
    let length = u32::try_from(header.len()).unwrap_or(u32::MAX);
    frame.extend_from_slice(&length.to_be_bytes())?;
    frame.extend_from_slice(header.as_bytes())?;
    Ok(frame)
}

// Adds a line to a file, which begins with it where there was none.
fn push_to(
    alloc: Global,
    file: &mut Option<Vec<u8>>,
    key: &str,
    text: &str,
) -> Result<(), AllocError> {
    let mut bytes = match file.take() {
        Some(bytes) => bytes,
        None => Vec::new(alloc),
    };
    push_text(&mut bytes, key, text)?;
    *file = Some(bytes);
    Ok(())
}

// A line of a text; with `!` behind its key one without an end, with `*` a text so many times.
fn push_text(out: &mut Vec<u8>, key: &str, text: &str) -> Result<(), AllocError> {
    if key.ends_with('*') {
        return push_repeated(out, text);
    }
    percent_decode(text.as_bytes()).append_to(out)?;
    if !key.ends_with('!') {
        out.push(b'\n')?;
    }
    Ok(())
}

// `8192 x` is the text `x` so many times.
fn push_repeated(out: &mut Vec<u8>, text: &str) -> Result<(), AllocError> {
    let (count, piece) = text.split_once(' ').unwrap_or((text, ""));
    for _ in 0..count.parse::<u32>().unwrap_or(0) {
        percent_decode(piece.as_bytes()).append_to(out)?;
    }
    Ok(())
}
