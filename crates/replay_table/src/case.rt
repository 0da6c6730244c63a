// A replay and its files.

use std::alloc::{AllocError, Global};

/// The lines of a case that were read so far.
#[derive(Drop)]
pub struct Case<'a> {
    /// The words, with a blank between two.
    pub words: &'a str,
    pub conf: Vec<u8>,
    pub assocs: Vec<u8>,
    pub trace: Vec<u8>,
    pub other_conf: Vec<u8>,
    pub other_assocs: Vec<u8>,
    // Whether the file is the one of an earlier case.
    old: [bool; 5],
}

impl<'a> Case<'a> {
    /// No words, and empty files.
    pub fn new(alloc: Global) -> Self {
        Case {
            words: "",
            conf: Vec::new(alloc),
            assocs: Vec::new(alloc),
            trace: Vec::new(alloc),
            other_conf: Vec::new(alloc),
            other_assocs: Vec::new(alloc),
            old: [true; 5],
        }
    }

    /// Begins another case with the files of this one.
    pub fn begin(&mut self) {
        self.words = "";
        self.old = [true; 5];
    }

    /// Takes a line of the case that begins with this key. False where no line does.
    pub fn take(&mut self, key: &str, text: &'a str) -> Result<bool, AllocError> {
        match key {
            "words" => self.words = text,
            "=" => push_line(&mut self.conf, &mut self.old[0], text)?,
            "@" => push_line(&mut self.assocs, &mut self.old[1], text)?,
            "<" => push_line(&mut self.trace, &mut self.old[2], text)?,
            "+" => push_line(&mut self.other_conf, &mut self.old[3], text)?,
            "*" => push_line(&mut self.other_assocs, &mut self.old[4], text)?,
            _ => return Ok(false),
        }
        Ok(true)
    }
}

// Adds a line to a file, which begins anew where it is an old one.
fn push_line(file: &mut Vec<u8>, old: &mut bool, text: &str) -> Result<(), AllocError> {
    if *old {
        file.clear();
        *old = false;
    }
    file.extend_from_slice(text.as_bytes())?;
    file.push(b'\n')?;
    Ok(())
}
