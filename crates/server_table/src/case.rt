// A case of the table: what comes to a server's doors, and what its gates do.

use crate::step::{Step, step_in};
use percent_encoding::percent_decode;
use std::alloc::{AllocError, Global};

/// A connection that comes to a door.
#[derive(Drop)]
pub struct Coming {
    /// The bytes that it sends.
    pub sent: Vec<u8>,
    /// The numbers of its reads that fail, counted from 1.
    pub failing_reads: Vec<u64>,
    /// The numbers of its writes that fail, counted from 1.
    pub failing_writes: Vec<u64>,
}

/// A door of the server.
#[derive(Drop)]
pub struct DoorCase {
    /// What comes there, in order: connections, and None where nobody comes.
    pub comes: Vec<Option<Coming>>,
    /// The numbers of the looks for a connection that fail, counted from 1.
    pub failing: Vec<u64>,
}

/// The lines of a case that were read so far.
#[derive(Drop)]
pub struct Case {
    pub doors: Vec<DoorCase>,
    pub steps: Vec<Step>,
    /// The clock's first moment, and by how much each later reading is later.
    pub first: u64,
    pub later: u64,
    /// The numbers of the calls of the host that fail, counted from 1.
    pub failing_calls: Vec<u64>,
    /// The numbers of the writes of the output that fail, counted from 1.
    pub failing_writes: Vec<u64>,
    /// Whether the replies of all doors are shown together, in the order of their bytes.
    pub together: bool,
    /// Whether a worker works by itself, without a server.
    pub alone: bool,
}

impl Case {
    /// A server without doors, whose clock stands at the second 1000.
    pub fn new(alloc: Global) -> Case {
        Case {
            doors: Vec::new(alloc),
            steps: Vec::new(alloc),
            first: 1000,
            later: 0,
            failing_calls: Vec::new(alloc),
            failing_writes: Vec::new(alloc),
            together: false,
            alone: false,
        }
    }

    // Adds what comes to the last door. False where there is no door.
    fn push_coming(&mut self, coming: Option<Coming>) -> Result<bool, AllocError> {
        match self.doors.last_mut() {
            Some(door) => {
                door.comes.push(coming)?;
                Ok(true)
            }
            None => Ok(false),
        }
    }

    // Adds bytes to what the last connection sends. False where there is none.
    fn push_bytes(&mut self, bytes: &[u8]) -> Result<bool, AllocError> {
        let Some(door) = self.doors.last_mut() else {
            return Ok(false);
        };
        match door.comes.last_mut() {
            Some(Some(coming)) => {
                coming.sent.extend_from_slice(bytes)?;
                Ok(true)
            }
            _ => Ok(false),
        }
    }

    // Sets which reads of the last connection fail. False where there is none.
    fn set_reads(&mut self, numbers: Vec<u64>) -> bool {
        let Some(door) = self.doors.last_mut() else {
            return false;
        };
        match door.comes.last_mut() {
            Some(Some(coming)) => {
                coming.failing_reads = numbers;
                true
            }
            _ => false,
        }
    }

    // Sets which writes of the last connection fail. False where there is none.
    fn set_writes(&mut self, numbers: Vec<u64>) -> bool {
        let Some(door) = self.doors.last_mut() else {
            return false;
        };
        match door.comes.last_mut() {
            Some(Some(coming)) => {
                coming.failing_writes = numbers;
                true
            }
            _ => false,
        }
    }

    // Adds a step of a gate. False where the text is none.
    fn push_step(&mut self, text: &str) -> Result<bool, AllocError> {
        match step_in(text) {
            Some(step) => {
                self.steps.push(step)?;
                Ok(true)
            }
            None => Ok(false),
        }
    }

    // Adds a door, which fails at the looks of these numbers.
    fn push_door(&mut self, alloc: Global, text: &str) -> Result<bool, AllocError> {
        let failing = numbers_of(alloc, text)?;
        self.doors.push(DoorCase {
            comes: Vec::new(alloc),
            failing,
        })?;
        Ok(true)
    }

    // Sets the clock. False where the text isn't two numbers.
    fn set_clock(&mut self, text: &str) -> bool {
        let (first, later) = text.split_once(' ').unwrap_or((text, ""));
        match (first.parse::<u64>(), later.parse::<u64>()) {
            (Ok(first), Ok(later)) => {
                self.first = first;
                self.later = later;
                true
            }
            _ => false,
        }
    }

    /// Takes a line of the case that begins with this key. False where there is no such line.
    pub fn take(&mut self, alloc: Global, key: &str, text: &str) -> Result<bool, AllocError> {
        match key {
            "clock" => return Ok(self.set_clock(text)),
            "door" => return self.push_door(alloc, text),
            "nobody" => return self.push_coming(None),
            "?" => return self.push_coming(Some(coming_with(alloc, frame_of(alloc, text)?))),
            "?!" => return self.push_coming(Some(coming_with(alloc, bytes_of(alloc, text)?))),
            "+" => return self.push_bytes(frame_of(alloc, text)?.as_slice()),
            "+!" => return self.push_bytes(bytes_of(alloc, text)?.as_slice()),
            "link-reads" => return Ok(self.set_reads(numbers_of(alloc, text)?)),
            "link-writes" => return Ok(self.set_writes(numbers_of(alloc, text)?)),
            "gate" => return self.push_step(text),
            "calls" => self.failing_calls = numbers_of(alloc, text)?,
            "writes" => self.failing_writes = numbers_of(alloc, text)?,
            "together" => self.together = true,
            "alone" => self.alone = true,
            _ => return Ok(false),
        }
        Ok(true)
    }
}

// A connection that sends these bytes, and of which nothing fails.
fn coming_with(alloc: Global, sent: Vec<u8>) -> Coming {
    Coming {
        sent,
        failing_reads: Vec::new(alloc),
        failing_writes: Vec::new(alloc),
    }
}

// The numbers of a text, with a blank between two. What is no number is passed over.
fn numbers_of(alloc: Global, text: &str) -> Result<Vec<u64>, AllocError> {
    let mut numbers = Vec::new(alloc);
    for word in text.split_whitespace() {
        if let Ok(number) = word.parse::<u64>() {
            numbers.push(number)?;
        }
    }
    Ok(numbers)
}

// The bytes of a text in which some are written %HH.
fn bytes_of(alloc: Global, text: &str) -> Result<Vec<u8>, AllocError> {
    let mut bytes = Vec::new(alloc);
    percent_decode(text.as_bytes()).append_to(&mut bytes)?;
    Ok(bytes)
}

// The frame of a request.
fn frame_of(alloc: Global, text: &str) -> Result<Vec<u8>, AllocError> {
    let content = bytes_of(alloc, text)?;
    let length = u32::try_from(content.len()).unwrap_or(u32::MAX);
    let mut frame = Vec::new(alloc);
    frame.extend_from_slice(&length.to_be_bytes())?;
    frame.extend_from_slice(content.as_slice())?;
    Ok(frame)
}
