// The system's readers and writers as sources and sinks: the edge that is trusted.
ghost use Rattle.std.specs.Prelude.{◌≡◌, ◌≤◌, length, IfOk};
ghost use Rattle.std.specs.Io.KnownBytes.{ReadConsumes, WriteAppends};

use crate::{Failed, Sink, Source};
use std::io::{Error, ErrorKind, Read, Write};

/// How often one call is tried that a signal interrupts.
pub(crate) const MOST_TRIES: u32 = 1024;

/// A reader of std as a source, such as standard input. A read that a signal interrupts (`ErrorKind::Interrupted`) is
/// tried again, up to 1,024 times in all; each other error, and the last interruption, is a fault.
#[derive(Drop)]
pub struct ReaderSource<R> {
    pub reader: R,
    /// How many reads failed, up to the greatest `u64`.
    pub faults: u64,
}

impl<R> ReaderSource<R> {
    pub fn new(reader: R) -> Self
        ensures reader { result.reader ≡ reader }
        ensures faults { result.faults ≡ 0 }
    {
        ReaderSource { reader, faults: 0 }
    }
}

impl<R: Read> Source for ReaderSource<R> {
    ghost left = { λ source. R.remaining source.reader };

    ghost read_faults = { λ source. source.faults };

    fn read(&mut self, into: &mut [u8]) -> Result<usize, Failed> {
        match read_through(&mut self.reader, into) {
            Ok(count) => Ok(count),
            Err(Failed) => {
                self.faults = self.faults.saturating_add(1);
                Err(Failed)
            }
        }
    }
}

pub(crate) fn is_interrupted(error: &Error) -> bool {
    error.kind() == ErrorKind::Interrupted
}

// Reads, again where a signal interrupts.
fn read_through<R: Read>(reader: &mut R, into: &mut [u8]) -> Result<usize, Failed>
    ensures bound { IfOk result (λ n. n ≤ length into.new) }
    ensures bytes { ReadConsumes (R.remaining reader.old) (R.remaining reader.new) result into.new }
{
    for _ in 0..MOST_TRIES {
        match reader.read(into) {
            Ok(count) => return Ok(count),
            Err(error) if is_interrupted(&error) => {}
            Err(_) => return Err(Failed),
        }
    }
    Err(Failed)
}

/// A writer of std as a sink, such as standard output. Nothing is held back, so give it a writer that holds nothing
/// back either. A write that a signal interrupts (`ErrorKind::Interrupted`) is tried again, up to 1,024 times in all;
/// each other error, the last interruption, and a piece of which the writer takes no byte, is a fault.
#[derive(Drop)]
pub struct WriterSink<W> {
    pub writer: W,
    /// How many writes failed, up to the greatest `u64`.
    pub faults: u64,
}

impl<W> WriterSink<W> {
    pub fn new(writer: W) -> Self
        ensures writer { result.writer ≡ writer }
        ensures faults { result.faults ≡ 0 }
    {
        WriterSink { writer, faults: 0 }
    }
}

impl<W: Write> Sink for WriterSink<W> {
    ghost taken = { λ sink. W.contents sink.writer };

    ghost write_faults = { λ sink. sink.faults };

    fn write(&mut self, piece: &[u8]) -> Result<usize, Failed> {
        match write_through(&mut self.writer, piece) {
            Ok(count) if count > 0 || piece.is_empty() => Ok(count),
            _ => {
                self.faults = self.faults.saturating_add(1);
                Err(Failed)
            }
        }
    }
}

// Writes, again where a signal interrupts.
fn write_through<W: Write>(writer: &mut W, piece: &[u8]) -> Result<usize, Failed>
    ensures bound { IfOk result (λ n. n ≤ length piece.now) }
    ensures bytes { WriteAppends (W.contents writer.old) (W.contents writer.new) result piece.now }
{
    for _ in 0..MOST_TRIES {
        match writer.write(piece) {
            Ok(count) => return Ok(count),
            Err(error) if is_interrupted(&error) => {}
            Err(_) => return Err(Failed),
        }
    }
    Err(Failed)
}
