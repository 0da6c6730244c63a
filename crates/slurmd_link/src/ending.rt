//! How slurmd ends, and what it tells of that.

ghost use Rattle.std.specs.Prelude.{◌≡◌, ◌≤◌, length};
ghost use Rattle.slurm_io.specs.Bytes.{Tells};
ghost use Rattle.slurm_client.specs.Calling.{sinks};
ghost use Rattle.slurmd_link.specs.declared.link.LinkHow.TheVariants.{Done};
ghost use Rattle.slurmd_link.specs.Lines.{IsLinkTold, IsTold, cause_line, place_line, turns_line};

use crate::link::{LinkEnd, LinkHow};
use arrayvec::ArrayString;
use itoa::Buffer;
use slurm_io::{Failed, Sink, tell, write_all};

/// Room for a line.
const LINE_LEN: usize = 64;

/// How slurmd ends (own).
#[derive(Drop)]
pub enum SlurmdEnd {
    /// The words are off.
    Usage,
    /// The host couldn't dial the port.
    DoorFault,
    /// Memory was wanting before the first turn.
    Memory,
    /// Turns were made over a link, which ended so.
    Linked(LinkEnd),
}

fn turns_line(turns: u32) -> ArrayString<LINE_LEN>
    ensures { result.bytes ≡ turns_line turns }
{
    let mut line = ArrayString::new();
    let mut buffer = Buffer::new();
    line.push_str("slurmd: ");
    line.push_str(buffer.format(turns));
    line.push_str(" turns\n");
    line
}

// A line that names a cause.
fn cause_line(cause: &str) -> ArrayString<LINE_LEN>
    requires { length cause.now ≤ 16 }
    ensures { result.bytes ≡ cause_line cause.now }
{
    let mut line = ArrayString::new();
    line.push_str("slurmd: error: ");
    line.push_str(cause);
    line.push_str("\n");
    line
}

fn place_line(place: u64) -> ArrayString<LINE_LEN>
    ensures { result.bytes ≡ place_line place }
{
    let mut line = ArrayString::new();
    let mut buffer = Buffer::new();
    line.push_str("slurmd: error: block at byte ");
    line.push_str(buffer.format(place));
    line.push_str("\n");
    line
}

/// Tells a cause, as far as that goes.
pub(crate) fn tell_cause<E: Sink>(errors: &mut E, cause: &str)
    requires { length cause.now ≤ 16 }
    ensures { Tells (E.taken errors.old) (E.taken errors.new) (E.write_faults errors.old) (E.write_faults errors.new)
        (cause_line cause.now) }
{
    let line = cause_line(cause);
    tell(errors, line.as_str().as_bytes());
}

// Tells where a frame begins that is none.
fn tell_place<E: Sink>(errors: &mut E, place: u64)
    ensures { Tells (E.taken errors.old) (E.taken errors.new) (E.write_faults errors.old) (E.write_faults errors.new)
        (place_line place) }
{
    let line = place_line(place);
    tell(errors, line.as_str().as_bytes());
}

// Tells that all turns were made; the status.
fn tell_done<K: Sink, E: Sink>(output: &mut K, errors: &mut E, turns: u32) -> u8
    ensures { IsLinkTold Done turns
        (sinks (K.taken output.old) (K.write_faults output.old) (E.taken errors.old) (E.write_faults errors.old))
        (sinks (K.taken output.new) (K.write_faults output.new) (E.taken errors.new) (E.write_faults errors.new))
        result }
{
    let line = turns_line(turns);
    match write_all(output, line.as_str().as_bytes()) {
        Ok(()) => 0,
        Err(Failed) => {
            tell_cause(errors, "write");
            6
        }
    }
}

// Tells how a run over a link ended; the status.
fn tell_link<K: Sink, E: Sink>(output: &mut K, errors: &mut E, end: LinkEnd) -> u8
    ensures { IsLinkTold end.how end.made
        (sinks (K.taken output.old) (K.write_faults output.old) (E.taken errors.old) (E.write_faults errors.old))
        (sinks (K.taken output.new) (K.write_faults output.new) (E.taken errors.new) (E.write_faults errors.new))
        result }
{
    match end.how {
        LinkHow::Done => tell_done(output, errors, end.made),
        LinkHow::Refused { text } => {
            tell(errors, text.as_bytes());
            1
        }
        LinkHow::BadReply { place } => {
            tell_place(errors, place);
            7
        }
        LinkHow::ReadFault => {
            tell_cause(errors, "read");
            5
        }
        LinkHow::WriteFault => {
            tell_cause(errors, "write");
            6
        }
        LinkHow::Memory => {
            tell_cause(errors, "memory");
            8
        }
    }
}

/// Tells an end: all turns on the output, and all else on the errors, as far as their writes go. It answers the status.
pub(crate) fn tell_end<K: Sink, E: Sink>(output: &mut K, errors: &mut E, end: SlurmdEnd) -> u8
    ensures { IsTold end
        (sinks (K.taken output.old) (K.write_faults output.old) (E.taken errors.old) (E.write_faults errors.old))
        (sinks (K.taken output.new) (K.write_faults output.new) (E.taken errors.new) (E.write_faults errors.new))
        result }
{
    match end {
        SlurmdEnd::Usage => {
            tell_cause(errors, "usage");
            2
        }
        SlurmdEnd::DoorFault => {
            tell_cause(errors, "door");
            10
        }
        SlurmdEnd::Memory => {
            tell_cause(errors, "memory");
            8
        }
        SlurmdEnd::Linked(linked) => tell_link(output, errors, linked),
    }
}
