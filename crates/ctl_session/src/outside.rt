//! Reading and writing on a link, with what each leaves as it was.

ghost use Rattle.std.specs.Prelude.{◌≡◌, ◌≤◌, OnOk, OnErr, IfOk, length};
ghost use Rattle.std.specs.Io.KnownBytes.{ReadConsumes, Appends};
ghost use Rattle.slurm_io.specs.Bytes.{AppendsFront};
ghost use Rattle.slurm_io.specs.Faults.{CountsFault};
ghost use Rattle.ctl_session.specs.Reading.{ReadsStay, WritesStay};

use slurm_io::{Failed, Link, write_all};

/// Reads some bytes to the front of the buffer.
pub fn read_some<L: Link>(link: &mut L, into: &mut [u8]) -> Result<usize, Failed>
    ensures bound { IfOk result (λ n. n ≤ length into.new) }
    ensures bytes { ReadConsumes (L.wire link.old).left (L.wire link.new).left result into.new }
    ensures faults { CountsFault (L.wire link.old).reads (L.wire link.new).reads result }
    ensures writes { WritesStay (L.wire link.old) (L.wire link.new) }
{
    link.read(into)
}

/// Writes all of a text.
pub fn write_text<L: Link>(link: &mut L, text: &[u8]) -> Result<(), Failed>
    ensures written { OnOk result (Appends (L.wire link.old).taken (L.wire link.new).taken text.now) }
    ensures cut { OnErr result (AppendsFront (L.wire link.old).taken (L.wire link.new).taken text.now) }
    ensures faults { CountsFault (L.wire link.old).writes (L.wire link.new).writes result }
    ensures reads { ReadsStay (L.wire link.old) (L.wire link.new) }
{
    write_all(link, text)
}
