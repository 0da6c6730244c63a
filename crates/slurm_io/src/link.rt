// A source and a sink in one.
ghost use Rattle.std.specs.Prelude.{◌≡◌};
ghost use Rattle.slurm_io.specs.Wire.{Wire};

use crate::{Sink, Source};

/// A connection: a source and a sink that leave each other alone (own).
pub trait Link: Source + Sink {
    /// Both sides at once: what is left, what was taken, and the two counts of faults.
    ghost wire: { Self → Wire };

    ghost wire_tells: { (link : Self) → wire link ≡ record {
      left = Self.Source.left link;
      taken = Self.Sink.taken link;
      reads = Self.Source.read_faults link;
      writes = Self.Sink.write_faults link;
    } };

    /// A read leaves what was taken and the count of failed writes.
    ghost reads_keep: { (link : Self) → Self.Source.kept_by_reads link
        ≡ record { bytes = Self.Sink.taken link; faults = Self.Sink.write_faults link } };

    /// A write leaves what is left and the count of failed reads.
    ghost writes_keep: { (link : Self) → Self.Sink.kept_by_writes link
        ≡ record { bytes = Self.Source.left link; faults = Self.Source.read_faults link } };
}
