// A link made of a source and a sink.
ghost use Rattle.std.specs.Prelude.{◌≡◌, refl};

use crate::{Failed, Link, Sink, Source};

/// A source and a sink joined into a link (own).
#[derive(Drop)]
pub struct Pair<S, K> {
    pub source: S,
    pub sink: K,
}

impl<S, K> Pair<S, K> {
    pub fn new(source: S, sink: K) -> Self
        ensures source { result.source ≡ source }
        ensures sink { result.sink ≡ sink }
    {
        Pair { source, sink }
    }
}

impl<S: Source, K: Sink> Source for Pair<S, K> {
    ghost left = { λ pair. S.left pair.source };

    ghost read_faults = { λ pair. S.read_faults pair.source };

    ghost kept_by_reads = { λ pair. record {
      bytes = K.taken pair.sink;
      faults = K.write_faults pair.sink;
    } };

    fn read(&mut self, into: &mut [u8]) -> Result<usize, Failed> {
        self.source.read(into)
    }
}

impl<S: Source, K: Sink> Sink for Pair<S, K> {
    ghost taken = { λ pair. K.taken pair.sink };

    ghost write_faults = { λ pair. K.write_faults pair.sink };

    ghost kept_by_writes = { λ pair. record {
      bytes = S.left pair.source;
      faults = S.read_faults pair.source;
    } };

    fn write(&mut self, piece: &[u8]) -> Result<usize, Failed> {
        self.sink.write(piece)
    }
}

impl<S: Source, K: Sink> Link for Pair<S, K> {
    ghost wire = { λ pair. record {
      left = S.left pair.source;
      taken = K.taken pair.sink;
      reads = S.read_faults pair.source;
      writes = K.write_faults pair.sink;
    } };

    ghost wire_tells = { λ pair. refl };

    ghost reads_keep = { λ pair. refl };

    ghost writes_keep = { λ pair. refl };
}
