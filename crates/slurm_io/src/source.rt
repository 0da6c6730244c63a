// Where bytes come from.
ghost use Rattle.std.specs.Prelude.{◌≡◌, ℕ, ◌≤◌, List, length, Option, IfOk};
ghost use Rattle.std.specs.Io.KnownBytes.{ReadConsumes};
ghost use Rattle.slurm_io.specs.Faults.{CountsFault};
ghost use Rattle.slurm_io.specs.Kept.{Kept, nothing_beside};

/// A read or a write that failed. The object that it failed on has counted it.
#[derive(Clone, Copy, Debug, PartialEq, Eq)]
pub struct Failed;

/// Where bytes come from, in one order (own).
pub trait Source {
    /// The bytes that have not been read, where the source tells them.
    ghost left: { Self → Option (List ℕ) };

    /// How many reads failed, up to the greatest `u64`.
    ghost read_faults: { Self → ℕ };

    /// What a read leaves as it was. Of a link that is its other side.
    ghost kept_by_reads: { Self → Kept } = { λ _. nothing_beside };

    /// Reads some bytes to the front of `into` and answers how many. 0 for a buffer that isn't empty is the
    /// end of the input. A read that failed took nothing.
    fn read(&mut self, into: &mut [u8]) -> Result<usize, Failed>
        ensures bound { IfOk result (λ n. n ≤ length into.new) }
        ensures bytes { ReadConsumes (left self.old) (left self.new) result into.new }
        ensures faults { CountsFault (read_faults self.old) (read_faults self.new) result }
        ensures kept { kept_by_reads self.new ≡ kept_by_reads self.old };
}

impl<S: Source> Source for &mut S {
    ghost left = { λ source. S.left source.now };

    ghost read_faults = { λ source. S.read_faults source.now };

    ghost kept_by_reads = { λ source. S.kept_by_reads source.now };

    fn read(&mut self, into: &mut [u8]) -> Result<usize, Failed> {
        Source::read(&mut **self, into)
    }
}
