// Where bytes go.
ghost use Rattle.std.specs.Prelude.{◌≡◌, ℕ, ◌<◌, ◌≤◌, List, length, Option, IfOk, OnOk, OnErr};
ghost use Rattle.std.specs.Io.KnownBytes.{Appends, WriteAppends};
ghost use Rattle.slurm_io.specs.Bytes.{AppendsFront, Tells};
ghost use Rattle.slurm_io.specs.Faults.{CountsFault};
ghost use Rattle.slurm_io.specs.Kept.{Kept, nothing_beside};

use crate::Failed;

/// Where bytes go, in one order (own).
pub trait Sink {
    /// The bytes taken so far, where the sink tells them.
    ghost taken: { Self → Option (List ℕ) };

    /// How many writes failed, up to the greatest `u64`.
    ghost write_faults: { Self → ℕ };

    /// What a write leaves as it was. Of a link that is its other side.
    ghost kept_by_writes: { Self → Kept } = { λ _. nothing_beside };

    /// Takes some bytes from the front of `piece` and answers how many: at least one where there is one.
    /// A write that failed took none.
    fn write(&mut self, piece: &[u8]) -> Result<usize, Failed>
        ensures bound { IfOk result (λ n. n ≤ length piece.now) }
        ensures some { IfOk result (λ n. 0 < length piece.now → 0 < n) }
        ensures bytes { WriteAppends (taken self.old) (taken self.new) result piece.now }
        ensures faults { CountsFault (write_faults self.old) (write_faults self.new) result }
        ensures kept { kept_by_writes self.new ≡ kept_by_writes self.old };
}

impl<K: Sink> Sink for &mut K {
    ghost taken = { λ sink. K.taken sink.now };

    ghost write_faults = { λ sink. K.write_faults sink.now };

    ghost kept_by_writes = { λ sink. K.kept_by_writes sink.now };

    fn write(&mut self, piece: &[u8]) -> Result<usize, Failed> {
        Sink::write(&mut **self, piece)
    }
}

/// Writes all of `piece`, in as many writes as the sink asks for. A call that failed may have written a front of the
/// piece, never all of it. An empty piece is written at once.
pub fn write_all<K: Sink>(sink: &mut K, piece: &[u8]) -> Result<(), Failed>
    ensures written { OnOk result (Appends (K.taken sink.old) (K.taken sink.new) piece.now) }
    ensures cut { OnErr result (AppendsFront (K.taken sink.old) (K.taken sink.new) piece.now) }
    ensures faults { CountsFault (K.write_faults sink.old) (K.write_faults sink.new) result }
    ensures kept { K.kept_by_writes sink.new ≡ K.kept_by_writes sink.old }
{
    let mut done = 0;
    while done < piece.len() {
        done += sink.write(piece.split_at(done).1)?;
    }
    Ok(())
}

/// Writes a text as far as it goes, and passes over a fault, which only the count of faults tells. It is for what is
/// told beside an answer, such as a line to the errors.
pub fn tell<K: Sink>(sink: &mut K, text: &[u8])
    ensures { Tells (K.taken sink.old) (K.taken sink.new) (K.write_faults sink.old) (K.write_faults sink.new) text.now }
{
    let _ = write_all(sink, text);
}
