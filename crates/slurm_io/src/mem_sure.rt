// A link in memory that never fails.
ghost use Rattle.std.specs.Prelude.{◌≡◌, ◌<◌, ◌≤◌, List, ℕ, length, drop, min, Some, None, Ok, IfOk, refl};
ghost use Rattle.std.specs.Io.KnownBytes.{ReadConsumes, WriteAppends};
ghost use Rattle.slurm_io.specs.Faults.{CountsFault};
ghost use Rattle.slurm_io.specs.Kept.{nothing_beside};

use crate::copy::copy_front;
use crate::{Failed, Link, Sink, Source};
use std::marker::Model;

/// A link that never fails (own): it gives the bytes that it was made with and drops what is written. Contracts see
/// it as the bytes that are left.
#[derive(Drop)]
pub struct MemSure {
    bytes: Vec<u8>,
    place: usize,
}

impl Model for MemSure {
    ghost Value = { List ℕ };

    ghost view = { λ link. drop link.place link.bytes.items };

    ghost invariant = { λ link. link.place ≤ length link.bytes.items };
}

impl MemSure {
    pub fn new(bytes: Vec<u8>) -> MemSure
        ensures { result ≡ bytes.items }
    {
        MemSure { bytes, place: 0 }
    }
}

impl Source for MemSure {
    ghost left = { λ link. Some link };

    ghost read_faults = { λ link. 0 };

    ghost kept_by_reads = { λ link. nothing_beside };

    fn read(&mut self, into: &mut [u8]) -> Result<usize, Failed>
        ensures bound { IfOk result (λ n. n ≤ length into.new) }
        ensures bytes { ReadConsumes (Some self.old) (Some self.new) result into.new }
        ensures faults { CountsFault 0 0 result }
        ensures given { result ≡ Ok (min (length self.old) (length into.old)) }
    {
        let left = self.bytes.split_at(self.place).1;
        let count = copy_front(left, into);
        self.place += count;
        Ok(count)
    }
}

impl Sink for MemSure {
    ghost taken = { λ link. None };

    ghost write_faults = { λ link. 0 };

    ghost kept_by_writes = { λ link. record { bytes = Some link; faults = 0 } };

    fn write(&mut self, piece: &[u8]) -> Result<usize, Failed>
        ensures bound { IfOk result (λ n. n ≤ length piece.now) }
        ensures some { IfOk result (λ n. 0 < length piece.now → 0 < n) }
        ensures bytes { WriteAppends None None result piece.now }
        ensures faults { CountsFault 0 0 result }
        ensures kept { self.new ≡ self.old }
        ensures whole { result ≡ Ok (length piece.now) }
    {
        Ok(piece.len())
    }
}

impl Link for MemSure {
    ghost wire = { λ link. record { left = Some link; taken = None; reads = 0; writes = 0 } };

    ghost wire_tells = { λ link. refl };

    ghost reads_keep = { λ link. refl };

    ghost writes_keep = { λ link. refl };
}
