// A link in memory, for tests.
ghost use Rattle.std.specs.Prelude.{◌≡◌, [], ◌↔◌, ◌≤◌, ◌<◌, ◌++◌, length, take, drop, min, Contains, IfOk, OnOk, OnErr, IsErr, Some, refl};
ghost use Rattle.std.specs.Io.KnownBytes.{ReadConsumes, WriteAppends};
ghost use Rattle.slurm_io.specs.Faults.{CountsFault, next_count};
ghost use Rattle.slurm_io.specs.MemLink.{MemLinkState, read_count, after_read, after_read_fault, after_write, after_write_fault};

use crate::copy::copy_front;
use crate::{Failed, Link, Sink, Source};
use std::alloc::Global;
use std::marker::Model;

/// A link in memory (own): it gives the bytes that it was made with, keeps what is written, and fails at the calls
/// whose numbers it was made with. Reads and writes are numbered apart, from 1.
#[derive(Drop)]
pub struct MemLink {
    bytes: Vec<u8>,
    place: usize,
    taken: Vec<u8>,
    most: u32,
    failing_reads: Vec<u64>,
    failing_writes: Vec<u64>,
    reads: u64,
    writes: u64,
    read_faults: u64,
    write_faults: u64,
}

impl Model for MemLink {
    ghost Value = { MemLinkState };

    ghost view = { λ link. record {
      left = drop link.place link.bytes.items;
      taken = link.taken.items;
      most = link.most;
      failing_reads = link.failing_reads.items;
      failing_writes = link.failing_writes.items;
      reads = link.reads;
      writes = link.writes;
      read_faults = link.read_faults;
      write_faults = link.write_faults;
    } };

    ghost invariant = { λ link. (link.place ≤ length link.bytes.items) × (0 < link.most) };
}

impl MemLink {
    /// A link that gives `bytes`, at most `most` of them a read, and takes at most `most` bytes a write.
    pub fn new(
        alloc: Global,
        bytes: Vec<u8>,
        most: u32,
        failing_reads: Vec<u64>,
        failing_writes: Vec<u64>,
    ) -> MemLink
        requires { 0 < most }
        ensures { result ≡ record {
          left = bytes.items;
          taken = [];
          most = most;
          failing_reads = failing_reads.items;
          failing_writes = failing_writes.items;
          reads = 0;
          writes = 0;
          read_faults = 0;
          write_faults = 0;
        } }
    {
        MemLink {
            bytes,
            place: 0,
            taken: Vec::new(alloc),
            most,
            failing_reads,
            failing_writes,
            reads: 0,
            writes: 0,
            read_faults: 0,
            write_faults: 0,
        }
    }

    /// What was not read yet.
    pub fn left(&self) -> &[u8]
        ensures { result.now ≡ self.now.left }
    {
        self.bytes.split_at(self.place).1
    }

    /// What was written.
    pub fn taken(&self) -> &[u8]
        ensures { result.now ≡ self.now.taken }
    {
        &self.taken
    }

    /// How many reads failed, up to the greatest `u64`.
    pub fn read_faults(&self) -> u64
        ensures { result ≡ self.now.read_faults }
    {
        self.read_faults
    }

    /// How many writes failed, up to the greatest `u64`.
    pub fn write_faults(&self) -> u64
        ensures { result ≡ self.now.write_faults }
    {
        self.write_faults
    }
}

impl Source for MemLink {
    ghost left = { λ link. Some link.left };

    ghost read_faults = { λ link. link.read_faults };

    ghost kept_by_reads = { λ link. record { bytes = Some link.taken; faults = link.write_faults } };

    fn read(&mut self, into: &mut [u8]) -> Result<usize, Failed>
        ensures bound { IfOk result (λ n. n ≤ length into.new) }
        ensures bytes { ReadConsumes (Some self.old.left) (Some self.new.left) result into.new }
        ensures faults { CountsFault self.old.read_faults self.new.read_faults result }
        ensures kept { (self.new.taken ≡ self.old.taken) × (self.new.write_faults ≡ self.old.write_faults) }

        // It fails exactly where its number says so.
        ensures fails { IsErr result ↔ Contains self.old.failing_reads (next_count self.old.reads) }
        ensures given { IfOk result (λ n. n ≡ read_count self.old (length into.old)) }
        ensures ok { IfOk result (λ n. self.new ≡ after_read self.old n) }
        ensures err { OnErr result (self.new ≡ after_read_fault self.old) }
    {
        self.reads = self.reads.saturating_add(1);
        if self.failing_reads.contains(&self.reads) {
            self.read_faults = self.read_faults.saturating_add(1);
            return Err(Failed);
        }
        let left = self.bytes.split_at(self.place).1;
        let offered = left.split_at(left.len().min(self.most as usize)).0;
        let count = copy_front(offered, into);
        self.place += count;
        Ok(count)
    }
}

impl Sink for MemLink {
    ghost taken = { λ link. Some link.taken };

    ghost write_faults = { λ link. link.write_faults };

    ghost kept_by_writes = { λ link. record { bytes = Some link.left; faults = link.read_faults } };

    /// Want of memory is a failed write.
    fn write(&mut self, piece: &[u8]) -> Result<usize, Failed>
        ensures bound { IfOk result (λ n. n ≤ length piece.now) }
        ensures some { IfOk result (λ n. 0 < length piece.now → 0 < n) }
        ensures bytes { WriteAppends (Some self.old.taken) (Some self.new.taken) result piece.now }
        ensures faults { CountsFault self.old.write_faults self.new.write_faults result }
        ensures kept { (self.new.left ≡ self.old.left) × (self.new.read_faults ≡ self.old.read_faults) }

        // It fails where its number says so, and elsewhere only for want of memory.
        ensures fails { Contains self.old.failing_writes (next_count self.old.writes) → IsErr result }
        ensures given { IfOk result (λ n. n ≡ min (length piece.now) self.old.most) }
        ensures ok { IfOk result (λ n. self.new ≡ after_write self.old (take n piece.now)) }
        ensures err { OnErr result (self.new ≡ after_write_fault self.old) }
    {
        self.writes = self.writes.saturating_add(1);
        let count = piece.len().min(self.most as usize);
        if self.failing_writes.contains(&self.writes)
            || self
                .taken
                .extend_from_slice(piece.split_at(count).0)
                .is_err()
        {
            self.write_faults = self.write_faults.saturating_add(1);
            return Err(Failed);
        }
        Ok(count)
    }
}

impl Link for MemLink {
    ghost wire = { λ link. record {
      left = Some link.left;
      taken = Some link.taken;
      reads = link.read_faults;
      writes = link.write_faults;
    } };

    ghost wire_tells = { λ link. refl };

    ghost reads_keep = { λ link. refl };

    ghost writes_keep = { λ link. refl };
}
