// A host in memory, for tests.
ghost use Rattle.std.specs.Prelude.{◌≡◌, ℕ, ◌⊎◌, ◌<◌, ◌↔◌, [], length, take, drop, map, nat_lt, All, Contains, Bool, vec_len, option_map, Some, None, Err, IfSome, IfOk, IfErr, OnOk, OnErr, IsErr, option_copied};
ghost use Rattle.std.specs.List.{list_any};
ghost use Rattle.slurm_io.specs.Faults.{CountsFault, next_count};
ghost use Rattle.slurm_net.specs.Accepted.{IsNewLink};
ghost use Rattle.slurm_net.specs.Host.{CountsIf, CountsListening, KeepsSessions};
ghost use Rattle.slurm_net.specs.Unused.{IsUnused, mem_wire};
ghost use Rattle.slurm_net.specs.MemHost.{MemHostState, IsUnusedDoor, first_link, any_failed, after_listen, after_failed_call, after_refusal, after_dial, after_close, after_hang_up};

use crate::counting::count_if;
use crate::{Host, ListenRefusal, MemDoor};
use slurm_io::{Failed, MemLink};
use std::alloc::Global;
use std::collections::VecDeque;
use std::marker::Model;
use std::mem;

/// A host in memory (own): it opens the doors that it was made with, and dials the links that it was made with, in
/// order. Calls of `listen` and `dial` are numbered together, from 1, and those whose numbers it was made with fail; so
/// does one that wants more doors than are left, or a link where none is left. Ports mean nothing to it.
#[derive(Drop)]
pub struct MemHost {
    doors: Vec<MemDoor>,
    links: VecDeque<MemLink>,
    failing: Vec<u64>,
    calls: u64,
    faults: u64,
    link_reads: u64,
    link_writes: u64,
    last: Option<MemLink>,
    closed: Vec<MemDoor>,
}

impl Model for MemHost {
    ghost Value = { MemHostState };

    ghost view = { λ host. record {
      doors = host.doors.items;
      links = host.links.items;
      failing = host.failing.items;
      calls = host.calls;
      faults = host.faults;
      link_reads = host.link_reads;
      link_writes = host.link_writes;
      last = host.last;
      closed = host.closed.items;
    } };

    ghost invariant = { λ host. All IsUnusedDoor host.doors.items × All IsUnused host.links.items };
}

// Whether a call of one of them failed.
fn any_failed(doors: &[MemDoor]) -> bool
    ensures { result ≡ any_failed doors.now }
{
    doors.iter().any(|door| door.faults() > 0)
}

impl MemHost {
    /// A host with these doors and links.
    pub fn new(
        alloc: Global,
        doors: Vec<MemDoor>,
        links: Vec<MemLink>,
        failing: Vec<u64>,
    ) -> MemHost
        requires doors { All IsUnusedDoor doors.items }
        requires links { All IsUnused links.items }
        ensures { result ≡ record {
          doors = doors.items;
          links = links.items;
          failing = failing.items;
          calls = 0;
          faults = 0;
          link_reads = 0;
          link_writes = 0;
          last = None;
          closed = [];
        } }
    {
        MemHost {
            doors,
            links: VecDeque::from(links),
            failing,
            calls: 0,
            faults: 0,
            link_reads: 0,
            link_writes: 0,
            last: None,
            closed: Vec::new(alloc),
        }
    }

    /// The count of the host's own faults, up to the greatest `u64`.
    pub fn faults(&self) -> u64
        ensures { result ≡ self.now.faults }
    {
        self.faults
    }

    /// The link that was hung up last.
    pub fn last(&self) -> Option<&MemLink>
        ensures { option_copied result ≡ self.now.last }
    {
        self.last.as_ref()
    }

    /// The doors that were closed last, in order.
    pub fn closed(&self) -> &[MemDoor]
        ensures { result.now ≡ self.now.closed }
    {
        &self.closed
    }
}

impl Host for MemHost {
    type Door = MemDoor;

    ghost hosting = { λ host. record {
      faults = host.faults;
      link_reads = host.link_reads;
      link_writes = host.link_writes;
      next_left = option_map (λ link. link.left) (first_link host.links);
      last_taken = option_map (λ link. link.taken) host.last;
    } };

    ghost closed = { λ host. Some (map (λ door. door.sessions) host.closed) };

    fn listen(&mut self, _port: u16, workers: u32) -> Result<Vec<MemDoor>, ListenRefusal>
        ensures doors { IfOk result (λ doors. vec_len doors ≡ workers) }
        ensures new { IfOk result (λ doors. All IsUnusedDoor doors.items) }
        ensures faults { CountsListening self.old.faults self.new.faults result }
        ensures given { IfOk result (λ doors. doors.items ≡ take workers self.old.doors) }

        // It fails exactly where its number says so or there are too few doors.
        ensures fails { (result ≡ Err ListenRefusal.Failed)
            ↔ (Contains self.old.failing (next_count self.old.calls) ⊎ (length self.old.doors < workers)) }
        ensures ok { OnOk result (self.new ≡ after_listen self.old workers) }
        ensures err { IfErr result (λ refusal. self.new ≡ after_refusal self.old refusal) }
    {
        self.calls = self.calls.saturating_add(1);
        let count = workers as usize;
        if self.failing.contains(&self.calls) || self.doors.len() < count {
            self.faults = self.faults.saturating_add(1);
            return Err(ListenRefusal::Failed);
        }
        let later = self.doors.split_off(count)?;
        Ok(mem::replace(&mut self.doors, later))
    }

    fn close_doors(&mut self, doors: Vec<MemDoor>)
        ensures closed { KeepsSessions (Some (map (λ door. door.sessions) self.new.closed))
            (map (λ door. Some door.sessions) doors.items) }
        ensures faults { CountsIf (any_failed doors.items) self.old.faults self.new.faults }
        ensures kept { self.new ≡ after_close self.old doors.items }
    {
        self.faults = count_if(any_failed(&doors), self.faults);
        self.closed = doors;
    }

    fn dial(&mut self, _port: u16) -> Result<MemLink, Failed>
        ensures new { IfOk result (λ link. IsNewLink (mem_wire link)) }
        ensures faults { CountsFault self.old.faults self.new.faults result }
        ensures given { IfOk result (λ link. first_link self.old.links ≡ Some link) }

        // It fails exactly where its number says so or there is no link left.
        ensures fails { IsErr result
            ↔ (Contains self.old.failing (next_count self.old.calls) ⊎ (self.old.links ≡ [])) }
        ensures ok { OnOk result (self.new ≡ after_dial self.old) }
        ensures err { OnErr result (self.new ≡ after_failed_call self.old) }
    {
        self.calls = self.calls.saturating_add(1);
        if !self.failing.contains(&self.calls) {
            if let Some(link) = self.links.pop_front() {
                return Ok(link);
            }
        }
        self.faults = self.faults.saturating_add(1);
        Err(Failed)
    }

    fn hang_up(&mut self, link: MemLink)
        ensures reads { CountsIf (nat_lt 0 link.read_faults) self.old.link_reads self.new.link_reads }
        ensures writes { CountsIf (nat_lt 0 link.write_faults) self.old.link_writes self.new.link_writes }
        ensures kept { self.new ≡ after_hang_up self.old link }
    {
        self.link_reads = count_if(link.read_faults() > 0, self.link_reads);
        self.link_writes = count_if(link.write_faults() > 0, self.link_writes);
        self.last = Some(link);
    }
}
