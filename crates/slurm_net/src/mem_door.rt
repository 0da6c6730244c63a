// A door in memory, for tests.
ghost use Rattle.std.specs.Prelude.{◌≡◌, ℕ, ◌+◌, ◌↔◌, ◌≤◌, [], length, map, All, Contains, vec_len, vec_capacity, option_map, Some, None, IsSome, IfSome, IfOk, OnOk, OnErr, IsErr, if◌then◌else◌, is_some};
ghost use Rattle.std.specs.VecDeque.{deque_len};
ghost use Rattle.slurm_io.specs.Faults.{CountsFault, next_count};
ghost use Rattle.slurm_net.specs.Accepted.{IfCame, IsNewLink, out_after};
ghost use Rattle.slurm_net.specs.Session.{AddsSession};
ghost use Rattle.slurm_net.specs.Unused.{mem_wire, unused_wire};
ghost use Rattle.slurm_net.specs.MemDoor.{MemDoorState, told_coming, told_session, ComesUnused, next_accepted, after_accept, after_accept_fault, after_done};

use crate::coming::Coming;
use crate::{Accepted, Cut, Door, MemSession};
use slurm_io::{Failed, MemLink};
use std::alloc::{AllocError, Global};
use std::collections::VecDeque;
use std::marker::Model;

/// A door in memory (own). Calls of `accept` are numbered from 1, and those whose numbers it was made with fail. Each
/// other call gives the next link of the list that it was made with; it gives nobody where the list says so, and once
/// the list is spent.
#[derive(Drop)]
pub struct MemDoor {
    comes: VecDeque<Option<Coming>>,
    failing: Vec<u64>,
    calls: u64,
    faults: u64,
    out: Option<Vec<u8>>,
    sessions: Vec<MemSession>,
}

impl Model for MemDoor {
    ghost Value = { MemDoorState };

    ghost view = { λ door. record {
      comes = map told_coming door.comes.items;
      failing = door.failing.items;
      calls = door.calls;
      faults = door.faults;
      out = option_map (λ left. left.items) door.out;
      sessions = map told_session door.sessions.items;
    } };

    ghost invariant = { λ door. vec_len door.sessions + deque_len door.comes + (if is_some door.out then 1 else 0)
        ≤ vec_capacity door.sessions };
}

// A link with the bytes that it has to read.
fn with_its_bytes(alloc: Global, link: Option<MemLink>) -> Result<Option<Coming>, AllocError>
    requires { ComesUnused link }
    ensures { IfOk result (λ coming. told_coming coming ≡ link) }
{
    match link {
        None => Ok(None),
        Some(link) => {
            let left = Vec::from_slice(alloc, link.left())?;
            Ok(Some(Coming { left, link }))
        }
    }
}

// Each link with the bytes that it has to read.
fn with_bytes(
    alloc: Global,
    comes: Vec<Option<MemLink>>,
) -> Result<VecDeque<Option<Coming>>, AllocError>
    requires { All ComesUnused comes.items }
    ensures items { IfOk result (λ kept. map told_coming kept.items ≡ comes.items) }
    ensures len { IfOk result (λ kept. deque_len kept ≡ vec_len comes) }
{
    let mut kept = VecDeque::new(alloc);
    for link in comes {
        kept.push_back(with_its_bytes(alloc, link)?)?;
    }
    Ok(kept)
}

impl MemDoor {
    /// A door at which these come, in this order, None being nobody. It takes the room for its sessions now.
    pub fn new(
        alloc: Global,
        comes: Vec<Option<MemLink>>,
        failing: Vec<u64>,
    ) -> Result<MemDoor, AllocError>
        requires { All ComesUnused comes.items }
        ensures { IfOk result (λ door. door ≡ record {
          comes = comes.items;
          failing = failing.items;
          calls = 0;
          faults = 0;
          out = None;
          sessions = [];
        }) }
    {
        let sessions = Vec::with_capacity(alloc, comes.len())?;
        Ok(MemDoor {
            comes: with_bytes(alloc, comes)?,
            failing,
            calls: 0,
            faults: 0,
            out: None,
            sessions,
        })
    }

    /// How many calls of `accept` failed, up to the greatest `u64`.
    pub fn faults(&self) -> u64
        ensures { result ≡ self.now.faults }
    {
        self.faults
    }

    /// The links that were handed back, in order.
    pub fn sessions(&self) -> &[MemSession]
        ensures { map told_session result.now ≡ self.now.sessions }
    {
        &self.sessions
    }
}

impl Door for MemDoor {
    type Link = MemLink;

    ghost door_faults = { λ door. door.faults };

    ghost sessions = { λ door. Some door.sessions };

    ghost out = { λ door. option_map unused_wire door.out };

    fn accept(&mut self) -> Result<Accepted<MemLink>, Failed>
        requires { option_map unused_wire self.old.out ≡ None }
        ensures fresh { IfCame result (λ link. IsNewLink (mem_wire link)) }
        ensures out { option_map unused_wire self.new.out ≡ out_after mem_wire result }
        ensures faults { CountsFault self.old.faults self.new.faults result }
        ensures kept { Some self.new.sessions ≡ Some self.old.sessions }

        // It fails exactly where its number says so.
        ensures fails { IsErr result ↔ Contains self.old.failing (next_count self.old.calls) }
        ensures gives { IfOk result (λ accepted. accepted ≡ next_accepted self.old.comes) }
        ensures ok { OnOk result (self.new ≡ after_accept self.old) }
        ensures err { OnErr result (self.new ≡ after_accept_fault self.old) }
    {
        self.calls = self.calls.saturating_add(1);
        if self.failing.contains(&self.calls) {
            self.faults = self.faults.saturating_add(1);
            return Err(Failed);
        }
        match self.comes.pop_front() {
            None => Ok(Accepted::Nobody),
            Some(None) => Ok(Accepted::Nobody),
            Some(Some(coming)) => {
                self.out = Some(coming.left);
                Ok(Accepted::Came(coming.link))
            }
        }
    }

    fn done(&mut self, link: MemLink, cut: Cut)
        requires { IsSome (option_map unused_wire self.old.out) }
        ensures sessions { AddsSession (Some self.old.sessions) (Some self.new.sessions)
            (option_map unused_wire self.old.out) (mem_wire link) cut }
        ensures out { option_map unused_wire self.new.out ≡ None }
        ensures faults { self.new.faults ≡ self.old.faults }
        ensures kept { IfSome self.old.out (λ left. self.new ≡ after_done self.old left link cut) }
    {
        let left = self.out.take().unwrap();
        self.sessions.push(MemSession { left, link, cut }).unwrap();
    }
}
