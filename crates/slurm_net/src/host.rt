// What opens doors and dials.
ghost use Rattle.std.specs.Prelude.{◌≡◌, ℕ, List, map, vec_len, nat_lt, All, Option, Some, IfSome, IfOk, OnErr};
ghost use Rattle.std.specs.List.{list_any};
ghost use Rattle.slurm_io.specs.Faults.{CountsFault};
ghost use Rattle.slurm_net.specs.Accepted.{IsNewLink};
ghost use Rattle.slurm_net.specs.Session.{LinkSession};
ghost use Rattle.slurm_net.specs.Host.{CountsIf, CountsListening, Hosting, IsNewDoor, KeepsSessions};

use crate::Door;
use slurm_io::{Failed, Link};
use std::alloc::AllocError;

/// Why no doors were opened (own).
#[derive(Clone, Copy, Debug, PartialEq, Eq)]
pub enum ListenRefusal {
    /// The host couldn't open them, and has counted it.
    Failed,
    /// There wasn't memory enough.
    Memory,
}

impl From<AllocError> for ListenRefusal {
    ghost use Rattle.std.specs.Prelude.{◌≡◌};
    ghost use Rattle.slurm_net.specs.declared.host.ListenRefusal.TheVariants.{Memory};

    ghost from_gives = { λ _ e. e ≡ Memory };

    fn from(_error: AllocError) -> ListenRefusal {
        ListenRefusal::Memory
    }
}

impl From<Failed> for ListenRefusal {
    ghost use Rattle.std.specs.Prelude.{◌≡◌};
    ghost use Rattle.slurm_net.specs.declared.host.ListenRefusal.TheVariants.{Failed};

    ghost from_gives = { λ _ e. e ≡ Failed };

    fn from(_failed: Failed) -> ListenRefusal {
        ListenRefusal::Failed
    }
}

/// What opens doors at a port and dials one, and takes both back (own).
pub trait Host {
    type Door: Door;

    /// What the host counted and tells.
    ghost hosting: { Self → Hosting };

    /// The sessions of each of the doors that were closed last, in order, where the host tells them.
    ghost closed: { Self → Option (List (List LinkSession)) };

    /// Opens as many doors at a port as there are workers, of which each serves one.
    fn listen(&mut self, port: u16, workers: u32) -> Result<Vec<Self::Door>, ListenRefusal>
        ensures doors { IfOk result (λ doors. vec_len doors ≡ workers) }
        ensures new { IfOk result (λ doors. All
            (λ door. IsNewDoor (Self.Door.door_faults door) (Self.Door.out door) (Self.Door.sessions door))
            doors.items) }
        ensures faults { CountsListening (hosting self.old).faults (hosting self.new).faults result }
        ensures counts { ((hosting self.new).link_reads ≡ (hosting self.old).link_reads)
            × ((hosting self.new).link_writes ≡ (hosting self.old).link_writes) }
        ensures kept { ((hosting self.new).next_left ≡ (hosting self.old).next_left)
            × ((hosting self.new).last_taken ≡ (hosting self.old).last_taken)
            × (closed self.new ≡ closed self.old) };

    /// Takes doors back.
    fn close_doors(&mut self, doors: Vec<Self::Door>)
        ensures closed { KeepsSessions (closed self.new) (map Self.Door.sessions doors.items) }
        ensures faults { CountsIf (list_any (λ door. nat_lt 0 (Self.Door.door_faults door)) doors.items)
            (hosting self.old).faults (hosting self.new).faults }
        ensures counts { ((hosting self.new).link_reads ≡ (hosting self.old).link_reads)
            × ((hosting self.new).link_writes ≡ (hosting self.old).link_writes) }
        ensures kept { ((hosting self.new).next_left ≡ (hosting self.old).next_left)
            × ((hosting self.new).last_taken ≡ (hosting self.old).last_taken) };

    /// Dials a port of this machine.
    fn dial(&mut self, port: u16) -> Result<<Self::Door as Door>::Link, Failed>
        ensures new { IfOk result (λ link. IsNewLink (Self.Door.Link.wire link)) }
        ensures left { IfOk result (λ link. IfSome (hosting self.old).next_left
            (λ bytes. (Self.Door.Link.wire link).left ≡ Some bytes)) }
        ensures err { OnErr result ((hosting self.new).next_left ≡ (hosting self.old).next_left) }
        ensures faults { CountsFault (hosting self.old).faults (hosting self.new).faults result }
        ensures counts { ((hosting self.new).link_reads ≡ (hosting self.old).link_reads)
            × ((hosting self.new).link_writes ≡ (hosting self.old).link_writes) }
        ensures kept { ((hosting self.new).last_taken ≡ (hosting self.old).last_taken) × (closed self.new ≡ closed self.old) };

    /// Takes back a link that was dialled.
    fn hang_up(&mut self, link: <Self::Door as Door>::Link)
        ensures taken { IfSome (hosting self.new).last_taken (λ bytes. (Self.Door.Link.wire link).taken ≡ Some bytes) }
        ensures reads { CountsIf (nat_lt 0 (Self.Door.Link.wire link).reads)
            (hosting self.old).link_reads (hosting self.new).link_reads }
        ensures writes { CountsIf (nat_lt 0 (Self.Door.Link.wire link).writes)
            (hosting self.old).link_writes (hosting self.new).link_writes }
        ensures faults { (hosting self.new).faults ≡ (hosting self.old).faults }
        ensures kept { ((hosting self.new).next_left ≡ (hosting self.old).next_left) × (closed self.new ≡ closed self.old) };
}
