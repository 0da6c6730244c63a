//! A daemon's turns over a link.

ghost use Rattle.std.specs.Prelude.{◌≡◌, ◌<◌, ◌+◌, ◌-◌, ◌^◌};
ghost use Rattle.slurmd_link.specs.Links.{IsLinked, how_of};
ghost use Rattle.slurmd_link.specs.Turns.{scene};

use crate::text::ReplyText;
use crate::turn::{Cut, turn};
use node_daemon::daemon::DaemonState;
use slurm_io::Link;
use slurm_net::Clock;
use small_texts::name::Name;
use std::alloc::Global;

/// How a run over a link ended (own).
#[derive(Drop)]
pub enum LinkHow {
    /// All turns were made.
    Done,
    /// A reply frame has status 1, and this text.
    Refused { text: ReplyText },
    /// What was read from this byte on is no reply frame, or its text is no orders for the node. Bytes count from 0 where
    /// the run began, up to the greatest `u64`.
    BadReply { place: u64 },
    /// A read of the link failed.
    ReadFault,
    /// A write of the link failed.
    WriteFault,
    /// Memory was wanting, or a report was too long for a request.
    Memory,
}

/// How a run over a link ended, and how many turns were made before that (own).
#[derive(Drop)]
pub struct LinkEnd {
    pub how: LinkHow,
    pub made: u32,
}

// How a run ends whose turn was cut short, behind so many bytes of replies.
fn how_of(cut: Cut, place: u64) -> LinkHow
    ensures { result ≡ how_of cut place }
{
    match cut {
        Cut::Refused(text) => LinkHow::Refused { text },
        Cut::BadReply => LinkHow::BadReply { place },
        Cut::ReadFault => LinkHow::ReadFault,
        Cut::WriteFault => LinkHow::WriteFault,
        Cut::Memory => LinkHow::Memory,
    }
}

/// Lets a daemon make so many turns over a link, as a user: in each the clock is read once, the daemon polls, one frame
/// is sent and one reply frame read, the daemon takes its orders at the same moment, and the clock rests (own).
pub fn link_run<L: Link, C: Clock>(
    alloc: Global,
    link: &mut L,
    user: &Name,
    daemon: &mut DaemonState,
    clock: &mut C,
    turns: u32,
) -> LinkEnd
    requires { daemon.old.number + turns < 2 ^ 64 - 1 }
    ensures { IsLinked user.now (scene (L.wire link.old) (C.moments clock.old) daemon.old)
        (scene (L.wire link.new) (C.moments clock.new) daemon.new) turns result }
{
    let mut place: u64 = 0;
    for made in 0..turns {
        match turn(alloc, link, user, daemon, clock) {
            Ok(size) => place = place.saturating_add(size),
            Err(cut) => {
                return LinkEnd {
                    how: how_of(cut, place),
                    made,
                };
            }
        }
    }
    LinkEnd {
        how: LinkHow::Done,
        made: turns,
    }
}
