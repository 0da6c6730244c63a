//! What the parts of a server take of its book's settings.

ghost use Rattle.std.specs.Prelude.{◌≡◌, IfOk};
ghost use Rattle.ctl_desk.specs.History.{history_in, present};
ghost use Rattle.ctl_server.specs.Daemons.{daemons_of};

use crate::daemons::{rests_for, start_daemons};
use ctl_desk::book::Book;
use node_daemon::daemon::DaemonState;
use small_texts::memory_error::Memory;
use std::alloc::Global;

/// What the parts beside the workers take of the settings.
#[derive(Drop)]
pub(crate) struct Pace {
    /// How many seconds lie between two plans, at the most: bf_interval in slurm.conf(5).
    pub interval: u32,
    /// How often the daemons' part rests between two rounds.
    pub rests: u64,
    /// The daemons of the nodes.
    pub daemons: Vec<DaemonState>,
}

impl Pace {
    /// Lets it go.
    pub(crate) fn let_go(self) {}
}

/// What the parts take of the settings of this book. Linear in its nodes.
pub(crate) fn pace_of(alloc: Global, book: &Book) -> Result<Pace, Memory>
    ensures daemons { IfOk result (λ pace. pace.daemons.items ≡ daemons_of (present (history_in book.now)).nodes) }
{
    let ctl = book.ctl();
    let settings = ctl.settings();
    Ok(Pace {
        interval: settings.bf_interval.get() as u32,
        rests: rests_for(settings.slurmd_timeout.get()),
        daemons: start_daemons(alloc, ctl.nodes().records())?,
    })
}
