//! A script from a link's input to its output.

ghost use Rattle.std.specs.Prelude.{◌≡◌};
ghost use Rattle.cluster_opening.specs.Files.{fresh};
ghost use Rattle.script_run.specs.Leaving.{IsAnsweredAt};

use block_frame::{Form, blocks_are_cut_once, blocks_go_first, nothing_is_partial, spellings_join};
use ctl_core::laws::raised_moments_decide_alike;
use ctl_desk::own_desk::OwnDesk;
use ctl_node_side::laws::passes_are_free;
use ctl_session::{How, serve_link};
use resource_profile::start;
use slurm_io::Link;
use slurm_net::MemClock;
use std::alloc::Global;

/// Answers the blocks of a link at a desk of its own, at which no one has asked anything.
pub(crate) fn answer_script<L: Link>(alloc: Global, desk: &mut OwnDesk, link: &mut L) -> How
    requires fresh { desk.old ≡ fresh desk.old.opening }
    ensures { IsAnsweredAt desk.old.opening (L.wire link.old) (L.wire link.new) desk.new result }
{
    raised_moments_decide_alike();
    passes_are_free();
    blocks_are_cut_once();
    blocks_go_first();
    nothing_is_partial();
    spellings_join();
    let mut clock = MemClock::new(0, 0);
    let ended = serve_link(alloc, Form::Plain, link, desk, &mut clock, &mut start());
    ended.how
}
