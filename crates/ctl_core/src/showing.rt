//! Queries.

ghost use Rattle.std.specs.Prelude.{◌≡◌, ◌≤◌, IfOk};
ghost use Rattle.ctl_state.specs.State.{state_of, last_moment};
ghost use Rattle.ctl_state.specs.Refusals.{first_refusal, unless_refused};
ghost use Rattle.ctl_state.specs.Soundness.{IsSound};
ghost use Rattle.ctl_state.specs.Verdicts.{Tells};
ghost use Rattle.ctl_show.specs.Showing.{show_refusals, view_of};
ghost use Rattle.ctl_core.specs.Answering.{Answers};

use crate::answering::refused;
use crate::reply::Answered;
use ctl_show::{refusal_of, view_of};
use ctl_state::cluster::Cluster;
use reply_data::reply::Reply;
use request_data::query::Query;
use small_texts::memory_error::Memory;
use small_texts::name::Name;
use std::alloc::Global;

/// What a user's query asks for, at its raised moment. It makes no entry.
pub(crate) fn show(
    alloc: Global,
    cluster: &Cluster,
    moment: u64,
    user: &Name,
    query: &Query,
) -> Result<Answered, Memory>
    requires sound { IsSound (state_of cluster.now) }
    requires in_time { moment ≤ last_moment }
    ensures { IfOk result (Answers (state_of cluster.now) (state_of cluster.now)
        (unless_refused (first_refusal (show_refusals (state_of cluster.now) query.now))
        (Tells (view_of (state_of cluster.now) moment user.now query.now)))) }
{
    match refusal_of(cluster, query) {
        Some(refusal) => Ok(refused(refusal)),
        None => {
            let view = view_of(alloc, cluster, moment, user, query)?;
            Ok(Answered {
                reply: Reply::Shown(view),
                entered: None,
            })
        }
    }
}
