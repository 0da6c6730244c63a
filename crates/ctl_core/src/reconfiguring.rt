//! A new slurm.conf.

ghost use Rattle.std.specs.Prelude.{◌≡◌, ◌≤◌, IfOk, OnErr};
ghost use Rattle.ctl_state.specs.State.{state_of, last_moment};
ghost use Rattle.ctl_state.specs.Index.{IsIndexed};
ghost use Rattle.ctl_state.specs.Soundness.{IsSound};
ghost use Rattle.ctl_state.specs.Refusals.{first_refusal, unless_refused};
ghost use Rattle.ctl_reconfigure.specs.Reconfiguring.{reconfigure_made};
ghost use Rattle.ctl_reconfigure.specs.Refusing.{reconfigure_refusals};
ghost use Rattle.ctl_core.specs.Answering.{Answers};
ghost use Rattle.ctl_core.specs.Step.{unless_full};

use crate::answering::{done, idle, refused};
use crate::reply::Answered;
use ctl_reconfigure::{changes_any, refusal_of};
use ctl_state::cluster::Cluster;
use plain_data::conf::Conf;
use reply_data::refusal::Refusal;
use small_texts::memory_error::Memory;
use small_texts::name::Name;
use std::alloc::Global;

/// A new slurm.conf at its raised moment, where the history has room for it or not. Linear in both files, in the jobs and
/// their parts and in the plan, and for each reservation in the nodes.
pub(crate) fn reconfigure(
    alloc: Global,
    cluster: &mut Cluster,
    moment: u64,
    user: &Name,
    conf: &Conf,
    room: bool,
) -> Result<Answered, Memory>
    requires sound { IsSound (state_of cluster.old) }
    requires raised { cluster.old.moment ≤ moment }
    requires in_time { moment ≤ last_moment }
    requires indexed { IsIndexed cluster.old }
    ensures ok { IfOk result (Answers (state_of cluster.old) (state_of cluster.new)
        (unless_refused (first_refusal (reconfigure_refusals (state_of cluster.old) user.now conf.now))
        (unless_full room (reconfigure_made (state_of cluster.old) moment conf.now)))) }
    ensures err { OnErr result (state_of cluster.new ≡ state_of cluster.old) }
    ensures indexed { IsIndexed cluster.new }
{
    if let Some(refusal) = refusal_of(cluster, user, conf) {
        return Ok(refused(refusal));
    }
    if !changes_any(cluster, conf) {
        return Ok(idle());
    }
    if !room {
        return Ok(refused(Refusal::HistoryFull));
    }
    ctl_reconfigure::reconfigure(alloc, cluster, moment, conf)?;
    Ok(done())
}
