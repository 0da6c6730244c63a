//! Submissions.

ghost use Rattle.std.specs.Prelude.{◌≡◌, IfOk, OnErr};
ghost use Rattle.ctl_state.specs.State.{state_of};
ghost use Rattle.ctl_state.specs.Index.{IsIndexed};
ghost use Rattle.ctl_state.specs.Soundness.{IsSound};
ghost use Rattle.ctl_state.specs.Refusals.{first_refusal, unless_refused};
ghost use Rattle.ctl_jobs.specs.Submission.{submit_refusals, submit_made};
ghost use Rattle.ctl_core.specs.Answering.{Answers};
ghost use Rattle.ctl_core.specs.Step.{unless_full};

use crate::answering::refused;
use crate::entered::Entered;
use crate::reply::Answered;
use ctl_jobs::submit::{accept, decide};
use ctl_state::cluster::Cluster;
use plain_data::job::JobDesc;
use reply_data::refusal::Refusal;
use reply_data::reply::Reply;
use small_texts::memory_error::Memory;
use small_texts::name::Name;
use std::alloc::Global;

/// A submission at its raised moment, where the history has room for it or not.
pub(crate) fn submit(
    alloc: Global,
    cluster: &mut Cluster,
    moment: u64,
    user: &Name,
    desc: &JobDesc,
    room: bool,
) -> Result<Answered, Memory>
    requires sound { IsSound (state_of cluster.old) }
    requires indexed { IsIndexed cluster.old }
    ensures ok { IfOk result (Answers (state_of cluster.old) (state_of cluster.new)
        (unless_refused (first_refusal (submit_refusals (state_of cluster.old) moment user.now desc.now))
        (unless_full room (submit_made (state_of cluster.old) moment user.now desc.now)))) }
    ensures err { OnErr result (state_of cluster.new ≡ state_of cluster.old) }
    ensures indexed { IsIndexed cluster.new }
{
    match decide(alloc, cluster, moment, user, desc)? {
        Err(refusal) => Ok(refused(refusal)),
        Ok(_) if !room => Ok(refused(Refusal::HistoryFull)),
        Ok(handed) => {
            let id = cluster.next_id;
            accept(cluster, handed)?;
            Ok(Answered {
                reply: Reply::Submitted { id },
                entered: Some(Entered::submitted(id)),
            })
        }
    }
}
