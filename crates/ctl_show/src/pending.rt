//! Why a pending job waits, and the second that is planned for it.

ghost use Rattle.std.specs.Prelude.{◌≡◌, ◌≤◌, ◌↔◌, ℕ, All, Contains, true, IsTrue, Some, find, nat_eq, option_copied};
ghost use Rattle.backfill_planner.specs.declared.Placed.{Placed};
ghost use Rattle.job_table.specs.JobStates.{is_pending};
ghost use Rattle.job_table.specs.Targets.{AreTogether};
ghost use Rattle.ctl_state.specs.State.{last_second, state_of};
ghost use Rattle.ctl_waiting.specs.Candidates.{is_candidate};
ghost use Rattle.ctl_waiting.specs.Measured.{IsMeasured};
ghost use Rattle.ctl_show.specs.Found.{ShowsWaiting};
ghost use Rattle.ctl_show.specs.Showing;

use crate::outlook::Waiting;
use backfill_planner::Placed;
use ctl_state::cluster::Cluster;
use ctl_waiting::{Factors, hindrance_beside, is_highest};
use job_table::record::JobRecord;
use plain_data::ranged::LongRanged;
use plain_data::seconds::Second;
use request_data::state::Reason;

// Whether a job that nothing hinders is the highest in rank. Where this isn't found yet it costs what `is_highest`
// does.
#[tactic(auto, unfolding(crate::specs::Showing::highest))]
fn is_first(cluster: &Cluster, factors: &Factors, waiting: &Waiting, job: &JobRecord) -> bool
    requires together { AreTogether cluster.now.jobs.records }
    requires measured { IsMeasured (state_of cluster.now) factors.now }
    requires waiting { ShowsWaiting (state_of cluster.now) factors.now.moment waiting.now }
    requires there { Contains cluster.now.jobs.records job.now }
    requires candidate { is_candidate (state_of cluster.now) factors.now.moment job.now ≡ true }
    ensures { IsTrue result ↔ (Showing.highest (state_of cluster.now) factors.now.moment ≡ Some job.now.id) }
{
    match &waiting.shared {
        Some(shared) => shared.highest == Some(job.id),
        None => is_highest(cluster, &waiting.tally, &waiting.behind, factors, job),
    }
}

// Why a job waits that nothing hinders.
fn reason_by_rank(
    cluster: &Cluster,
    factors: &Factors,
    waiting: &Waiting,
    job: &JobRecord,
) -> Reason
    requires together { AreTogether cluster.now.jobs.records }
    requires measured { IsMeasured (state_of cluster.now) factors.now }
    requires waiting { ShowsWaiting (state_of cluster.now) factors.now.moment waiting.now }
    requires there { Contains cluster.now.jobs.records job.now }
    requires candidate { is_candidate (state_of cluster.now) factors.now.moment job.now ≡ true }
    ensures { result
        ≡ Showing.reason_by_rank (Showing.highest (state_of cluster.now) factors.now.moment) job.now }
{
    if is_first(cluster, factors, waiting, job) {
        Reason::Resources
    } else {
        Reason::Priority
    }
}

/// Why a pending job waits, at the factors' moment. Beside what `hindrance` costs it takes constant time; where the
/// highest in rank isn't found yet and nothing hinders the job, it costs what `is_highest` does.
pub(crate) fn reason_of(
    cluster: &Cluster,
    factors: &Factors,
    waiting: &Waiting,
    job: &JobRecord,
) -> Reason
    requires together { AreTogether cluster.now.jobs.records }
    requires measured { IsMeasured (state_of cluster.now) factors.now }
    requires waiting { ShowsWaiting (state_of cluster.now) factors.now.moment waiting.now }
    requires there { Contains cluster.now.jobs.records job.now }
    requires pending { is_pending job.now.state ≡ true }
    ensures { result ≡ Showing.reason_of (state_of cluster.now) factors.now.moment job.now }
{
    match hindrance_beside(
        cluster,
        &waiting.tally,
        &waiting.behind,
        factors.moment,
        job,
    ) {
        Some(reason) => reason,
        None => reason_by_rank(cluster, factors, waiting, job),
    }
}

// The placement of the job with this number.
fn placement_of(plan: &[Placed], id: u32) -> Option<&Placed>
    ensures { option_copied result ≡ find (λ (placed : Placed). nat_eq placed.id id) plan.now }
{
    plan.iter().find(|placed| placed.id == id)
}

// The second that the plan gives the job with this number. Linear in the plan.
fn start_in(plan: &[Placed], id: u32) -> Option<Second>
    requires { All (λ (placed : Placed). placed.start ≤ last_second) plan.now }
    ensures { result ≡ Showing.planned_start plan.now id }
{
    match placement_of(plan, id) {
        Some(placed) => Some(LongRanged::new(placed.start)),
        None => None,
    }
}

/// The second that is planned for a pending job. Linear in the plan, where its seconds aren't found yet.
pub(crate) fn planned_start(cluster: &Cluster, waiting: &Waiting, job: &JobRecord) -> Option<Second>
    requires { All (λ (placed : Placed). placed.start ≤ last_second) cluster.now.plan.items }
    ensures { (now : ℕ) → ShowsWaiting (state_of cluster.now) now waiting.now
        → result ≡ Showing.planned_start cluster.now.plan.items job.now.id }
{
    match &waiting.shared {
        Some(shared) if !cluster.plan.is_empty() => shared.starts.get(&job.id).copied(),
        _ => start_in(&cluster.plan, job.id),
    }
}
