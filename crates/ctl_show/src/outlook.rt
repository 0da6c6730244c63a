//! What a query of jobs finds once for all rows.

ghost use Rattle.std.specs.Prelude.{◌≡◌, ◌≢◌, ◌≤◌, ℕ, true, is_some, IfOk, IfSome, OnOk, All, AllPairs, nat_eq};
ghost use Rattle.std.specs.HashMap.{get};
ghost use Rattle.backfill_planner.specs.declared.Placed.{Placed};
ghost use Rattle.ctl_state.specs.State.{last_second, state_of};
ghost use Rattle.ctl_state.specs.Soundness.{IsSound};
ghost use Rattle.ctl_waiting.specs.Measured.{IsMeasured};
ghost use Rattle.ctl_show.specs.Found.{IsOutlook, HasFound, ShowsWaiting};
ghost use Rattle.ctl_show.specs.Showing;

use crate::spans::Extent;
use backfill_planner::Placed;
use ctl_state::cluster::Cluster;
use ctl_state::counting::count_holding;
use ctl_state::jobs::is_pending;
use ctl_waiting::{Factors, highest_beside, measure};
use job_table::behind::Behind;
use job_table::record::JobRecord;
use plain_data::ranged::LongRanged;
use plain_data::seconds::Second;
use run_limits::tally::Tally;
use small_texts::memory_error::Memory;
use std::alloc::Global;
use std::collections::HashMap;

/// What the rows of many pending jobs share.
#[derive(Drop)]
pub(crate) struct Shared {
    /// The number of the job that is highest in rank.
    pub(crate) highest: Option<u32>,
    /// The seconds that the plan gives, by the numbers of the jobs.
    pub(crate) starts: HashMap<u32, Second>,
}

/// What the rows of pending jobs need of the other jobs and of the plan.
#[derive(Drop)]
pub(crate) struct Waiting {
    /// What the jobs count that hold processors.
    pub(crate) tally: Tally,
    /// Which jobs have others of their user and name before them.
    pub(crate) behind: Behind,
    /// What is found once for all rows, where many are shown: where few are, it is found for each.
    pub(crate) shared: Option<Shared>,
}

/// What rows need beside their jobs.
#[derive(Drop)]
pub(crate) struct Outlook {
    /// What the priorities rest on.
    pub(crate) factors: Factors,
    /// What the rows of pending jobs need besides, once one is shown.
    pub(crate) waiting: Option<Waiting>,
}

// The seconds that the plan gives, by the numbers of the jobs. Linear in the plan.
fn starts_of(alloc: Global, plan: &[Placed]) -> Result<HashMap<u32, Second>, Memory>
    requires once { AllPairs (λ (one other : Placed). one.id ≢ other.id) plan.now }
    requires last { All (λ (placed : Placed). placed.start ≤ last_second) plan.now }
    ensures { IfOk result (λ starts. (id : ℕ) → get nat_eq starts id ≡ Showing.planned_start plan.now id) }
{
    let mut starts = HashMap::with_capacity(alloc, plan.len())?;
    for placed in plan {
        starts.insert(placed.id, LongRanged::new(placed.start))?;
    }
    Ok(starts)
}

// What the rows of many pending jobs need, at the factors' moment. Linear in the jobs and the plan; each job that holds
// processors, and each pending one that is higher in rank than the candidates before it, costs its association's way up
// to root besides.
fn waiting_for_many(alloc: Global, cluster: &Cluster, factors: &Factors) -> Result<Waiting, Memory>
    requires sound { IsSound (state_of cluster.now) }
    requires measured { IsMeasured (state_of cluster.now) factors.now }
    ensures { IfOk result (ShowsWaiting (state_of cluster.now) factors.now.moment) }
{
    let tally = count_holding(alloc, &cluster.assocs, &cluster.jobs)?;
    let behind = Behind::of(alloc, &cluster.jobs)?;
    let shared = Shared {
        highest: highest_beside(cluster, &tally, &behind, factors),
        starts: starts_of(alloc, &cluster.plan)?,
    };
    Ok(Waiting {
        tally,
        behind,
        shared: Some(shared),
    })
}

// What the rows of few pending jobs need, at any moment: each that is shown looks for the rest by itself. One look for
// each 64 jobs of which none holds processors, and each that does costs its association's way up to root; where the
// terms of one say to wait for those before it of its user and name it is linear in the jobs besides.
fn waiting_for_few(alloc: Global, cluster: &Cluster) -> Result<Waiting, Memory>
    requires { IsSound (state_of cluster.now) }
    ensures { IfOk result (λ waiting. (now : ℕ) → ShowsWaiting (state_of cluster.now) now waiting) }
{
    let tally = count_holding(alloc, &cluster.assocs, &cluster.jobs)?;
    let behind = Behind::of(alloc, &cluster.jobs)?;
    Ok(Waiting {
        tally,
        behind,
        shared: None,
    })
}

// What the rows of pending jobs need, at the factors' moment.
fn waiting_at(
    alloc: Global,
    cluster: &Cluster,
    factors: &Factors,
    extent: Extent,
) -> Result<Waiting, Memory>
    requires sound { IsSound (state_of cluster.now) }
    requires measured { IsMeasured (state_of cluster.now) factors.now }
    ensures { IfOk result (ShowsWaiting (state_of cluster.now) factors.now.moment) }
{
    match extent {
        Extent::Few => waiting_for_few(alloc, cluster),
        Extent::Many => waiting_for_many(alloc, cluster, factors),
    }
}

// What the priorities rest on at a moment, and nothing yet of what pending jobs need. It costs what `measure` does.
fn outlook_of(alloc: Global, cluster: &Cluster, moment: u64) -> Result<Outlook, Memory>
    ensures { IfOk result (IsOutlook (state_of cluster.now) moment) }
{
    Ok(Outlook {
        factors: measure(alloc, cluster, moment)?,
        waiting: None,
    })
}

// Makes the outlook, where there is none yet.
fn find_outlook(
    alloc: Global,
    cluster: &Cluster,
    moment: u64,
    outlook: &mut Option<Outlook>,
) -> Result<(), Memory>
    requires { IfSome outlook.old (IsOutlook (state_of cluster.now) moment) }
    ensures outlook { OnOk result (IfSome outlook.new (IsOutlook (state_of cluster.now) moment)) }
    ensures there { OnOk result (is_some outlook.new ≡ true) }
{
    if outlook.is_none() {
        *outlook = Some(outlook_of(alloc, cluster, moment)?);
    }
    Ok(())
}

// Finds what pending jobs need, where the job is one and this isn't found yet.
fn find_waiting(
    alloc: Global,
    cluster: &Cluster,
    extent: Extent,
    outlook: &mut Outlook,
    job: &JobRecord,
) -> Result<(), Memory>
    requires sound { IsSound (state_of cluster.now) }
    requires measured { IsMeasured (state_of cluster.now) outlook.old.factors }
    ensures outlook { (now : ℕ) → IsOutlook (state_of cluster.now) now outlook.old
        → OnOk result (IsOutlook (state_of cluster.now) now outlook.new) }
    ensures found { OnOk result (HasFound outlook.new job.now) }
{
    if is_pending(job) && outlook.waiting.is_none() {
        outlook.waiting = Some(waiting_at(alloc, cluster, &outlook.factors, extent)?);
    }
    Ok(())
}

/// Finds what the job's row needs, as far as it isn't found yet. The first time it measures what the priorities rest
/// on: linear in nodes, partitions, associations, the jobs that hold something and their parts, with one look for each
/// 64 others, beside a sort of the users by what they have used. At the first pending job each that holds processors
/// costs its association's way up to root besides, and it is linear in the jobs where the terms of one say to wait for
/// those before it of its user and name; where many are shown it is linear in the jobs and the plan then, and each
/// pending one that is higher in rank than the candidates before it costs such a way too. Else it takes constant time.
pub(crate) fn look(
    alloc: Global,
    cluster: &Cluster,
    moment: u64,
    extent: Extent,
    outlook: &mut Option<Outlook>,
    job: &JobRecord,
) -> Result<(), Memory>
    requires sound { IsSound (state_of cluster.now) }
    requires outlook { IfSome outlook.old (IsOutlook (state_of cluster.now) moment) }
    ensures outlook { OnOk result (IfSome outlook.new (IsOutlook (state_of cluster.now) moment)) }
    ensures there { OnOk result (is_some outlook.new ≡ true) }
    ensures found { OnOk result (IfSome outlook.new (λ outlook. HasFound outlook job.now)) }
{
    find_outlook(alloc, cluster, moment, outlook)?;
    find_waiting(alloc, cluster, extent, outlook.as_mut().unwrap(), job)
}
