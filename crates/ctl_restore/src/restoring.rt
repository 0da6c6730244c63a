//! A cluster restored of what was saved of one.

ghost use Rattle.std.specs.Prelude.{◌≡◌, ◌≢◌, ◌≤◌, ◌<◌, ◌↔◌, [], IfOk, OnOk, IsErrOf, IsTrue, All, AllPairs, length, map};
ghost use Rattle.node_state.specs.Held.{HoldsNothing};
ghost use Rattle.job_table.specs.declared.record.JobRecord.{JobRecord as OneJob};
ghost use Rattle.job_table.specs.declared.record.Part.{Part as OnePart};
ghost use Rattle.job_table.specs.Table.{HaveRisingIds};
ghost use Rattle.ctl_state.specs.Holding.{parts_of};
ghost use Rattle.ctl_state.specs.Index.{IsIndexed, ShowsParts};
ghost use Rattle.ctl_state.specs.Soundness.{IsSound};
ghost use Rattle.ctl_state.specs.State.{state_of};
ghost use Rattle.saved_data.specs.declared.parts.SavedNode.{SavedNode as OneNode};
ghost use Rattle.ctl_restore.specs.Fits.{Fits, IsKnown, IsList, IsRestored, IsStanding};
ghost use Rattle.ctl_restore.specs.Parts.{ArePartsOf, AreReserved, AreWellKept, HasParts, IsJustOpened, TellsUsage};
ghost use Rattle.ctl_restore.specs.Restored as spec;
ghost use Rattle.ctl_restore.specs.Restored.{standings};
ghost use Rattle.ctl_restore.specs.Steps.{IsPlain, IsUnheard, LeadsToLines, LeadsToUsers};

use crate::accounts::places_of_users;
use crate::arrays::restored_arrays;
use crate::holding::hold_jobs;
use crate::jobs::restored_jobs;
use crate::kept::{are_kept, are_up};
use crate::known::is_known;
use crate::nodes::restore_nodes;
use crate::opening::opened;
use crate::partitions::restore_partitions;
use crate::plain::is_plain;
use crate::plan::{plans_pending, restored_plan};
use crate::refusal::RestoreRefusal;
use crate::reservations::restored_reservations;
use crate::standings::{find_standings, places_by_name, still_dropped};
use crate::usage::restored_usages;
use backfill_planner::Placed;
use ctl_state::cluster::Cluster;
use ctl_state::laws::nodes_that_stay_keep_all_sound;
use ctl_state::record::ArrayRecord;
use job_table::jobs::Jobs;
use job_table::record::JobRecord;
use node_state::nodes::Nodes;
use node_state::record::DroppedNode;
use node_state::reservations::Reservations;
use plain_data::assoc::AssocFile;
use plain_data::conf::Conf;
use saved_data::parts::SavedNode;
use saved_data::saved::Saved;
use small_texts::memory_error::Memory;
use small_texts::name::Name;
use std::alloc::Global;
use std::collections::HashMap;

// How many jobs are kept at most (own).
const MOST_JOBS: u64 = 20_000;

// What is put into a cluster that has only opened.
#[derive(Drop)]
struct Parts {
    dropped: Vec<DroppedNode>,
    jobs: Vec<JobRecord>,
    arrays: Vec<ArrayRecord>,
    plan: Vec<Placed>,
    gone: Vec<Name>,
}

// What the associations have used, where the lines are of associations that differ.
fn usage_of(
    alloc: Global,
    cluster: &Cluster,
    users: &HashMap<Name, usize>,
    saved: &Saved,
) -> Result<Vec<u64>, RestoreRefusal>
    requires { LeadsToUsers cluster.now.assocs.records users.now }
    ensures usage { IfOk result (λ usage. usage.items ≡ spec.restored_usages saved.now.usage cluster.now.assocs.records) }
    ensures told { OnOk result (TellsUsage cluster.now.assocs.records saved.now) }
    ensures unfit { IsErrOf result RestoreRefusal.Unfit → TellsUsage cluster.now.assocs.records saved.now → ⊥ }
{
    match restored_usages(alloc, &cluster.assocs, users, saved.usage.as_slice())? {
        Some(usage) => Ok(usage),
        None => Err(RestoreRefusal::Unfit),
    }
}

// The reservations, where they can stand beside each other.
fn reservations_of(
    alloc: Global,
    nodes: &Nodes,
    saved: &Saved,
) -> Result<Reservations, RestoreRefusal>
    ensures reservations { IfOk result (λ reservations. reservations
        ≡ map (spec.restored_reservation nodes.now.records) saved.now.reservations) }
    ensures stand { OnOk result (AreReserved nodes.now.records saved.now) }
    ensures unfit { IsErrOf result RestoreRefusal.Unfit → AreReserved nodes.now.records saved.now → ⊥ }
{
    match restored_reservations(alloc, nodes, saved.reservations.as_slice())? {
        Some(reservations) => Ok(reservations),
        None => Err(RestoreRefusal::Unfit),
    }
}

// The places of the lines on nodes, where nothing is said of one twice.
fn line_places(alloc: Global, lines: &[SavedNode]) -> Result<HashMap<Name, usize>, RestoreRefusal>
    ensures places { IfOk result (LeadsToLines lines.now) }
    ensures once { OnOk result (AllPairs (λ (one other : OneNode). one.name ≢ other.name) lines.now) }
    ensures unfit { IsErrOf result RestoreRefusal.Unfit
        → AllPairs (λ (one other : OneNode). one.name ≢ other.name) lines.now → ⊥ }
{
    match places_by_name(alloc, lines)? {
        Some(places) => Ok(places),
        None => Err(RestoreRefusal::Unfit),
    }
}

// Puts the nodes as they stand by what is saved of them, where nothing is said of one twice.
fn stand_nodes(alloc: Global, nodes: &mut Nodes, saved: &Saved) -> Result<(), RestoreRefusal>
    requires unheard { All IsUnheard nodes.old.records }
    requires standing { All (IsStanding saved.now.moment) saved.now.nodes }
    ensures records { OnOk result (nodes.new.records ≡ map (spec.restored_node (standings saved.now)) nodes.old.records) }
    ensures held { OnOk result (nodes.new.held ≡ nodes.old.held) }
    ensures once { OnOk result (AllPairs (λ (one other : OneNode). one.name ≢ other.name) (standings saved.now)) }
    ensures unfit { IsErrOf result RestoreRefusal.Unfit
        → AllPairs (λ (one other : OneNode). one.name ≢ other.name) (standings saved.now) → ⊥ }
{
    let lines = find_standings(alloc, saved)?;
    let places = line_places(alloc, lines.as_slice())?;
    restore_nodes(nodes, lines.as_slice(), &places);
    Ok(())
}

// What is saved beside partitions, nodes, usage and reservations, with the places of a cluster that has only opened.
fn find_parts(
    alloc: Global,
    cluster: &Cluster,
    users: &HashMap<Name, usize>,
    saved: &Saved,
) -> Result<Parts, Memory>
    requires users { LeadsToUsers cluster.now.assocs.records users.now }
    requires arrays { All IsList saved.now.arrays }
    ensures { IfOk result (ArePartsOf (state_of cluster.now) saved.now) }
{
    let (plan, gone) = restored_plan(alloc, &cluster.nodes, saved.plan.as_slice())?;
    Ok(Parts {
        dropped: still_dropped(alloc, &cluster.nodes, saved.dropped.as_slice())?,
        jobs: restored_jobs(alloc, cluster, users, saved.jobs.as_slice())?,
        arrays: restored_arrays(alloc, saved.arrays.as_slice())?,
        plan,
        gone,
    })
}

// Whether all is sound of the jobs by themselves and of what they hold, which is taken then.
fn hold_well(nodes: &mut Nodes, moment: u64, jobs: &[JobRecord]) -> bool
    requires nothing { HoldsNothing nodes.old.held }
    requires there { All (λ (job : OneJob). All (λ (part : OnePart). part.node < 1024) job.parts) jobs.now }
    ensures records { nodes.new.records ≡ nodes.old.records }
    ensures shown { IsTrue result → ShowsParts nodes.new.held (parts_of jobs.now) }
    ensures well { IsTrue result ↔ AreWellKept moment nodes.old.records jobs.now }
{
    hold_jobs(nodes, jobs) && are_up(nodes, jobs) && are_kept(moment, jobs)
}

// Puts jobs, whose numbers rise, into a table that has none.
fn add_jobs(jobs: &mut Jobs, more: Vec<JobRecord>) -> Result<(), Memory>
    requires none { jobs.old.records ≡ [] }
    requires rising { HaveRisingIds more.items }
    requires few { length more.items ≤ 20000 }
    ensures records { OnOk result (jobs.new.records ≡ more.items) }
    ensures usage { jobs.new.usage ≡ jobs.old.usage }
{
    jobs.add(more, MOST_JOBS).map_err(|_| Memory)
}

// Puts what is saved into a cluster that has only opened.
fn put(
    alloc: Global,
    cluster: &mut Cluster,
    usage: Vec<u64>,
    reservations: Reservations,
    parts: Parts,
    saved: &Saved,
) -> Result<(), RestoreRefusal>
    requires opened { IsJustOpened cluster.old }
    requires plain { IsPlain saved.now }
    requires known { IsKnown (state_of cluster.old) saved.now }
    requires usage { usage.items ≡ spec.restored_usages saved.now.usage cluster.old.assocs.records }
    requires reservations { reservations ≡ map (spec.restored_reservation cluster.old.nodes.records) saved.now.reservations }
    requires reserved { AreReserved cluster.old.nodes.records saved.now }
    requires parts { ArePartsOf (state_of cluster.old) saved.now parts }
    ensures state { OnOk result (state_of cluster.new ≡ spec.restored_over (state_of cluster.old) saved.now) }
    ensures sound { OnOk result (IsSound (state_of cluster.new)) }
    ensures indexed { OnOk result (IsIndexed cluster.new) }
    ensures once { OnOk result (AllPairs (λ (one other : OneNode). one.name ≢ other.name) (standings saved.now)) }
    ensures unfit { IsErrOf result RestoreRefusal.Unfit
        → AllPairs (λ (one other : OneNode). one.name ≢ other.name) (standings saved.now)
        → IsSound (spec.restored_over (state_of cluster.old) saved.now) → ⊥ }
{
    nodes_that_stay_keep_all_sound();
    restore_partitions(&mut cluster.partitions, saved.partitions.as_slice());
    stand_nodes(alloc, &mut cluster.nodes, saved)?;
    if !hold_well(&mut cluster.nodes, saved.moment, parts.jobs.as_slice()) {
        return Err(RestoreRefusal::Unfit);
    }
    add_jobs(&mut cluster.jobs, parts.jobs)?;
    if !plans_pending(alloc, &cluster.jobs, parts.plan.as_slice())? {
        return Err(RestoreRefusal::Unfit);
    }
    cluster.jobs.put_usage_back(usage);
    cluster.dropped = parts.dropped;
    cluster.reservations = reservations;
    cluster.arrays = parts.arrays;
    cluster.plan = parts.plan;
    cluster.gone = parts.gone;
    cluster.next_id = saved.next_id;
    cluster.moment = saved.moment;
    Ok(())
}

// Whether a saved state fits, as far as can be seen before anything is restored.
fn is_meant(cluster: &Cluster, users: &HashMap<Name, usize>, saved: &Saved) -> bool
    requires { LeadsToUsers cluster.now.assocs.records users.now }
    ensures { IsTrue result ↔ (IsPlain saved.now × IsKnown (state_of cluster.now) saved.now) }
{
    is_plain(saved) && is_known(cluster, users, saved)
}

// Restores a cluster that has only opened.
fn fill(alloc: Global, cluster: &mut Cluster, saved: &Saved) -> Result<(), RestoreRefusal>
    requires { IsJustOpened cluster.old }
    ensures state { OnOk result (state_of cluster.new ≡ spec.restored_over (state_of cluster.old) saved.now) }
    ensures sound { OnOk result (IsSound (state_of cluster.new)) }
    ensures indexed { OnOk result (IsIndexed cluster.new) }
    ensures parts { OnOk result (HasParts (state_of cluster.old) saved.now) }
    ensures unfit { IsErrOf result RestoreRefusal.Unfit → HasParts (state_of cluster.old) saved.now
        → IsSound (spec.restored_over (state_of cluster.old) saved.now) → ⊥ }
{
    let users = places_of_users(alloc, cluster.assocs.records())?;
    if !is_meant(cluster, &users, saved) {
        return Err(RestoreRefusal::Unfit);
    }
    let usage = usage_of(alloc, cluster, &users, saved)?;
    let reservations = reservations_of(alloc, &cluster.nodes, saved)?;
    let parts = find_parts(alloc, cluster, &users, saved)?;
    put(alloc, cluster, usage, reservations, parts, saved)
}

/// The cluster that is restored of what was saved of one, over the two files: all of it is true that a controller keeps.
pub fn restored_cluster(
    alloc: Global,
    conf: Conf,
    assocs: AssocFile,
    saved: &Saved,
) -> Result<Cluster, RestoreRefusal>
    ensures restored { IfOk result (λ cluster. IsRestored conf assocs saved.now (state_of cluster)) }
    ensures sound { IfOk result (λ cluster. IsSound (state_of cluster)) }
    ensures indexed { IfOk result IsIndexed }
    ensures unfit { IsErrOf result RestoreRefusal.Unfit → Fits conf assocs saved.now → ⊥ }
{
    let mut cluster = opened(alloc, conf, assocs)?;
    match fill(alloc, &mut cluster, saved) {
        Ok(()) => Ok(cluster),
        Err(refusal) => Err(refusal),
    }
}
