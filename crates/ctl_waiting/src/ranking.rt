//! The jobs that can be planned, by rank, and what they need.

ghost use Rattle.std.specs.Prelude.{◌≡◌, ◌≤◌, ◌<◌, ◌↔◌, All, Contains, IfOk, IfSome, IsTrue, length, map, filter, filter_map, option_map, slice_get, None, Some, true};
ghost use Rattle.std.specs.Option.{option_map_or};
ghost use Rattle.std.specs.Ordering.{is_lt};
ghost use Rattle.backfill_planner.specs.declared.job.PlanJob.{PlanJob};
ghost use Rattle.job_table.specs.declared.record.JobRecord.{JobRecord};
ghost use Rattle.run_limits.specs.Tallies.{Shows};
ghost use Rattle.ctl_state.specs.Counted.{holding};
ghost use Rattle.ctl_state.specs.Planning;
ghost use Rattle.ctl_state.specs.Soundness.{IsSound};
ghost use Rattle.ctl_state.specs.State.{state_of};
ghost use Rattle.node_state.specs.Partitions.{IsOnNodes};
ghost use Rattle.ctl_waiting.specs.Measured.{IsMeasured};
ghost use Rattle.ctl_waiting.specs.Rank;
ghost use Rattle.ctl_waiting.specs.declared.rank_keys.RankKey.{RankKey};
ghost use Rattle.job_table.specs.Behind.{ShowsBehind};
ghost use Rattle.job_table.specs.Targets.{AreTogether};
ghost use Rattle.node_state.specs.Reservations.{lasting};
ghost use Rattle.ctl_waiting.specs.Candidates;
ghost use Rattle.ctl_waiting.specs.Needs;

use crate::reasons::hindrance_beside;
use crate::{Factors, RankKey, is_above, key_of};
use backfill_planner::{BarredList, NodeList, PlanJob};
use ctl_state::cluster::Cluster;
use ctl_state::jobs::is_pending;
use ctl_state::laws::{a_stable_sort_makes_the_order, jobs_get_nodes_that_are_there};
use ctl_state::planning::{bounds_in, node_order, plan_job};
use ctl_state::reserved::{barred_for, lasting_named, places_in};
use job_table::behind::Behind;
use job_table::record::JobRecord;
use node_state::partition_record::PartRecord;
use node_state::record::NodeRecord;
use run_limits::tally::Tally;
use small_texts::memory_error::Memory;
use small_texts::name::Name;
use std::alloc::Global;
use std::cmp::Ordering;

// A job that can be planned, and what it is ranked by.
#[derive(Drop)]
struct Candidate<'a> {
    job: &'a JobRecord,
    key: RankKey,
}

// Whether the job waits, and nothing hinders it at this moment.
fn is_candidate(
    cluster: &Cluster,
    tally: &Tally,
    behind: &Behind,
    moment: u64,
    job: &JobRecord,
) -> bool
    requires together { AreTogether cluster.now.jobs.records }
    requires counted { Shows cluster.now.assocs.records tally.now (holding cluster.now.jobs.records) }
    requires behind { ShowsBehind behind.now cluster.now.jobs.records job.now }
    ensures { result ≡ Candidates.is_candidate (state_of cluster.now) moment job.now }
{
    is_pending(job) && hindrance_beside(cluster, tally, behind, moment, job).is_none()
}

// The candidates at the factors' moment in the order of their numbers, each with what it is ranked by.
fn candidates_of<'a>(
    alloc: Global,
    cluster: &'a Cluster,
    tally: &Tally,
    factors: &Factors,
) -> Result<Vec<Candidate<'a>>, Memory>
    requires together { AreTogether cluster.now.jobs.records }
    requires counted { Shows cluster.now.assocs.records tally.now (holding cluster.now.jobs.records) }
    requires measured { IsMeasured (state_of cluster.now) factors.now }
    ensures { IfOk result (λ some. map {B = JobRecord × RankKey} (λ one. (one.job.now, one.key)) some.items
        ≡ map (λ (job : JobRecord). (job, Rank.key_of (state_of cluster.now) factors.now.moment job))
        (filter (Candidates.is_candidate (state_of cluster.now) factors.now.moment) cluster.now.jobs.records)) }
{
    let behind = Behind::of(alloc, &cluster.jobs)?;
    let mut some = Vec::new(alloc);
    for job in cluster.jobs.records() {
        if is_candidate(cluster, tally, &behind, factors.moment, job) {
            let key = key_of(factors, cluster, job);
            some.push(Candidate { job, key })?;
        }
    }
    Ok(some)
}

// How two candidates are ordered: the one that is higher in rank comes first.
fn compare(one: RankKey, other: RankKey) -> Ordering
    ensures { is_lt result ≡ Rank.is_above one other }
{
    if is_above(one, other) {
        Ordering::Less
    } else if is_above(other, one) {
        Ordering::Greater
    } else {
        Ordering::Equal
    }
}

// The candidates at the factors' moment, highest in rank first: a stable sort.
fn by_rank<'a>(
    alloc: Global,
    cluster: &'a Cluster,
    tally: &Tally,
    factors: &Factors,
) -> Result<Vec<Candidate<'a>>, Memory>
    requires together { AreTogether cluster.now.jobs.records }
    requires counted { Shows cluster.now.assocs.records tally.now (holding cluster.now.jobs.records) }
    requires measured { IsMeasured (state_of cluster.now) factors.now }
    ensures { IfOk result (λ some. map (λ one. one.job.now) some.items
        ≡ Candidates.candidates (state_of cluster.now) factors.now.moment) }
{
    let mut some = candidates_of(alloc, cluster, tally, factors)?;
    a_stable_sort_makes_the_order::<Candidate>();
    some.sort_by(|one, other| compare(one.key, other.key))?;
    Ok(some)
}

// The order of the nodes of each partition, each made once: its jobs share it.
fn node_orders(
    alloc: Global,
    nodes: &[NodeRecord],
    partitions: &[PartRecord],
) -> Result<Vec<NodeList>, Memory>
    requires { All (IsOnNodes (length nodes.now)) partitions.now }
    ensures { IfOk result (λ orders. orders.items ≡ map (Planning.node_order nodes.now) partitions.now) }
{
    let mut orders = Vec::with_capacity(alloc, partitions.len())?;
    for partition in partitions {
        orders.push(node_order(alloc, nodes, partition)?)?;
    }
    Ok(orders)
}

// Those of a partition's nodes, in this order, that a job may have by the reservation that it names.
#[tactic(auto, unfolding(ctl_state::specs::Planning::places_for))]
fn places_for(
    alloc: Global,
    cluster: &Cluster,
    moment: u64,
    partition: &PartRecord,
    order: &NodeList,
    named: &Option<Name>,
) -> Result<NodeList, Memory>
    requires { order.now ≡ Planning.node_order cluster.now.nodes.records partition.now }
    ensures { IfOk result (λ places. places ≡ Planning.places_for cluster.now.nodes.records
        (lasting moment cluster.now.reservations) partition.now named.now) }
{
    let Some(name) = named else {
        return order.share();
    };
    match lasting_named(&cluster.reservations, moment, name) {
        Some(reservation) => places_in(alloc, reservation, order),
        None => NodeList::from_vec(Vec::new(alloc)),
    }
}

// When the job may not have which nodes; a job that names no reservation shares this list.
fn barred_from(
    alloc: Global,
    cluster: &Cluster,
    moment: u64,
    unnamed: &BarredList,
    job: &JobRecord,
) -> Result<BarredList, Memory>
    requires { unnamed.now ≡ Planning.barred_of (lasting moment cluster.now.reservations) None }
    ensures { IfOk result (λ barred. barred
        ≡ Planning.barred_of (lasting moment cluster.now.reservations) job.now.terms.reservation) }
{
    if job.terms().reservation.is_none() {
        return unnamed.share();
    }
    barred_for(
        alloc,
        &cluster.reservations,
        moment,
        &job.terms().reservation,
    )
}

// What all candidates of a moment are planned by: the order of the nodes of each partition, and when a job that names
// no reservation may not have which nodes.
#[derive(Drop)]
struct Grounds {
    moment: u64,
    orders: Vec<NodeList>,
    barred: BarredList,
}

fn grounds_of(alloc: Global, cluster: &Cluster, moment: u64) -> Result<Grounds, Memory>
    requires { All (IsOnNodes (length cluster.now.nodes.records)) cluster.now.partitions }
    ensures { IfOk result (Needs.AreGrounds (state_of cluster.now) moment) }
{
    Ok(Grounds {
        moment,
        orders: node_orders(alloc, cluster.nodes.records(), cluster.partitions.records())?,
        barred: barred_for(alloc, &cluster.reservations, moment, &None)?,
    })
}

// What a job needs in its partition, if it can be had there.
#[tactic(auto, unfolding(crate::specs::Candidates::needs_of))]
fn need_of(
    alloc: Global,
    cluster: &Cluster,
    grounds: &Grounds,
    job: &JobRecord,
) -> Result<Option<PlanJob>, Memory>
    requires partitions { All (IsOnNodes (length cluster.now.nodes.records)) cluster.now.partitions }
    requires grounds { Needs.AreGrounds (state_of cluster.now) grounds.now.moment grounds.now }
    ensures need { IfOk result (λ need. need ≡ Candidates.needs_of (state_of cluster.now) grounds.now.moment job.now) }
    ensures nodes { IfOk result (λ need. IfSome need (λ plan.
        All (λ node. node < length cluster.now.nodes.records) plan.nodes)) }
    ensures tasks { IfOk result (λ need. IfSome need (λ plan. 1 ≤ plan.need.tasks)) }
{
    jobs_get_nodes_that_are_there();
    let Some(partition) = cluster.partitions.at(job.partition) else {
        return Ok(None);
    };
    let Some(bounds) = bounds_in(partition, job.terms()) else {
        return Ok(None);
    };
    let order = &grounds.orders[job.partition as usize];
    let named = &job.terms().reservation;
    let places = places_for(alloc, cluster, grounds.moment, partition, order, named)?;
    let barred = barred_from(alloc, cluster, grounds.moment, &grounds.barred, job)?;
    let nodes = cluster.nodes.records();
    Ok(Some(plan_job(alloc, nodes, partition, &places, barred, bounds, job)?))
}

// What the candidates need, in their order.
fn needs_of(
    alloc: Global,
    cluster: &Cluster,
    grounds: &Grounds,
    candidates: &[Candidate],
) -> Result<Vec<PlanJob>, Memory>
    requires partitions { All (IsOnNodes (length cluster.now.nodes.records)) cluster.now.partitions }
    requires grounds { Needs.AreGrounds (state_of cluster.now) grounds.now.moment grounds.now }
    ensures ranked { IfOk result (λ ranked. ranked.items ≡ filter_map
        (Candidates.needs_of (state_of cluster.now) grounds.now.moment) (map (λ one. one.job.now) candidates.now)) }
    ensures nodes { IfOk result (λ ranked.
        All (λ (job : PlanJob). All (λ node. node < length cluster.now.nodes.records) job.nodes) ranked.items) }
    ensures tasks { IfOk result (λ ranked. All (λ (job : PlanJob). 1 ≤ job.need.tasks) ranked.items) }
{
    let mut ranked = Vec::with_capacity(alloc, candidates.len())?;
    for candidate in candidates {
        if let Some(need) = need_of(alloc, cluster, grounds, candidate.job)? {
            ranked.push(need)?;
        }
    }
    Ok(ranked)
}

/// What the candidates at the factors' moment need, highest in rank first: the pending jobs that nothing hinders then.
/// Linear in the jobs, and for each pending one in its association's way up to root and the nodes that it must have.
/// The nodes of each partition are sorted once, and its candidates share them, so that a candidate that says nothing of
/// its nodes costs no more; one that does costs the nodes of its partition, and for each of them what it names, and one
/// that names a reservation the reservations besides. What each candidate is ranked by is found once, and by that they are sorted.
#[tactic(auto, unfolding(crate::specs::Candidates::ranked))]
pub fn rank(
    alloc: Global,
    cluster: &Cluster,
    tally: &Tally,
    factors: &Factors,
) -> Result<Vec<PlanJob>, Memory>
    requires sound { IsSound (state_of cluster.now) }
    requires counted { Shows cluster.now.assocs.records tally.now (holding cluster.now.jobs.records) }
    requires measured { IsMeasured (state_of cluster.now) factors.now }
    ensures ranked { IfOk result (λ ranked. ranked.items
        ≡ Candidates.ranked (state_of cluster.now) factors.now.moment) }
    ensures nodes { IfOk result (λ ranked.
        All (λ (job : PlanJob). All (λ node. node < length cluster.now.nodes.records) job.nodes) ranked.items) }
    ensures tasks { IfOk result (λ ranked. All (λ (job : PlanJob). 1 ≤ job.need.tasks) ranked.items) }
{
    let candidates = by_rank(alloc, cluster, tally, factors)?;
    let grounds = grounds_of(alloc, cluster, factors.moment)?;
    needs_of(alloc, cluster, &grounds, candidates.as_slice())
}

// Whether what is ranked by this key is higher in rank than the candidate, where there is one.
fn is_above_first(key: RankKey, first: &Option<Candidate>) -> bool
    ensures { result ≡ option_map_or (λ (one : Candidate). Rank.is_above key one.key) first.now true }
{
    match first {
        Some(candidate) => is_above(key, candidate.key),
        None => true,
    }
}

/// The number of the candidate that is highest in rank at the factors' moment, None where there is no candidate then.
/// One walk over the jobs, which looks at what each pending one is ranked by; each that is higher than the candidates
/// before it costs its association's way up to root and the nodes that it must have besides.
pub fn highest(cluster: &Cluster, tally: &Tally, factors: &Factors) -> Option<u32>
    requires together { AreTogether cluster.now.jobs.records }
    requires counted { Shows cluster.now.assocs.records tally.now (holding cluster.now.jobs.records) }
    requires measured { IsMeasured (state_of cluster.now) factors.now }
    ensures { result ≡ option_map (λ (job : JobRecord). job.id)
        (slice_get (Candidates.candidates (state_of cluster.now) factors.now.moment) 0) }
{
    highest_beside(cluster, tally, &Behind::unknown(), factors)
}

/// The same, where it may be known which jobs have another of their user and name before them: then that costs nothing
/// more.
pub fn highest_beside(
    cluster: &Cluster,
    tally: &Tally,
    behind: &Behind,
    factors: &Factors,
) -> Option<u32>
    requires together { AreTogether cluster.now.jobs.records }
    requires counted { Shows cluster.now.assocs.records tally.now (holding cluster.now.jobs.records) }
    requires behind { All (ShowsBehind behind.now cluster.now.jobs.records) cluster.now.jobs.records }
    requires measured { IsMeasured (state_of cluster.now) factors.now }
    ensures { result ≡ option_map (λ (job : JobRecord). job.id)
        (slice_get (Candidates.candidates (state_of cluster.now) factors.now.moment) 0) }
{
    let mut highest: Option<Candidate> = None;
    for job in cluster.jobs.records() {
        if is_pending(job) {
            let key = key_of(factors, cluster, job);
            if is_above_first(key, &highest)
                && is_candidate(cluster, tally, behind, factors.moment, job)
            {
                highest = Some(Candidate { job, key });
            }
        }
    }
    Some(highest?.job.id)
}

// Whether a job comes before this candidate in rank.
#[tactic(auto, unfolding(crate::specs::Rank::is_higher))]
fn comes_before(
    cluster: &Cluster,
    factors: &Factors,
    other: &JobRecord,
    candidate: &Candidate,
) -> bool
    requires measured { IsMeasured (state_of cluster.now) factors.now }
    requires key { candidate.now.key ≡ Rank.key_of (state_of cluster.now) factors.now.moment candidate.now.job.now }
    ensures { result
        ≡ Rank.comes_before (state_of cluster.now) factors.now.moment other.now candidate.now.job.now }
{
    let key = key_of(factors, cluster, other);
    is_above(key, candidate.key) || other.id < candidate.job.id && !is_above(candidate.key, key)
}

// Whether a job is a candidate that comes before this one in rank.
fn is_ahead(
    cluster: &Cluster,
    tally: &Tally,
    behind: &Behind,
    factors: &Factors,
    other: &JobRecord,
    candidate: &Candidate,
) -> bool
    requires together { AreTogether cluster.now.jobs.records }
    requires counted { Shows cluster.now.assocs.records tally.now (holding cluster.now.jobs.records) }
    requires behind { ShowsBehind behind.now cluster.now.jobs.records other.now }
    requires measured { IsMeasured (state_of cluster.now) factors.now }
    requires key { candidate.now.key ≡ Rank.key_of (state_of cluster.now) factors.now.moment candidate.now.job.now }
    ensures { IsTrue result
        ↔ ((Candidates.is_candidate (state_of cluster.now) factors.now.moment other.now ≡ true)
        × (Rank.comes_before (state_of cluster.now) factors.now.moment other.now candidate.now.job.now ≡ true)) }
{
    is_pending(other)
        && comes_before(cluster, factors, other, candidate)
        && is_candidate(cluster, tally, behind, factors.moment, other)
}

/// Whether the job, which is a candidate, is the one that is highest in rank at the factors' moment. One walk over the
/// jobs, up to the first candidate that comes before it: it looks at what each pending one is ranked by, and each that
/// may come before the job costs its association's way up to root and the nodes that it must have besides.
pub fn is_highest(
    cluster: &Cluster,
    tally: &Tally,
    behind: &Behind,
    factors: &Factors,
    job: &JobRecord,
) -> bool
    requires together { AreTogether cluster.now.jobs.records }
    requires counted { Shows cluster.now.assocs.records tally.now (holding cluster.now.jobs.records) }
    requires behind { All (ShowsBehind behind.now cluster.now.jobs.records) cluster.now.jobs.records }
    requires measured { IsMeasured (state_of cluster.now) factors.now }
    requires there { Contains cluster.now.jobs.records job.now }
    requires candidate { Candidates.is_candidate (state_of cluster.now) factors.now.moment job.now ≡ true }
    ensures { IsTrue result ↔ (option_map (λ (job : JobRecord). job.id)
        (slice_get (Candidates.candidates (state_of cluster.now) factors.now.moment) 0) ≡ Some job.now.id) }
{
    let key = key_of(factors, cluster, job);
    let candidate = Candidate { job, key };
    for other in cluster.jobs.records() {
        if is_ahead(cluster, tally, behind, factors, other, &candidate) {
            return false;
        }
    }
    true
}
