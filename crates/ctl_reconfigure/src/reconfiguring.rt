//! What a new slurm.conf makes of the cluster.

ghost use Rattle.std.specs.Prelude.{◌≡◌, ℕ, map, is_none, None, IfOk, IfSome, OnOk, OnErr};
ghost use Rattle.plain_data.specs.Confs.{ConfView};
ghost use Rattle.ctl_state.specs.Holding.{parts_of};
ghost use Rattle.ctl_state.specs.Index.{IsIndexed, ShowsParts};
ghost use Rattle.ctl_state.specs.Soundness.{IsSound};
ghost use Rattle.ctl_state.specs.State.{state_of};
ghost use Rattle.ctl_reconfigure.specs.Blocking.{blocked};
ghost use Rattle.ctl_reconfigure.specs.Making.{IsMade};
ghost use Rattle.ctl_reconfigure.specs.Names as names;
ghost use Rattle.ctl_reconfigure.specs.Reconfiguring.{job_after, nodes_after, partitions_after, reconfigured, settings_after};

use crate::moves::{follow, move_jobs, moves_of};
use crate::names::{line_names, partition_names, places_moved};
use crate::record::Moves;
use ctl_state::cluster::Cluster;
use node_state::nodes::Nodes;
use node_state::partitions::Partitions;
use plain_data::conf::{Conf, Settings};
use small_texts::memory_error::Memory;
use std::alloc::Global;

// What the lines of a file make.
#[derive(Drop)]
struct Lines {
    settings: Settings,
    nodes: Nodes,
    partitions: Partitions,
}

// What a new file makes, before any of it is put in force.
#[derive(Drop)]
struct Made {
    lines: Lines,
    // None where the nodes stand as they stood.
    moves: Option<Moves>,
    // For each old place of a partition its new one; None where they stand as they stood.
    places: Option<Vec<u32>>,
}

// Where the partitions are that were there; None where they stand as they stood.
fn partition_places(
    alloc: Global,
    cluster: &Cluster,
    conf: &Conf,
) -> Result<Option<Vec<u32>>, Memory>
    ensures same { IfOk result (λ places. is_none places
        ≡ names.same_names (names.partition_names cluster.now.partitions) (names.line_names conf.now.partitions)) }
    ensures places { IfOk result (λ places. IfSome places (λ all. all.items
        ≡ names.places_of (names.partition_names cluster.now.partitions) (names.line_names conf.now.partitions))) }
{
    let before = partition_names(alloc, cluster.partitions.records())?;
    let now = line_names(alloc, conf.partitions.as_slice())?;
    places_moved(alloc, &before, &now)
}

// What the lines of a new file make of those that are in force.
fn lines_of(alloc: Global, cluster: &Cluster, moment: u64, conf: Conf) -> Result<Lines, Memory>
    requires sound { IsSound (state_of cluster.now) }
    requires indexed { IsIndexed cluster.now }
    requires free { blocked (state_of cluster.now) conf ≡ None }
    ensures settings { IfOk result (λ lines. lines.settings
        ≡ settings_after cluster.now.settings conf.settings) }
    ensures nodes { IfOk result (λ lines. lines.nodes.records ≡ nodes_after (state_of cluster.now) moment conf) }
    ensures shown { IfOk result (λ lines. ShowsParts lines.nodes.held
        (parts_of (map (job_after (state_of cluster.now) conf) cluster.now.jobs.records))) }
    ensures partitions { IfOk result (λ lines. lines.partitions
        ≡ partitions_after (state_of cluster.now) moment conf) }
{
    let mut settings = conf.settings;
    settings.first_job_id = cluster.settings.first_job_id;
    let nodes = cluster
        .nodes
        .renewed(alloc, conf.nodes.into_vec(), &cluster.dropped, moment)?;
    let partitions = Partitions::build(alloc, conf.partitions.into_vec(), &nodes)?;
    Ok(Lines {
        settings,
        nodes,
        partitions,
    })
}

// What the new file makes of the cluster.
fn make(alloc: Global, cluster: &Cluster, moment: u64, conf: &Conf) -> Result<Made, Memory>
    requires sound { IsSound (state_of cluster.now) }
    requires indexed { IsIndexed cluster.now }
    requires free { blocked (state_of cluster.now) conf.now ≡ None }
    ensures made { IfOk result (IsMade (state_of cluster.now) moment conf.now) }
    ensures shown { IfOk result (λ made. ShowsParts made.lines.nodes.held
        (parts_of (map (job_after (state_of cluster.now) conf.now) cluster.now.jobs.records))) }
{
    let moves = moves_of(alloc, cluster, conf)?;
    let places = partition_places(alloc, cluster, conf)?;
    let lines = lines_of(alloc, cluster, moment, conf.copy()?)?;
    Ok(Made {
        lines,
        moves,
        places,
    })
}

// Puts in force what was made.
fn put(alloc: Global, cluster: &mut Cluster, made: Made)
    ensures state { (moment : ℕ) (conf : ConfView) → IsMade (state_of cluster.old) moment conf made
        → state_of cluster.new ≡ reconfigured (state_of cluster.old) moment conf }
    ensures nodes { cluster.new.nodes ≡ made.lines.nodes }
{
    follow(alloc, cluster, made.moves);
    move_jobs(&mut cluster.jobs, &made.places);
    let Lines {
        settings,
        nodes,
        partitions,
    } = made.lines;
    cluster.settings = settings;
    cluster.nodes = nodes;
    cluster.partitions = partitions;
}

/// Puts a new slurm.conf into force at this moment, which nothing stands against. Linear in both files, in the jobs and
/// their parts and in the plan, and for each reservation in the nodes, but for a sort of the dropped nodes; it takes all
/// its memory first, so want of it leaves all as it was. "reconfigure" in scontrol(1).
pub fn reconfigure(
    alloc: Global,
    cluster: &mut Cluster,
    moment: u64,
    conf: &Conf,
) -> Result<(), Memory>
    requires sound { IsSound (state_of cluster.old) }
    requires indexed { IsIndexed cluster.old }
    requires free { blocked (state_of cluster.old) conf.now ≡ None }
    ensures ok { OnOk result (state_of cluster.new ≡ reconfigured (state_of cluster.old) moment conf.now) }
    ensures err { OnErr result (state_of cluster.new ≡ state_of cluster.old) }
    ensures indexed { IsIndexed cluster.new }
{
    let made = make(alloc, cluster, moment, conf)?;
    put(alloc, cluster, made);
    Ok(())
}
