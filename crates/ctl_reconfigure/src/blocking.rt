//! What stands against a new slurm.conf.

ghost use Rattle.std.specs.Prelude.{◌≡◌, ◌-◌, ◌<◌, ◌≤◌, ◌&&◌, ◌||◌, ℕ, bytes_eq, find, length, nat_eq, nat_le, option_copied, option_map, slice_get, All, IfSome};
ghost use Rattle.std.specs.List.{list_any, range_with_len};
ghost use Rattle.std.specs.Option.{option_to_list};
ghost use Rattle.plain_data.specs.Rows.{has_id};
ghost use Rattle.plain_data.specs.declared.conf.PartConf.{PartConf as OneLine};
ghost use Rattle.node_state.specs.declared.reservation_record.Reservation.{Reservation as OneReservation};
ghost use Rattle.node_state.specs.Nodes.{place_named};
ghost use Rattle.job_table.specs.declared.record.JobRecord.{JobRecord as OneJob};
ghost use Rattle.job_table.specs.Changes.{is_on};
ghost use Rattle.ctl_state.specs.Holding.{parts_of};
ghost use Rattle.ctl_state.specs.Index.{IsIndexed};
ghost use Rattle.ctl_state.specs.Planning.{is_at};
ghost use Rattle.ctl_state.specs.Soundness.{IsSound};
ghost use Rattle.ctl_state.specs.State.{state_of};
ghost use Rattle.ctl_reconfigure.specs.Blocking;

use ctl_state::cluster::Cluster;
use job_table::record::{JobRecord, Part};
use node_state::laws::names_lead_to_places;
use node_state::nodes::Nodes;
use node_state::reservation_record::Reservation;
use plain_data::NodePlaces;
use plain_data::conf::{Conf, NodeConf, PartConf};
use small_texts::name::Name;

// Adds the places of the nodes of these parts.
fn insert_parts(places: &mut NodePlaces, parts: &[Part])
    requires { All (λ part. part.node < 1024) parts.now }
    ensures { (place : ℕ) → has_id places.new place
        ≡ (has_id places.old place || list_any (is_on place) parts.now) }
{
    for part in parts {
        places.insert(part.node);
    }
}

// The places of the nodes on which jobs have parts.
fn places_of_parts(jobs: &[JobRecord]) -> NodePlaces
    requires { All (λ part. part.node < 1024) (parts_of jobs.now) }
    ensures { (place : ℕ) → has_id result place ≡ list_any (is_on place) (parts_of jobs.now) }
{
    let mut places = NodePlaces::none();
    for job in jobs {
        insert_parts(&mut places, job.parts.as_slice());
    }
    places
}

// The places of the nodes that reservations have.
fn places_of_reservations(reservations: &[Reservation]) -> NodePlaces
    ensures { (place : ℕ) → has_id result place
        ≡ list_any (λ (one : OneReservation). has_id one.nodes place) reservations.now }
{
    let mut places = NodePlaces::none();
    for reservation in reservations {
        places.insert_all(&reservation.nodes);
    }
    places
}

// The places of the nodes that are needed.
fn needed(cluster: &Cluster) -> NodePlaces
    requires { IsSound (state_of cluster.now) }
    ensures { (place : ℕ) → has_id result place ≡ Blocking.is_needed (state_of cluster.now) place }
{
    let mut places = places_of_parts(cluster.jobs.records());
    places.insert_all(&places_of_reservations(cluster.reservations.records()));
    places
}

fn any_from(numbers: &NodePlaces, bound: u32) -> bool
    requires { bound ≤ 1024 }
    ensures { result ≡ list_any (has_id numbers.now) (range_with_len bound (1024 - bound)) }
{
    (bound..1024).any(|number| numbers.contains(number))
}

// Whether one of the numbers is the bound or above it.
fn reaches(numbers: &NodePlaces, bound: u32) -> bool
    requires { bound ≤ 1024 }
    ensures { result ≡ list_any (λ number. nat_le bound number) numbers.now }
{
    numbers.tell_rising();
    any_from(numbers, bound)
}

// Whether of the node at a place more is held than its new line has.
fn is_too_small(cluster: &Cluster, place: u32, conf: &NodeConf) -> bool
    requires there { place < length cluster.now.nodes.records }
    requires indexed { IsIndexed cluster.now }
    ensures { result ≡ Blocking.is_too_small (parts_of cluster.now.jobs.records) place conf.now }
{
    let held = cluster.nodes.held(place);
    reaches(&held.cpus, conf.cpus.get() as u32) || conf.mem.get() < held.mem
}

// Adds the place that was found, if one was.
fn insert_found(places: &mut NodePlaces, found: Option<u32>)
    requires { IfSome found (λ place. place < 1024) }
    ensures { (place : ℕ) → has_id places.new place
        ≡ (has_id places.old place || has_id (option_to_list found) place) }
{
    if let Some(place) = found {
        places.insert(place);
    }
}

// The places of the nodes of these lines.
fn places_of_lines(nodes: &Nodes, confs: &[NodeConf]) -> NodePlaces
    ensures { (place : ℕ) → has_id result place
        ≡ is_at (λ node. list_any (Blocking.is_of node) confs.now) nodes.now.records place }
{
    names_lead_to_places();
    let _records = nodes.records();
    let mut places = NodePlaces::none();
    for conf in confs {
        insert_found(&mut places, nodes.find(&conf.name));
    }
    places
}

// The place of the node of a line that is too small for it.
fn found_too_small(cluster: &Cluster, conf: &NodeConf) -> Option<u32>
    requires { IsIndexed cluster.now }
    ensures small { (place : ℕ) → has_id (option_to_list result) place
        ≡ (has_id (option_to_list (place_named conf.now.name cluster.now.nodes.records)) place
        && Blocking.is_too_small (parts_of cluster.now.jobs.records) place conf.now) }
    ensures there { IfSome result (λ place. place < length cluster.now.nodes.records) }
{
    let place = cluster.nodes.find(&conf.name)?;
    if is_too_small(cluster, place, conf) {
        Some(place)
    } else {
        None
    }
}

// The places of the nodes whose new lines are too small.
fn places_of_too_small(cluster: &Cluster, confs: &[NodeConf]) -> NodePlaces
    requires { IsIndexed cluster.now }
    ensures { (place : ℕ) → has_id result place ≡ is_at (λ node. list_any (λ conf. Blocking.is_of node conf
        && Blocking.is_too_small (parts_of cluster.now.jobs.records) place conf) confs.now)
        cluster.now.nodes.records place }
{
    names_lead_to_places();
    let _records = cluster.nodes.records();
    let mut places = NodePlaces::none();
    for conf in confs {
        insert_found(&mut places, found_too_small(cluster, conf));
    }
    places
}

// The places of the nodes that stand against the lines.
fn places_blocking(cluster: &Cluster, confs: &[NodeConf]) -> NodePlaces
    requires sound { IsSound (state_of cluster.now) }
    requires indexed { IsIndexed cluster.now }
    ensures { (place : ℕ) → place < length cluster.now.nodes.records → has_id result place
        ≡ is_at (Blocking.blocks (state_of cluster.now) confs.now place) cluster.now.nodes.records place }
{
    let mut places = needed(cluster);
    places.remove_all(&places_of_lines(&cluster.nodes, confs));
    places.insert_all(&places_of_too_small(cluster, confs));
    places
}

// The first of the places that is below this count.
fn first_below(places: &NodePlaces, count: u32) -> Option<u32>
    ensures { result ≡ find (has_id places.now) (range_with_len 0 count) }
{
    (0..count).find(|place| places.contains(*place))
}

// The place of the first node that stands against the lines.
fn first_blocking(cluster: &Cluster, confs: &[NodeConf]) -> Option<u32>
    requires sound { IsSound (state_of cluster.now) }
    requires indexed { IsIndexed cluster.now }
    ensures { result ≡ find (λ place. is_at (Blocking.blocks (state_of cluster.now) confs.now place)
        cluster.now.nodes.records place) (range_with_len 0 (length cluster.now.nodes.records)) }
{
    let places = places_blocking(cluster, confs);
    first_below(&places, cluster.nodes.len())
}

fn node_name(cluster: &Cluster, place: u32) -> Option<&Name>
    ensures { option_copied result
        ≡ option_map (λ node. node.conf.name) (slice_get cluster.now.nodes.records place) }
{
    match cluster.nodes.at(place) {
        Some(node) => Some(&node.conf.name),
        None => None,
    }
}

#[tactic(auto, unfolding(crate::specs::Blocking::blocking_node))]
fn blocking_node<'a>(cluster: &'a Cluster, conf: &Conf) -> Option<&'a Name>
    requires sound { IsSound (state_of cluster.now) }
    requires indexed { IsIndexed cluster.now }
    ensures { option_copied result ≡ Blocking.blocking_node (state_of cluster.now) conf.now }
{
    match first_blocking(cluster, conf.nodes.as_slice()) {
        Some(place) => node_name(cluster, place),
        None => None,
    }
}

// The places of the partitions that have jobs.
fn places_of_jobs(jobs: &[JobRecord]) -> NodePlaces
    requires { All (λ job. job.partition < 1024) jobs.now }
    ensures { (place : ℕ) → has_id result place ≡ list_any (λ (job : OneJob). nat_eq job.partition place) jobs.now }
{
    let mut places = NodePlaces::none();
    for job in jobs {
        places.insert(job.partition);
    }
    places
}

// Whether one of the lines has this name.
fn has_line(confs: &[PartConf], name: &Name) -> bool
    ensures { result ≡ list_any (λ (conf : OneLine). bytes_eq conf.name name.now) confs.now }
{
    confs.iter().any(|conf| conf.name.is(name))
}

// Whether the partition at a place, which has jobs where these places have, has none of the lines.
fn is_left_out(cluster: &Cluster, with_jobs: &NodePlaces, confs: &[PartConf], place: u32) -> bool
    requires { (place : ℕ) → has_id with_jobs.now place
        ≡ list_any (λ (job : OneJob). nat_eq job.partition place) cluster.now.jobs.records }
    ensures { result ≡ Blocking.is_left_out_at (state_of cluster.now) confs.now place }
{
    match cluster.partitions.at(place) {
        Some(partition) => with_jobs.contains(place) && !has_line(confs, &partition.conf.name),
        None => false,
    }
}

// The place of the first partition that has jobs and none of the lines.
fn first_left_out(cluster: &Cluster, confs: &[PartConf]) -> Option<u32>
    requires { IsSound (state_of cluster.now) }
    ensures { result ≡ find (Blocking.is_left_out_at (state_of cluster.now) confs.now)
        (range_with_len 0 (length cluster.now.partitions)) }
{
    let count = cluster.partitions.len();
    let with_jobs = places_of_jobs(cluster.jobs.records());
    (0..count).find(|place| is_left_out(cluster, &with_jobs, confs, *place))
}

fn partition_name(cluster: &Cluster, place: u32) -> Option<&Name>
    ensures { option_copied result
        ≡ option_map (λ partition. partition.conf.name) (slice_get cluster.now.partitions place) }
{
    match cluster.partitions.at(place) {
        Some(partition) => Some(&partition.conf.name),
        None => None,
    }
}

#[tactic(auto, unfolding(crate::specs::Blocking::blocking_partition))]
fn blocking_partition<'a>(cluster: &'a Cluster, conf: &Conf) -> Option<&'a Name>
    requires { IsSound (state_of cluster.now) }
    ensures { option_copied result ≡ Blocking.blocking_partition (state_of cluster.now) conf.now }
{
    match first_left_out(cluster, conf.partitions.as_slice()) {
        Some(place) => partition_name(cluster, place),
        None => None,
    }
}

/// The name of what a new slurm.conf leaves out or makes too small although jobs or reservations need it, if there is
/// such a thing: the first node or, where there is none, the first partition, in the order of the file that is in force.
/// Linear in the new file, the jobs and their parts, and the partitions of both files are compared by name; it takes no
/// memory.
pub fn blocked<'a>(cluster: &'a Cluster, conf: &Conf) -> Option<&'a Name>
    requires sound { IsSound (state_of cluster.now) }
    requires indexed { IsIndexed cluster.now }
    ensures { option_copied result ≡ Blocking.blocked (state_of cluster.now) conf.now }
{
    match blocking_node(cluster, conf) {
        Some(name) => Some(name),
        None => blocking_partition(cluster, conf),
    }
}
