//! Whether a file says what is in force already.

ghost use Rattle.std.specs.Prelude.{◌≡◌, ℕ, false, List, bytes_eq, nat_eq, not, option_copied, IfNone, IfSome};
ghost use Rattle.std.specs.List.{cons_option};
ghost use Rattle.std.specs.Option.{option_eq};
ghost use Rattle.std.specs.Cmp.Lexicographic.{pointwise};
ghost use Rattle.ctl_state.specs.State.{state_of};
ghost use Rattle.node_state.specs.Partitions.{places_of};
ghost use Rattle.ctl_reconfigure.specs.Same;

use ctl_state::cluster::Cluster;
use node_state::nodes::Nodes;
use node_state::partition_record::PartRecord;
use node_state::record::NodeRecord;
use plain_data::conf::{Conf, NodeConf, NodeStart, PartConf, PartState, Settings};
use plain_data::items::Items;
use plain_data::limit::Limit;
use plain_data::mem_ask::MemAsk;
use small_texts::name::Name;

fn same_mem(one: &MemAsk, other: &MemAsk) -> bool
    ensures { result ≡ Same.same_mem one.now other.now }
{
    match (one, other) {
        (MemAsk::All, MemAsk::All) => true,
        (MemAsk::PerNode(one), MemAsk::PerNode(other)) => one.get() == other.get(),
        (MemAsk::PerCpu(one), MemAsk::PerCpu(other)) => one.get() == other.get(),
        _ => false,
    }
}

fn same_mem_default(one: &Option<MemAsk>, other: &Option<MemAsk>) -> bool
    ensures { result ≡ option_eq Same.same_mem one.now other.now }
{
    match (one, other) {
        (Some(one), Some(other)) => same_mem(one, other),
        (None, None) => true,
        _ => false,
    }
}

fn same_limit(one: &Limit, other: &Limit) -> bool
    ensures { result ≡ Same.same_limit one.now other.now }
{
    match (one, other) {
        (Limit::Minutes(one), Limit::Minutes(other)) => one.get() == other.get(),
        (Limit::Unlimited, Limit::Unlimited) => true,
        _ => false,
    }
}

fn same_default_time(one: &Option<Limit>, other: &Option<Limit>) -> bool
    ensures { result ≡ option_eq Same.same_limit one.now other.now }
{
    match (one, other) {
        (Some(one), Some(other)) => same_limit(one, other),
        (None, None) => true,
        _ => false,
    }
}

fn same_start(one: NodeStart, other: NodeStart) -> bool
    ensures { result ≡ Same.same_start one other }
{
    match (one, other) {
        (NodeStart::Unknown, NodeStart::Unknown)
        | (NodeStart::Down, NodeStart::Down)
        | (NodeStart::Drain, NodeStart::Drain) => true,
        _ => false,
    }
}

fn same_state(one: PartState, other: PartState) -> bool
    ensures { result ≡ Same.same_state one other }
{
    match (one, other) {
        (PartState::Up, PartState::Up)
        | (PartState::Down, PartState::Down)
        | (PartState::Drain, PartState::Drain)
        | (PartState::Inactive, PartState::Inactive) => true,
        _ => false,
    }
}

fn same_names(one: &Items<Name>, other: &Items<Name>) -> bool
    ensures { result ≡ pointwise bytes_eq one.now other.now }
{
    one == other
}

fn same_allowed(one: &Option<Items<Name>>, other: &Option<Items<Name>>) -> bool
    ensures { result ≡ option_eq (pointwise bytes_eq) one.now other.now }
{
    match (one, other) {
        (Some(one), Some(other)) => same_names(one, other),
        (None, None) => true,
        _ => false,
    }
}

fn same_bounds(one: &Settings, other: &Settings) -> bool
    ensures { result ≡ Same.same_bounds one.now other.now }
{
    one.max_job_count.get() == other.max_job_count.get()
        && one.max_array_size.get() == other.max_array_size.get()
        && one.min_job_age.get() == other.min_job_age.get()
        && one.slurmd_timeout.get() == other.slurmd_timeout.get()
        && one.job_requeue == other.job_requeue
        && one.slurm_user.is(&other.slurm_user)
}

fn same_weights(one: &Settings, other: &Settings) -> bool
    ensures { result ≡ Same.same_weights one.now other.now }
{
    one.max_age.get() == other.max_age.get()
        && one.weight_age == other.weight_age
        && one.weight_fairshare == other.weight_fairshare
        && one.weight_job_size == other.weight_job_size
        && one.weight_partition == other.weight_partition
        && one.weight_qos == other.weight_qos
}

fn same_planning(one: &Settings, other: &Settings) -> bool
    ensures { result ≡ Same.same_planning one.now other.now }
{
    one.bf_window.get() == other.bf_window.get()
        && one.bf_interval.get() == other.bf_interval.get()
        && same_mem_default(&one.mem_default, &other.mem_default)
        && one.preempt == other.preempt
}

// Whether all settings are the same, but for the number of the first job.
fn same_settings(one: &Settings, other: &Settings) -> bool
    ensures { result ≡ Same.same_settings one.now other.now }
{
    same_bounds(one, other) && same_weights(one, other) && same_planning(one, other)
}

fn same_node(one: &NodeConf, other: &NodeConf) -> bool
    ensures { result ≡ Same.same_node one.now other.now }
{
    one.name.is(&other.name)
        && one.cpus.get() == other.cpus.get()
        && one.mem.get() == other.mem.get()
        && one.weight.get() == other.weight.get()
        && same_names(&one.features, &other.features)
        && same_start(one.state, other.state)
}

// Whether the nodes are those of the lines of a file.
fn same_nodes(nodes: &[NodeRecord], confs: &[NodeConf]) -> bool
    ensures { result ≡ Same.same_nodes nodes.now confs.now }
{
    nodes.len() == confs.len()
        && nodes
            .iter()
            .zip(confs)
            .all(|(node, conf)| same_node(&node.conf, conf))
}

// Whether a partition is the same and stands before others as it did.
fn same_standing(one: &PartConf, other: &PartConf) -> bool
    ensures { result ≡ Same.same_standing one.now other.now }
{
    one.name.is(&other.name)
        && same_names(&one.nodes, &other.nodes)
        && one.is_default == other.is_default
        && same_state(one.state, other.state)
        && one.factor.get() == other.factor.get()
        && one.tier.get() == other.tier.get()
}

// Whether a partition gives its jobs what it gave them.
fn same_allowance(one: &PartConf, other: &PartConf) -> bool
    ensures { result ≡ Same.same_allowance one.now other.now }
{
    same_limit(&one.max_time, &other.max_time)
        && same_default_time(&one.default_time, &other.default_time)
        && one.min_nodes == other.min_nodes
        && one.max_nodes == other.max_nodes
        && one.exclusive == other.exclusive
        && same_mem_default(&one.mem_default, &other.mem_default)
}

// Whether a partition takes the jobs that it took.
fn same_admission(one: &PartConf, other: &PartConf) -> bool
    ensures { result ≡ Same.same_admission one.now other.now }
{
    same_allowed(&one.accounts, &other.accounts) && same_allowed(&one.qos, &other.qos)
}

fn same_line(one: &PartConf, other: &PartConf) -> bool
    ensures { result ≡ Same.same_line one.now other.now }
{
    same_standing(one, other) && same_allowance(one, other) && same_admission(one, other)
}

// What is left of the places behind the one that was found, which is to be the first of them; None where it isn't.
fn behind<'a>(places: &'a [u32], found: Option<u32>) -> Option<&'a [u32]>
    ensures left { IfSome (option_copied result) (λ left. (more : List ℕ)
        → pointwise nat_eq places.now (cons_option found more) ≡ pointwise nat_eq left more) }
    ensures other { IfNone (option_copied result) ((more : List ℕ) → pointwise nat_eq places.now (cons_option found more) ≡ false) }
{
    let Some(place) = found else {
        return Some(places);
    };
    let (first, left) = places.split_first()?;
    if *first == place { Some(left) } else { None }
}

// Whether the places are those of the nodes with these names.
fn same_places(nodes: &Nodes, places: &[u32], names: &[Name]) -> bool
    ensures { result ≡ pointwise nat_eq places.now (places_of nodes.now.records names.now) }
{
    let mut rest = places;
    for name in names {
        match behind(rest, nodes.find(name)) {
            Some(left) => rest = left,
            None => return false,
        }
    }
    rest.is_empty()
}

// Whether a partition is what a line of the file makes of these nodes.
fn same_partition(nodes: &Nodes, partition: &PartRecord, conf: &PartConf) -> bool
    ensures { result ≡ Same.same_partition nodes.now.records partition.now conf.now }
{
    same_line(&partition.conf, conf)
        && same_state(partition.state, conf.state)
        && same_places(nodes, partition.nodes.as_slice(), conf.nodes.as_slice())
}

// Whether the partitions are those of the lines of a file.
fn same_partitions(nodes: &Nodes, partitions: &[PartRecord], confs: &[PartConf]) -> bool
    ensures { result ≡ pointwise (Same.same_partition nodes.now.records) partitions.now confs.now }
{
    partitions.len() == confs.len()
        && partitions
            .iter()
            .zip(confs)
            .all(|(partition, conf)| same_partition(nodes, partition, conf))
}

/// Whether a new slurm.conf says anything else than what is in force: the number of the first job doesn't count, the
/// state that it gives a node does, and a partition's state is compared with the one that it has. Linear in the file; it
/// takes no memory.
pub fn changes_any(cluster: &Cluster, conf: &Conf) -> bool
    ensures { result ≡ not (Same.is_same (state_of cluster.now) conf.now) }
{
    let same = same_settings(&cluster.settings, &conf.settings)
        && same_nodes(cluster.nodes.records(), conf.nodes.as_slice())
        && same_partitions(
            &cluster.nodes,
            cluster.partitions.records(),
            conf.partitions.as_slice(),
        );
    !same
}
