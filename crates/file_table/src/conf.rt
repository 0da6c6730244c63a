//! What a file slurm.conf(5) says: a line for the settings, and one for each node and each partition.

use crate::shown::{show_limit, show_name, show_names, show_numbers};
use conf_reader::read_conf;
use plain_data::conf::{Conf, NodeConf, NodeStart, PartConf, PartState, Settings};
use plain_data::items::Items;
use plain_data::limit::Limit;
use plain_data::mem_ask::MemAsk;
use small_texts::name::Name;
use std::alloc::Global;
use std::io;

/// Writes all that a file says, or its first fault.
pub(crate) fn answer(rt: &impl Print, alloc: Global, file: &[u8]) -> io::Result<()> {
    match read_conf(alloc, file) {
        Ok(conf) => show_conf(rt, &conf),
        Err(refusal) => rt.println(refusal),
    }
}

fn show_conf(rt: &impl Print, conf: &Conf) -> io::Result<()> {
    show_settings(rt, &conf.settings)?;
    for node in conf.nodes.as_slice() {
        show_node(rt, node)?;
    }
    for partition in conf.partitions.as_slice() {
        show_partition(rt, partition)?;
    }
    Ok(())
}

fn show_settings(rt: &impl Print, settings: &Settings) -> io::Result<()> {
    print!(rt; "settings")?;
    show_numbers(
        rt,
        &[
            ("FirstJobId", settings.first_job_id.get()),
            ("MaxJobCount", settings.max_job_count.get()),
            ("MaxArraySize", settings.max_array_size.get()),
            ("MinJobAge", settings.min_job_age.get()),
            ("SlurmdTimeout", settings.slurmd_timeout.get()),
        ],
    )?;
    let requeue = settings.job_requeue;
    print!(rt; " JobRequeue={requeue}")?;
    show_name(rt, " SlurmUser=", &settings.slurm_user)?;
    show_weights(rt, settings)?;
    show_numbers(
        rt,
        &[
            ("bf_window", settings.bf_window.get()),
            ("bf_interval", settings.bf_interval.get()),
        ],
    )?;
    if settings.preempt {
        print!(rt; " Preempt=true")?;
    }
    show_mem(rt, &settings.mem_default)
}

fn show_weights(rt: &impl Print, settings: &Settings) -> io::Result<()> {
    show_numbers(
        rt,
        &[
            ("MaxAge", settings.max_age.get()),
            ("Weights", u64::from(settings.weight_age)),
        ],
    )?;
    for weight in [
        settings.weight_fairshare,
        settings.weight_job_size,
        settings.weight_partition,
        settings.weight_qos,
    ] {
        print!(rt; ",{weight}")?;
    }
    Ok(())
}

fn show_node(rt: &impl Print, node: &NodeConf) -> io::Result<()> {
    show_name(rt, "node ", &node.name)?;
    show_numbers(
        rt,
        &[
            ("CPUs", node.cpus.get()),
            ("RealMemory", node.mem.get()),
            ("Weight", node.weight.get()),
        ],
    )?;
    show_names(rt, " Features=", node.features.as_slice())?;
    let state = node_word(node.state);
    println!(rt; " State={state}")
}

fn node_word(state: NodeStart) -> &'static str {
    match state {
        NodeStart::Unknown => "UNKNOWN",
        NodeStart::Down => "DOWN",
        NodeStart::Drain => "DRAIN",
    }
}

fn show_partition(rt: &impl Print, partition: &PartConf) -> io::Result<()> {
    show_name(rt, "partition ", &partition.name)?;
    show_names(rt, " Nodes=", partition.nodes.as_slice())?;
    let is_default = partition.is_default;
    print!(rt; " Default={is_default}")?;
    show_limit(rt, " MaxTime=", partition.max_time)?;
    show_default_time(rt, partition.default_time)?;
    let state = part_word(partition.state);
    print!(rt; " State={state}")?;
    show_bounds(rt, partition)?;
    show_allowed(rt, " Accounts=", &partition.accounts)?;
    show_allowed(rt, " Qos=", &partition.qos)?;
    let exclusive = partition.exclusive;
    print!(rt; " Exclusive={exclusive}")?;
    show_mem(rt, &partition.mem_default)
}

fn part_word(state: PartState) -> &'static str {
    match state {
        PartState::Up => "UP",
        PartState::Down => "DOWN",
        PartState::Drain => "DRAIN",
        PartState::Inactive => "INACTIVE",
    }
}

fn show_bounds(rt: &impl Print, partition: &PartConf) -> io::Result<()> {
    show_numbers(
        rt,
        &[
            ("Factor", partition.factor.get()),
            ("Tier", partition.tier.get()),
            ("MinNodes", u64::from(partition.min_nodes)),
        ],
    )?;
    match partition.max_nodes {
        Some(number) => print!(rt; " MaxNodes={number}"),
        None => print!(rt; " MaxNodes=UNLIMITED"),
    }
}

fn show_allowed(rt: &impl Print, key: &str, names: &Option<Items<Name>>) -> io::Result<()> {
    match names {
        Some(names) => show_names(rt, key, names.as_slice()),
        None => print!(rt; "{key}ALL"),
    }
}

fn show_default_time(rt: &impl Print, limit: Option<Limit>) -> io::Result<()> {
    match limit {
        Some(limit) => show_limit(rt, " DefaultTime=", limit),
        None => print!(rt; " DefaultTime=none"),
    }
}

// The memory of jobs that don't say, at the end of a line.
fn show_mem(rt: &impl Print, mem: &Option<MemAsk>) -> io::Result<()> {
    print!(rt; " DefMem=")?;
    match mem {
        None => println!(rt; "none"),
        Some(MemAsk::All) => println!(rt; "all"),
        Some(MemAsk::PerNode(megabytes)) => {
            let number = megabytes.get();
            println!(rt; "{number}/node")
        }
        Some(MemAsk::PerCpu(megabytes)) => {
            let number = megabytes.get();
            println!(rt; "{number}/cpu")
        }
    }
}
