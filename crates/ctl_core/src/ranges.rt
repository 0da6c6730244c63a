//! What the types of requests and of slurm.conf keep of them.

ghost use Rattle.std.specs.Prelude.{IfSome, All};
ghost use Rattle.ctl_state.specs.Soundness.{HasRanges, IsAsked, IsLimit};
ghost use Rattle.ctl_reconfigure.specs.Files.{HasPartLimits, IsFile, IsNodeConf};
ghost use Rattle.ctl_core.specs.Step.{IsInRange};

use plain_data::conf::{Conf, NodeConf, PartConf, Settings};
use plain_data::job::JobDesc;
use plain_data::limit::Limit;
use request_data::request::Request;

fn is_asked(desc: &JobDesc)
    ensures { IsAsked desc.now }
{
    let _ = desc.tasks.get();
    let _ = desc.cpus_per_task.get();
    let _ = desc.run.get();
    let _ = desc.exit.get();
    if let Some(begin) = &desc.begin {
        let _ = begin.get();
    }
}

/// It tells what the type of limits keeps of them.
pub(crate) fn is_limit(limit: &Limit)
    ensures { IsLimit limit.now }
{
    if let Limit::Minutes(minutes) = limit {
        let _ = minutes.get();
    }
}

fn is_limit_asked(limit: &Option<Limit>)
    ensures { IfSome limit.now IsLimit }
{
    if let Some(limit) = limit {
        is_limit(limit);
    }
}

/// It tells what the type of settings keeps of them.
pub(crate) fn settings_in_range(settings: &Settings)
    ensures { HasRanges settings.now }
{
    let _ = settings.bf_window.get();
    let _ = settings.min_job_age.get();
}

fn is_node_conf(node: &NodeConf)
    ensures { IsNodeConf node.now }
{
    let _ = node.cpus.get();
    let _ = node.mem.get();
}

fn confs_in_range(nodes: &[NodeConf])
    ensures { All IsNodeConf nodes.now }
{
    for node in nodes {
        is_node_conf(node);
    }
}

fn has_part_limits(partition: &PartConf)
    ensures { HasPartLimits partition.now }
{
    is_limit(&partition.max_time);
    is_limit_asked(&partition.default_time);
}

fn part_confs_in_range(partitions: &[PartConf])
    ensures { All HasPartLimits partitions.now }
{
    for partition in partitions {
        has_part_limits(partition);
    }
}

fn is_file(conf: &Conf)
    ensures { IsFile conf.now }
{
    settings_in_range(&conf.settings);
    confs_in_range(conf.nodes.as_slice());
    part_confs_in_range(conf.partitions.as_slice());
}

/// It does nothing: its contract tells what the type keeps of every request.
pub fn in_range(request: &Request)
    ensures { IsInRange request.now }
{
    match request {
        Request::Submit(desc) => {
            is_asked(desc);
            is_limit_asked(&desc.limit);
        }
        Request::UpdateJob { limit, .. } => is_limit_asked(limit),
        Request::Reconfigure { conf, .. } => is_file(conf),
        _ => {}
    }
}
