//! What an association file says: its numbers, and a line for each association and each quality of service. Of more
//! than forty the last one stands for all.

use crate::repeats::expand;
use crate::shown::{show_limit, show_name, show_names, show_numbers};
use assoc_reader::read_assocs;
use plain_data::assoc::{AssocConf, AssocFile, AssocLimits, QosConf, QosLimits};
use plain_data::ranged::LongRanged;
use std::alloc::Global;
use std::io;

const MOST_SHOWN: usize = 40;

/// Writes what a file says, or its first fault.
pub(crate) fn answer(rt: &impl Print, alloc: Global, file: &[u8]) -> io::Result<()> {
    let file = expand(alloc, file)?;
    match read_assocs(alloc, file.as_slice()) {
        Ok(file) => show_file(rt, &file),
        Err(refusal) => rt.println(refusal),
    }
}

fn show_file(rt: &impl Print, file: &AssocFile) -> io::Result<()> {
    let assocs = file.assocs.as_slice();
    let qos = file.qos.as_slice();
    let assoc_count = assocs.len();
    let qos_count = qos.len();
    println!(rt; "associations={assoc_count} qos={qos_count}")?;
    for assoc in shown(assocs) {
        show_assoc(rt, assoc)?;
    }
    for one in shown(qos) {
        show_qos(rt, one)?;
    }
    Ok(())
}

// All of a few, or the last one of many.
fn shown<T>(items: &[T]) -> &[T] {
    if items.len() <= MOST_SHOWN {
        items
    } else {
        &items[items.len() - 1..]
    }
}

fn show_assoc(rt: &impl Print, assoc: &AssocConf) -> io::Result<()> {
    show_name(rt, kind_word(assoc.user), &assoc.name)?;
    match assoc.parent {
        Some(place) => print!(rt; " Parent={place}")?,
        None => print!(rt; " Parent=root")?,
    }
    show_numbers(rt, &[("Fairshare", assoc.shares.get())])?;
    if let Some(account) = &assoc.default_account {
        show_name(rt, " DefaultAccount=", account)?;
    }
    show_assoc_limits(rt, &assoc.limits)?;
    println!(rt; "")
}

fn kind_word(user: bool) -> &'static str {
    if user { "user " } else { "account " }
}

fn show_assoc_limits(rt: &impl Print, limits: &AssocLimits) -> io::Result<()> {
    show_counts(
        rt,
        &[
            ("GrpJobs", limits.grp_jobs),
            ("GrpSubmitJobs", limits.grp_submit),
            ("GrpCPUs", limits.grp_cpus),
            ("MaxJobs", limits.max_jobs),
            ("MaxSubmitJobs", limits.max_submit),
        ],
    )
}

fn show_qos(rt: &impl Print, qos: &QosConf) -> io::Result<()> {
    show_name(rt, "qos ", &qos.name)?;
    show_numbers(rt, &[("Priority", u64::from(qos.priority))])?;
    show_qos_limits(rt, &qos.limits)?;
    if let Some(limit) = qos.limits.max_wall {
        show_limit(rt, " MaxWall=", limit)?;
    }
    let preempted = qos.preempt.as_slice();
    if !preempted.is_empty() {
        show_names(rt, " Preempt=", preempted)?;
    }
    println!(rt; "")
}

fn show_qos_limits(rt: &impl Print, limits: &QosLimits) -> io::Result<()> {
    show_counts(
        rt,
        &[
            ("GrpJobs", limits.grp_jobs),
            ("GrpSubmitJobs", limits.grp_submit),
            ("GrpCPUs", limits.grp_cpus),
            ("MaxJobsPerUser", limits.user_jobs),
            ("MaxSubmitJobsPerUser", limits.user_submit),
            ("MaxCPUsPerUser", limits.user_cpus),
        ],
    )
}

// The limits that there are, each behind its key.
fn show_counts(
    rt: &impl Print,
    counts: &[(&str, Option<LongRanged<0, 9999999999>>)],
) -> io::Result<()> {
    for &(key, count) in counts {
        if let Some(count) = count {
            show_numbers(rt, &[(key, count.get())])?;
        }
    }
    Ok(())
}
