// What a description of a job says.

use crate::show::{Show, or_dash, push_field, show_joined};
use plain_data::items::Items;
use plain_data::job::JobDesc;
use plain_data::nice::Nice;
use plain_data::ranged::Ranged;
use small_texts::name::Name;
use std::alloc::Global;
use table_lines::answer::Unanswered;

// Names of nodes.
#[derive(Clone, Copy)]
struct Nodes<'a> {
    names: &'a [Name],
}

impl Show for Nodes<'_> {
    fn show(&self, out: &mut Vec<u8>) -> Result<(), Unanswered> {
        show_joined(out, self.names, b",")
    }
}

// A number, where it isn't the usual one.
fn push_number<const LEAST: u32, const MOST: u32>(
    out: &mut Vec<u8>,
    name: &str,
    number: Ranged<LEAST, MOST>,
    usual: u64,
) -> Result<(), Unanswered> {
    if number.get() == usual {
        return Ok(());
    }
    push_field(out, name, Some(&number))
}

// A flag, where it stands.
fn push_flag(out: &mut Vec<u8>, name: &str, flag: bool) -> Result<(), Unanswered> {
    if flag {
        push_field(out, name, Some(&flag))
    } else {
        Ok(())
    }
}

// Names of nodes, where there are some.
fn push_nodes(out: &mut Vec<u8>, name: &str, nodes: &Items<Name>) -> Result<(), Unanswered> {
    let names = nodes.as_slice();
    if names.is_empty() {
        return Ok(());
    }
    push_field(out, name, Some(&Nodes { names }))
}

fn push_names(out: &mut Vec<u8>, job: &JobDesc) -> Result<(), Unanswered> {
    if job.name.as_bytes() != b"sbatch".as_slice() {
        push_field(out, "name", Some(&job.name))?;
    }
    push_field(out, "account", job.account.as_ref())?;
    push_field(out, "partition", job.partition.as_ref())?;
    push_field(out, "qos", job.qos.as_ref())?;
    push_field(out, "reservation", job.reservation.as_ref())
}

fn push_counts(out: &mut Vec<u8>, job: &JobDesc) -> Result<(), Unanswered> {
    push_number(out, "tasks", job.tasks, 1)?;
    push_number(out, "cpus_per_task", job.cpus_per_task, 1)?;
    push_field(out, "tasks_per_node", job.tasks_per_node.as_ref())?;
    push_number(out, "min_nodes", job.min_nodes, 1)?;
    push_field(out, "max_nodes", job.max_nodes.as_ref())
}

fn push_demands(out: &mut Vec<u8>, job: &JobDesc) -> Result<(), Unanswered> {
    push_field(out, "mem_ask", job.mem_ask.as_ref())?;
    push_flag(out, "exclusive", job.exclusive)?;
    push_field(out, "limit", job.limit.as_ref())?;
    push_field(out, "begin", job.begin.as_ref())
}

fn push_nice(out: &mut Vec<u8>, nice: Nice) -> Result<(), Unanswered> {
    match nice {
        Nice::Lower(number) => push_number(out, "nice", number, 0),
        Nice::Raise(_) => push_field(out, "nice", Some(&nice)),
    }
}

fn push_standing(out: &mut Vec<u8>, job: &JobDesc) -> Result<(), Unanswered> {
    push_nice(out, job.nice)?;
    push_flag(out, "held", job.held)?;
    push_field(out, "requeue", job.requeue.as_ref())
}

fn push_wants(out: &mut Vec<u8>, job: &JobDesc) -> Result<(), Unanswered> {
    push_field(out, "features", job.features.as_ref())?;
    push_nodes(out, "required", &job.required)?;
    push_nodes(out, "excluded", &job.excluded)?;
    push_field(out, "array", job.array.as_ref())?;
    push_field(out, "dependency", job.dependency.as_ref())
}

fn push_script(out: &mut Vec<u8>, job: &JobDesc) -> Result<(), Unanswered> {
    push_number(out, "run", job.run, 60)?;
    push_number(out, "exit", job.exit, 0)?;
    push_flag(out, "parsable", job.parsable)
}

fn push_fields(out: &mut Vec<u8>, job: &JobDesc) -> Result<(), Unanswered> {
    push_names(out, job)?;
    push_counts(out, job)?;
    push_demands(out, job)?;
    push_standing(out, job)?;
    push_wants(out, job)?;
    push_script(out, job)
}

/// The fields that differ from those of `sbatch` alone, or `-`.
pub fn described(alloc: Global, job: &JobDesc) -> Result<Vec<u8>, Unanswered> {
    let mut out = Vec::new(alloc);
    push_fields(&mut out, job)?;
    or_dash(out)
}
