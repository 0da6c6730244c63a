//! What operators and owners change: jobs, nodes, partitions and reservations, and the configuration.

use crate::show::{Show, push_if_some, push_listed, push_marked, push_variant};
use plain_data::conf::{Conf, NodeConf, PartConf, PartState};
use plain_data::items::Items;
use plain_data::limit::Limit;
use plain_data::nice::Nice;
use request_data::request::NodeOrder;
use request_data::reservation::ReservationDesc;
use request_data::target::Target;
use small_texts::name::Name;
use table_lines::answer::Unanswered;

impl Show for NodeOrder {
    fn show(&self, out: &mut Vec<u8>) -> Result<(), Unanswered> {
        push_variant(out, self)
    }
}

impl Show for PartState {
    fn show(&self, out: &mut Vec<u8>) -> Result<(), Unanswered> {
        push_variant(out, self)
    }
}

impl Show for NodeConf {
    fn show(&self, out: &mut Vec<u8>) -> Result<(), Unanswered> {
        self.name.show(out)
    }
}

impl Show for PartConf {
    fn show(&self, out: &mut Vec<u8>) -> Result<(), Unanswered> {
        self.name.show(out)
    }
}

/// Puts the command that puts a configuration in force behind an answer, with the names that it has, and its length.
pub(crate) fn push_reconfigure(
    out: &mut Vec<u8>,
    conf: &Conf,
    bytes: u32,
) -> Result<(), Unanswered> {
    push_marked(out, b"reconfigure bytes=", &bytes)?;
    push_listed(out, b" nodes=", conf.nodes.as_slice())?;
    push_listed(out, b" partitions=", conf.partitions.as_slice())
}

/// Puts the command that holds jobs back behind an answer, for their owner or not, with these jobs.
pub(crate) fn push_hold(
    out: &mut Vec<u8>,
    targets: &Items<Target>,
    user: bool,
) -> Result<(), Unanswered> {
    let command = if user { "uhold " } else { "hold " };
    push_marked(out, command.as_bytes(), targets)
}

/// Puts the command that changes jobs behind an answer, with what it gives them.
pub(crate) fn push_job_update(
    out: &mut Vec<u8>,
    target: &Target,
    limit: Option<&Limit>,
    nice: Option<&Nice>,
) -> Result<(), Unanswered> {
    push_marked(out, b"update job=", target)?;
    push_if_some(out, b" limit=", limit)?;
    push_if_some(out, b" nice=", nice)
}

/// Puts the command that changes nodes behind an answer, with these nodes and what becomes of them.
pub(crate) fn push_node_update(
    out: &mut Vec<u8>,
    nodes: &Items<Name>,
    state: NodeOrder,
) -> Result<(), Unanswered> {
    push_listed(out, b"update nodes=", nodes.as_slice())?;
    push_marked(out, b" state=", &state)
}

/// Puts the command that changes a partition behind an answer, with its name and its state.
pub(crate) fn push_partition_update(
    out: &mut Vec<u8>,
    name: &Name,
    state: PartState,
) -> Result<(), Unanswered> {
    push_marked(out, b"update partition=", name)?;
    push_marked(out, b" state=", &state)
}

/// Puts the command that makes a reservation behind an answer, with what it reserves, when and for whom.
pub(crate) fn push_reservation(
    out: &mut Vec<u8>,
    desc: &ReservationDesc,
) -> Result<(), Unanswered> {
    push_marked(out, b"create name=", &desc.name)?;
    push_marked(out, b" start=", &desc.start)?;
    push_marked(out, b" end=", &desc.end)?;
    push_listed(out, b" nodes=", desc.nodes.as_slice())?;
    push_listed(out, b" users=", desc.users.as_slice())?;
    push_listed(out, b" accounts=", desc.accounts.as_slice())
}
