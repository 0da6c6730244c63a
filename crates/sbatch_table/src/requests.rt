//! What requests ask.

use crate::changes::{
    push_hold, push_job_update, push_node_update, push_partition_update, push_reconfigure,
    push_reservation,
};
use crate::queries::push_query;
use crate::reports::push_report;
use crate::show::push_marked;
use request_data::request::Request;
use table_lines::answer::{Unanswered, push};

/// Puts a request's command behind an answer, with what it says; of a job that is handed in the command alone.
pub fn push_request(out: &mut Vec<u8>, request: &Request) -> Result<(), Unanswered> {
    match request {
        Request::Submit(_) => push(out, &"sbatch"),
        Request::Cancel(targets) => push_marked(out, b"scancel ", targets),
        Request::Hold { targets, user } => push_hold(out, targets, *user),
        Request::Release { targets } => push_marked(out, b"release ", targets),
        Request::Requeue { target } => push_marked(out, b"requeue ", target),
        Request::UpdateJob {
            target,
            limit,
            nice,
        } => push_job_update(out, target, limit.as_ref(), nice.as_ref()),
        Request::UpdateNode { nodes, state } => push_node_update(out, nodes, *state),
        Request::UpdatePartition { name, state } => push_partition_update(out, name, *state),
        Request::CreateReservation(desc) => push_reservation(out, desc),
        Request::DeleteReservation { name } => push_marked(out, b"delete ", name),
        Request::Report(report) => push_report(out, report),
        Request::Pass => push(out, &"pass"),
        Request::Reconfigure { conf, bytes } => push_reconfigure(out, conf, *bytes),
        Request::Shutdown => push(out, &"shutdown"),
        Request::Show(query) => push_query(out, query),
    }
}
