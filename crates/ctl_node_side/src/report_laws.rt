//! What holds of every report. A law is the contract of a function that does nothing but call the laws it rests on.

ghost use Rattle.std.specs.Prelude.{◌≡◌, ◌↔◌, ℕ, ◌≤◌, nat_eq, false, List, [], All, Contains};
ghost use Rattle.request_data.specs.declared.report.Report.{Report};
ghost use Rattle.request_data.specs.declared.report.Start.{Start};
ghost use Rattle.job_table.specs.declared.record.JobRecord.{JobRecord};
ghost use Rattle.job_table.specs.declared.record.Part.{Part};
ghost use Rattle.ctl_state.specs.Holding.{parts_of};
ghost use Rattle.ctl_state.specs.State.{State, last_moment};
ghost use Rattle.ctl_state.specs.Soundness.{IsSound};
ghost use Rattle.ctl_state.specs.Verdicts.{stamped};
ghost use Rattle.ctl_node_side.specs.Reporting.{report_after};
ghost use Rattle.reply_data.specs.Starts.{InOrder};
ghost use Rattle.ctl_node_side.specs.Ordering.{in_order, orders_of};

use ctl_state::laws::{
    changing_keeps_all_sound, charging_keeps_all_sound, every_change_but_a_start_lets_go,
    jobs_are_kept, nodes_that_stay_keep_all_sound,
};
use node_state::laws::{a_change_leaves_the_confs, a_report_sets_no_node_down};

/// An accepted report keeps all sound.
pub fn a_report_keeps_all_sound()
    ensures { (s : State) (now node : ℕ) (report : Report) → IsSound s → s.moment ≤ now → now ≤ last_moment
        → IsSound (stamped now (report_after s now node report)) }
{
    changing_keeps_all_sound();
    charging_keeps_all_sound();
    every_change_but_a_start_lets_go();
    jobs_are_kept();
    nodes_that_stay_keep_all_sound();
    a_change_leaves_the_confs();
    a_report_sets_no_node_down();
}

/// Starts in order rise, each once, and are those that were given.
#[tactic(auto, using(crate::proofs::InOrder::orders))]
pub fn orders_are_in_order()
    ensures rising { (starts : List Start) → InOrder (in_order starts) }
    ensures members { (starts : List Start) (start : Start) → Contains (in_order starts) start ↔ Contains starts start }
{}

/// Where no job holds anything of a node, its report is answered as where there are no jobs.
pub fn a_node_without_jobs_is_ordered_alike()
    ensures { (jobs : List JobRecord) (now node : ℕ) (report : Report)
        → All (λ (part : Part). nat_eq node part.node ≡ false) (parts_of jobs)
        → orders_of jobs now node report ≡ orders_of [] now node report }
{}
