//! A turn of the planner.

ghost use Rattle.std.specs.Prelude.{◌≡◌, length, IfOk, OnOk, OnErr};
ghost use Rattle.request_data.specs.declared.request.Request.TheVariants.{Pass};
ghost use Rattle.resource_profile.specs.Counts.{IsTickedUpTo};
ghost use Rattle.ctl_desk.specs.Desk.{GoesOn, IsAnswered, history_of, seen};
ghost use Rattle.ctl_desk.specs.History.{IsHistory};
ghost use Rattle.node_daemon.specs.Turn as daemon;
ghost use Rattle.ctl_server.specs.Beside.{IsPlannedBeside, input_there};

use backfill_planner::Planned;
use ctl_core::laws::a_pass_with_its_own_hint_counts_nothing;
use ctl_desk::desk::Desk;
use ctl_desk::entry::Answer;
use node_daemon::root;
use resource_profile::{Plain, Steps};
use slurm_net::{Gate, Point};
use small_texts::memory_error::Memory;
use std::alloc::Global;

// Takes an input, and makes its plan while the book is at home.
fn plan_beside<D: Desk, G: Gate>(
    alloc: Global,
    desk: &mut D,
    now: u64,
    gate: &mut G,
    outside: &mut Steps<Plain>,
) -> Result<Planned, Memory>
    ensures goes_on { GoesOn (D.sight desk.old) (D.sight desk.new) }
    ensures mine { (D.sight desk.new).mine ≡ (D.sight desk.old).mine }
    ensures history { IsHistory (history_of (D.sight desk.new)) }
    ensures plan { IfOk result (λ planned. planned ≡ input_there (D.sight desk.new) now) }
    ensures outside { IsTickedUpTo (length (input_there (D.sight desk.new) now).ranked) outside.old outside.new }
{
    let input = desk.input(now);
    let _ = desk.seen_len();
    let input = input?;
    gate.at(Point::BeforePlan);
    let planned = input.plan(alloc, outside)?;
    Ok(planned)
}

/// One turn of the planner: it takes what a pass at this moment would make its plan of, plans that while the book is at
/// home, over the plan that the controller kept, and then makes a pass as root with its plan as the hint. Whatever came
/// to the book in between, the pass does what it would do without the hint. The gate is told before the plan and before
/// the pass. At the desk it costs the input and the pass; the plan itself costs no turn there. After want of memory the
/// desk may have seen more, and nothing of the pass is entered. bf_interval in slurm.conf(5).
pub fn planner_turn<D: Desk, G: Gate>(
    alloc: Global,
    desk: &mut D,
    now: u64,
    gate: &mut G,
    outside: &mut Steps<Plain>,
    inside: &mut Steps<Plain>,
) -> Result<Answer, Memory>
    ensures goes_on { GoesOn (D.sight desk.old) (D.sight desk.new) }
    ensures answered { IfOk result (λ answer.
        IsAnswered (D.sight desk.old) (D.sight desk.new) now daemon.root Pass answer) }
    ensures planned { IfOk result (λ answer. IsPlannedBeside (D.sight desk.old) (D.sight desk.new) now answer.place
        outside.old outside.new inside.old inside.new) }
    ensures planned_err { OnErr result (IsPlannedBeside (D.sight desk.old) (D.sight desk.new) now
        (length (seen (D.sight desk.new))) outside.old outside.new inside.old inside.new) }
    ensures err { OnErr result ((D.sight desk.new).mine ≡ (D.sight desk.old).mine) }
{
    a_pass_with_its_own_hint_counts_nothing();
    let root = root(alloc)?;
    let planned = plan_beside(alloc, desk, now, gate, outside)?;
    gate.at(Point::BeforeCommit);
    let answer = desk.pass(now, &root, Some(planned), inside)?;
    Ok(answer)
}
