//! A simulation, from the script to the last round.

ghost use Rattle.std.specs.Prelude.{◌≡◌, ℕ, ◌<◌, length, map, true, false, Some, None, option_map, IfOk, OnOk, IsErrOf, IsSomeAnd, if◌then◌else◌};
ghost use Rattle.generator.specs.Generated.{generated};
ghost use Rattle.simulation.specs.Run.{AllGoOn, EndAtLast, HaveReported, IfOneAlone, last_moment};
ghost use Rattle.simulation.specs.Simulation.{Simulated, most_rounds, rounds, simulated, summary};
ghost use Rattle.simulation.specs.declared.tally.Tally.{Tally};

use crate::nodes::start_daemons;
use crate::rota::Rota;
use crate::round::make_round;
use crate::script::work_script;
use crate::summary::summary;
use crate::tally::Tally;
use ctl_desk::desk::Desk;
use generator::script_of;
use node_daemon::daemon::DaemonState;
use resource_profile::{Plain, Steps};
use small_texts::memory_error;
use small_texts::memory_error::Memory;
use std::alloc::Global;

// The most rounds that are made.
const MOST_ROUNDS: u32 = 300_000;

/// Why a simulation has no summary.
#[derive(Clone, Copy, Debug, PartialEq, Eq)]
pub enum SimulationRefusal {
    /// A job was left behind the last round.
    Spent,
    Memory,
}

impl From<memory_error::Memory> for SimulationRefusal {
    ghost use Rattle.std.specs.Prelude.{◌≡◌};
    ghost use Rattle.simulation.specs.declared.simulating.SimulationRefusal.TheVariants as refusal;

    ghost from_gives = { λ _ e. e ≡ refusal.Memory };

    fn from(_error: memory_error::Memory) -> SimulationRefusal {
        SimulationRefusal::Memory
    }
}

// Makes rounds until no job is left; tells whether none was.
fn make_rounds<D: Desk>(
    alloc: Global,
    desks: &mut [D],
    rota: &mut Rota,
    steps: &mut Steps<Plain>,
    daemons: &mut [DaemonState],
    tally: &mut Tally,
) -> Result<bool, Memory>
    requires desks { 0 < length desks.old }
    requires numbers { HaveReported 0 daemons.old }
    ensures go_on { AllGoOn (map D.sight desks.old) (map D.sight desks.new) }
    ensures end { IfOk result (λ over.
        EndAtLast over tally.old.moment tally.new.moment (map D.sight desks.new)) }
    ensures alone { IfOk result (λ over. IfOneAlone (map D.sight desks.old) (map D.sight desks.new) (λ s s'.
        rounds most_rounds (record { state = s; daemons = daemons.old; tally = tally.old })
        ≡ (if over then Some (record { state = s'; daemons = daemons.new; tally = tally.new }) else None))) }
{
    for _ in 0..MOST_ROUNDS {
        make_round(alloc, desks, rota, steps, daemons, tally)?;
        if tally.left == 0 {
            return Ok(true);
        }
    }
    Ok(false)
}

/// Works the script that a number stands for, then lets the daemons of the cluster's nodes report every half minute, each
/// time with a pass behind, until all jobs are over, and tells how many started, were completed or reached their limits,
/// in one line. It makes 300,000 rounds at the most. The desks are asked in turn: each block, each report, each pass and
/// each look at the jobs goes to the next one. They keep what was entered, also after a refusal. Where there is one desk,
/// and nobody else's entries come to it, all is as the definition has it (own).
#[tactic(auto, unfolding(crate::specs::Simulation::simulated))]
pub fn generate_run<D: Desk>(
    alloc: Global,
    number: u32,
    desks: &mut [D],
    steps: &mut Steps<Plain>,
) -> Result<Vec<u8>, SimulationRefusal>
    requires { 0 < length desks.old }
    ensures go_on { AllGoOn (map D.sight desks.old) (map D.sight desks.new) }
    ensures over { IfOk result (λ line. (tally : Tally) × (line.items ≡ summary tally)
        × EndAtLast true (last_moment 0 (generated number)) tally.moment (map D.sight desks.new)) }
    ensures line { IfOk result (λ line. IfOneAlone (map D.sight desks.old) (map D.sight desks.new)
        (λ s s'. IsSomeAnd (simulated s number) (λ sim. line.items ≡ summary sim.tally))) }
    ensures state { OnOk result (IfOneAlone (map D.sight desks.old) (map D.sight desks.new)
        (λ s s'. option_map (λ (sim : Simulated). sim.state) (simulated s number) ≡ Some s')) }
    ensures spent { IsErrOf result SimulationRefusal.Spent →
        ((last : ℕ) × EndAtLast false (last_moment 0 (generated number)) last (map D.sight desks.new))
        × IfOneAlone (map D.sight desks.old) (map D.sight desks.new) (λ s s'. simulated s number ≡ None) }
{
    let script = script_of(alloc, number)?;
    let mut rota = Rota::new();
    let mut tally = Tally::new();
    work_script(
        alloc,
        desks,
        &mut rota,
        steps,
        &mut tally,
        script.as_slice(),
    )?;
    let mut daemons = start_daemons(alloc, desks, &mut rota, tally.moment)?;
    if !make_rounds(
        alloc,
        desks,
        &mut rota,
        steps,
        daemons.as_mut_slice(),
        &mut tally,
    )? {
        return Err(SimulationRefusal::Spent);
    }
    let line = summary(alloc, &tally)?;
    Ok(line)
}
