//! A simulation of the jobs that a number stands for, on a cluster of its own, and the line that tells of it.

ghost use Rattle.std.specs.Prelude.{◌≡◌, ℕ, IfOk, IsErrOf, IsSomeAnd, Ok, None};
ghost use Rattle.simulation.specs.Simulation.{Simulated, summary};
ghost use Rattle.slurm_top.specs.Run.{IsEndSimulating};
ghost use Rattle.slurm_top.specs.SimulatedCluster.{simulation_of};

use crate::end::End;
use crate::generate::write_whole;
use cluster_opening::simulated_desk;
use resource_profile::start;
use simulation::{SimulationRefusal, generate_run};
use slurm_io::Link;
use small_texts::memory_error::Memory;
use std::alloc::Global;

/// Simulates the jobs that a number stands for, and writes the line that tells of it on the link, in one piece; reads
/// nothing. Where there is no line nothing is written.
pub(crate) fn write_summary<L: Link>(alloc: Global, number: u32, link: &mut L) -> End
    ensures { IsEndSimulating number (L.wire link.old) (L.wire link.new) result }
{
    let desk = match simulated_desk(alloc) {
        Ok(desk) => desk,
        Err(Memory) => return End::Memory,
    };
    match generate_run(alloc, number, &mut [desk], &mut start()) {
        Ok(line) => write_whole(link, line.as_slice()),
        Err(SimulationRefusal::Spent) => End::Spent,
        Err(SimulationRefusal::Memory) => End::Memory,
    }
}
