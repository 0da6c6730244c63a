//! The script that a number stands for, to a link's output.

ghost use Rattle.generator.specs.Generated.{generated};
ghost use Rattle.slurm_top.specs.Run.{IsEndWriting};

use crate::end::End;
use generator::script_of;
use slurm_io::{Failed, Link, write_all};
use small_texts::memory_error::Memory;
use std::alloc::Global;

/// Writes a text on the link, in one piece.
pub(crate) fn write_whole<L: Link>(link: &mut L, text: &[u8]) -> End
    ensures { IsEndWriting text.now (L.wire link.old) (L.wire link.new) result }
{
    match write_all(link, text) {
        Ok(()) => End::Generated,
        Err(Failed) => End::WriteFault,
    }
}

/// Writes the script that a number stands for on the link, in one piece, and reads nothing. Where memory is wanting
/// nothing is written either.
pub(crate) fn write_generated<L: Link>(alloc: Global, number: u32, link: &mut L) -> End
    ensures { IsEndWriting (generated number) (L.wire link.old) (L.wire link.new) result }
{
    match script_of(alloc, number) {
        Ok(script) => write_whole(link, script.as_slice()),
        Err(Memory) => End::Memory,
    }
}
