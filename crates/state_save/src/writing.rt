//! A saved state, written as its text.

ghost use Rattle.std.specs.Prelude.{◌≡◌, ◌++◌, flat_map, map, IfOk, OnOk};
ghost use Rattle.state_save.specs.Saved.{line_text, saved_text};
ghost use Rattle.state_save.specs.Parts.{version_text, end_text, front_text, back_text};

use crate::cluster_lines::Head;
use crate::line::Line;
use crate::writer::Writer;
use saved_data::saved::Saved;
use small_texts::memory_error::Memory;
use std::alloc::Global;

/// Writes the lines of members, one after the other.
fn push_lines<T: Line>(writer: &mut Writer, members: &[T]) -> Result<(), Memory>
    ensures { OnOk result (writer.new ≡ writer.old ++ flat_map (λ x. line_text (T.words x)) members.now) }
{
    for member in members {
        member.push_line(writer)?;
    }
    Ok(())
}

#[tactic(auto, unfolding(crate::specs::Saved::line_text, line_words::specs::Words::quoted_words, line_words::specs::Words::quoted))]
fn push_version(writer: &mut Writer) -> Result<(), Memory>
    ensures { OnOk result (writer.new ≡ writer.old ++ version_text) }
{
    writer.push_line_text(b"slurm-state 1\n")
}

#[tactic(auto, unfolding(crate::specs::Saved::line_text, line_words::specs::Words::quoted_words, line_words::specs::Words::quoted))]
fn push_end(writer: &mut Writer) -> Result<(), Memory>
    ensures { OnOk result (writer.new ≡ writer.old ++ end_text) }
{
    writer.push_line_text(b"end\n")
}

// What is no list of arrays and jobs.
#[tactic(auto, unfolding(crate::specs::Parts::front_text))]
fn push_front(writer: &mut Writer, saved: &Saved) -> Result<(), Memory>
    ensures { OnOk result (writer.new ≡ writer.old ++ front_text saved.now) }
{
    push_version(writer)?;
    let head = Head {
        moment: saved.moment,
        next_id: saved.next_id,
    };
    head.push_line(writer)?;
    push_lines(writer, saved.partitions.as_slice())?;
    push_lines(writer, saved.nodes.as_slice())?;
    push_lines(writer, saved.dropped.as_slice())?;
    push_lines(writer, saved.usage.as_slice())
}

#[tactic(auto, unfolding(crate::specs::Parts::back_text))]
fn push_back(writer: &mut Writer, saved: &Saved) -> Result<(), Memory>
    ensures { OnOk result (writer.new ≡ writer.old ++ back_text saved.now) }
{
    push_lines(writer, saved.reservations.as_slice())?;
    push_lines(writer, saved.arrays.as_slice())?;
    push_lines(writer, saved.jobs.as_slice())?;
    push_lines(writer, saved.plan.as_slice())?;
    push_end(writer)
}

/// The text of a saved state. Linear in the text.
#[tactic(auto, using(crate::proofs::Whole::whole_text))]
pub fn write_saved(alloc: Global, saved: &Saved) -> Result<Vec<u8>, Memory>
    ensures { IfOk result (λ text. text.items ≡ saved_text saved.now) }
{
    let mut writer = Writer::new(alloc);
    push_front(&mut writer, saved)?;
    push_back(&mut writer, saved)?;
    Ok(writer.into_text())
}
