//! The lines of a saved state that are of no job.

ghost use Rattle.std.specs.Prelude.{◌≡◌, ◌≤◌, ◌∷◌, ◌++◌, Some, None, IfOk, OnOk, IsErrOf};
ghost use Rattle.std.specs.Str.{byte};
ghost use Rattle.line_words.specs.Words.{quoted};
ghost use Rattle.state_save.specs.Texts.{listed, name_text};
ghost use Rattle.saved_data.specs.Order.{IsNotBehind};
ghost use Rattle.state_save.specs.Fitting.{IsName};
ghost use Rattle.state_save.specs.Savable.{HeadFits, PartitionFits, NodeFits, DroppedFits, UsageFits, ReservationFits, ArrayFits, PlacedFits};
ghost use Rattle.state_save.specs.Saved.{moment_words, partition_words, node_words, dropped_words, usage_words, reservation_words, array_words, placed_words};
ghost use Rattle.state_save.specs.Lines.{head_in, partition_in, node_in, dropped_in, usage_in, reservation_in, array_in, placed_in};

use crate::line::Line;
use crate::line_fields::{read_field, read_list_field};
use crate::pairs::Pair;
use crate::writer::Writer;
use line_words::words::Words;
use node_state::record::DroppedNode;
use saved_data::parts::{
    SavedArray, SavedNode, SavedPartition, SavedPlaced, SavedReservation, SavedUsage,
};
use small_texts::memory_error::Memory;
use std::alloc::Global;
use std::cmp::Ordering;
use text_values::refusal::ValueRefusal;

/// The last moment, and the number that the next job gets.
#[derive(Clone, Copy)]
pub struct Head {
    pub moment: u64,
    pub next_id: u32,
}

#[tactic(auto, unfolding(crate::specs::Lines::head_in))]
fn read_head(alloc: Global, line: &Words) -> Result<Head, ValueRefusal>
    ensures value { IfOk result (λ head. head_in line.now ≡ Some head) }
    ensures refused { IsErrOf result ValueRefusal.BadValue → head_in line.now ≡ None }
    ensures fit { IfOk result HeadFits }
{
    let moment = read_field(alloc, line, 1, b"")?;
    let next_id = read_field(alloc, line, 3, b"")?;
    Ok(Head { moment, next_id })
}

impl Line for Head {
    ghost words = { λ head. moment_words head.moment head.next_id };

    ghost fits = { HeadFits };

    ghost follows = { λ _ _. Unit {0} };

    #[tactic(auto, unfolding(crate::specs::Saved::line_text, line_words::specs::Words::quoted_words))]
    fn push_line(&self, writer: &mut Writer) -> Result<(), Memory> {
        writer.begin_line(b"moment")?;
        writer.push_value(b"", &self.moment)?;
        writer.push_value(b"next", &None::<u32>)?;
        writer.push_value(b"", &self.next_id)?;
        writer.end_line()
    }

    fn read_words(alloc: Global, line: &Words) -> Result<Head, ValueRefusal> {
        read_head(alloc, line)
    }

    fn may_follow(&self, _before: &Head) -> bool {
        true
    }

    fn tell_lines() {}
}

#[tactic(auto, unfolding(crate::specs::Lines::partition_in))]
fn read_partition(alloc: Global, line: &Words) -> Result<SavedPartition, ValueRefusal>
    ensures value { IfOk result (λ partition. partition_in line.now ≡ Some partition) }
    ensures refused { IsErrOf result ValueRefusal.BadValue → partition_in line.now ≡ None }
    ensures fit { IfOk result PartitionFits }
{
    let name = read_field(alloc, line, 1, b"")?;
    let state = read_field(alloc, line, 2, b"")?;
    Ok(SavedPartition { name, state })
}

impl Line for SavedPartition {
    ghost words = { partition_words };

    ghost fits = { PartitionFits };

    ghost follows = { λ _ _. Unit {0} };

    #[tactic(auto, unfolding(crate::specs::Saved::line_text, line_words::specs::Words::quoted_words))]
    fn push_line(&self, writer: &mut Writer) -> Result<(), Memory> {
        writer.begin_line(b"partition")?;
        writer.push_value(b"", &self.name)?;
        writer.push_value(b"", &self.state)?;
        writer.end_line()
    }

    fn read_words(alloc: Global, line: &Words) -> Result<SavedPartition, ValueRefusal> {
        read_partition(alloc, line)
    }

    fn may_follow(&self, _before: &SavedPartition) -> bool {
        true
    }

    fn tell_lines() {}
}

#[tactic(auto, unfolding(crate::specs::Lines::node_in))]
fn read_node(alloc: Global, line: &Words) -> Result<SavedNode, ValueRefusal>
    ensures value { IfOk result (λ node. node_in line.now ≡ Some node) }
    ensures refused { IsErrOf result ValueRefusal.BadValue → node_in line.now ≡ None }
    ensures fit { IfOk result NodeFits }
{
    let down = read_field(alloc, line, 2, b"")?;
    let drain = read_field(alloc, line, 3, b"")?;
    let empty = read_field(alloc, line, 4, b"")?;
    let heard = read_field(alloc, line, 5, b"")?;
    let name = read_field(alloc, line, 1, b"")?;
    Ok(SavedNode {
        name,
        down,
        drain,
        empty,
        heard,
    })
}

impl Line for SavedNode {
    ghost words = { node_words };

    ghost fits = { NodeFits };

    ghost follows = { λ _ _. Unit {0} };

    #[tactic(auto, unfolding(crate::specs::Saved::line_text, line_words::specs::Words::quoted_words))]
    fn push_line(&self, writer: &mut Writer) -> Result<(), Memory> {
        writer.begin_line(b"node")?;
        writer.push_value(b"", &self.name)?;
        writer.push_value(b"", &self.down)?;
        writer.push_value(b"", &self.drain)?;
        writer.push_value(b"", &self.empty)?;
        writer.push_value(b"", &self.heard)?;
        writer.end_line()
    }

    fn read_words(alloc: Global, line: &Words) -> Result<SavedNode, ValueRefusal> {
        read_node(alloc, line)
    }

    fn may_follow(&self, _before: &SavedNode) -> bool {
        true
    }

    fn tell_lines() {}
}

#[tactic(auto, unfolding(crate::specs::Lines::dropped_in))]
fn read_dropped(alloc: Global, line: &Words) -> Result<DroppedNode, ValueRefusal>
    ensures value { IfOk result (λ dropped. dropped_in line.now ≡ Some dropped) }
    ensures refused { IsErrOf result ValueRefusal.BadValue → dropped_in line.now ≡ None }
    ensures fit { IfOk result DroppedFits }
{
    let pair: Pair = read_field(alloc, line, 2, b"")?;
    let name = read_field(alloc, line, 1, b"")?;
    Ok(DroppedNode {
        name,
        boot: pair.boot,
        number: pair.number,
    })
}

impl Line for DroppedNode {
    ghost words = { dropped_words };

    ghost fits = { DroppedFits };

    ghost follows = { λ before after. IsNotBehind before.name after.name };

    #[tactic(auto, unfolding(crate::specs::Saved::line_text, line_words::specs::Words::quoted_words))]
    fn push_line(&self, writer: &mut Writer) -> Result<(), Memory> {
        writer.begin_line(b"gone")?;
        writer.push_value(b"", &self.name)?;
        let pair = Pair {
            boot: self.boot,
            number: self.number,
        };
        writer.push_value(b"", &pair)?;
        writer.end_line()
    }

    fn read_words(alloc: Global, line: &Words) -> Result<DroppedNode, ValueRefusal> {
        read_dropped(alloc, line)
    }

    fn may_follow(&self, before: &DroppedNode) -> bool {
        !matches!(before.name.cmp(&self.name), Ordering::Greater)
    }

    fn tell_lines() {}
}

#[tactic(auto, unfolding(crate::specs::Lines::usage_in))]
fn read_usage(alloc: Global, line: &Words) -> Result<SavedUsage, ValueRefusal>
    ensures value { IfOk result (λ usage. usage_in line.now ≡ Some usage) }
    ensures refused { IsErrOf result ValueRefusal.BadValue → usage_in line.now ≡ None }
    ensures fit { IfOk result UsageFits }
{
    let total = read_field(alloc, line, 3, b"")?;
    let account = read_field(alloc, line, 1, b"")?;
    let user = read_field(alloc, line, 2, b"")?;
    Ok(SavedUsage {
        account,
        user,
        total,
    })
}

impl Line for SavedUsage {
    ghost words = { usage_words };

    ghost fits = { UsageFits };

    ghost follows = { λ _ _. Unit {0} };

    #[tactic(auto, unfolding(crate::specs::Saved::line_text, line_words::specs::Words::quoted_words))]
    fn push_line(&self, writer: &mut Writer) -> Result<(), Memory> {
        writer.begin_line(b"usage")?;
        writer.push_value(b"", &self.account)?;
        writer.push_value(b"", &self.user)?;
        writer.push_value(b"", &self.total)?;
        writer.end_line()
    }

    fn read_words(alloc: Global, line: &Words) -> Result<SavedUsage, ValueRefusal> {
        read_usage(alloc, line)
    }

    fn may_follow(&self, _before: &SavedUsage) -> bool {
        true
    }

    fn tell_lines() {}
}

#[tactic(auto, unfolding(crate::specs::Lines::reservation_in))]
fn read_reservation(alloc: Global, line: &Words) -> Result<SavedReservation, ValueRefusal>
    ensures value { IfOk result (λ reservation. reservation_in line.now ≡ Some reservation) }
    ensures refused { IsErrOf result ValueRefusal.BadValue → reservation_in line.now ≡ None }
    ensures fit { IfOk result ReservationFits }
{
    let start = read_field(alloc, line, 2, b"")?;
    let end = read_field(alloc, line, 3, b"")?;
    let name = read_field(alloc, line, 1, b"")?;
    let nodes = read_field(alloc, line, 4, b"")?;
    let users = read_field(alloc, line, 5, b"")?;
    let accounts = read_field(alloc, line, 6, b"")?;
    Ok(SavedReservation {
        name,
        start,
        end,
        nodes,
        users,
        accounts,
    })
}

// The nodes, users and accounts of a reservation.
fn push_lists(writer: &mut Writer, reservation: &SavedReservation) -> Result<(), Memory>
    ensures { OnOk result (writer.new ≡ writer.old ++ (byte " " ∷ quoted (listed name_text reservation.now.nodes)
        ++ (byte " " ∷ quoted (listed name_text reservation.now.users)
        ++ byte " " ∷ quoted (listed name_text reservation.now.accounts)))) }
{
    writer.push_value(b"", &reservation.nodes)?;
    writer.push_value(b"", &reservation.users)?;
    writer.push_value(b"", &reservation.accounts)
}

impl Line for SavedReservation {
    ghost words = { reservation_words };

    ghost fits = { ReservationFits };

    ghost follows = { λ _ _. Unit {0} };

    #[tactic(auto, unfolding(crate::specs::Saved::line_text, line_words::specs::Words::quoted_words))]
    fn push_line(&self, writer: &mut Writer) -> Result<(), Memory> {
        writer.begin_line(b"reservation")?;
        writer.push_value(b"", &self.name)?;
        writer.push_value(b"", &self.start)?;
        writer.push_value(b"", &self.end)?;
        push_lists(writer, self)?;
        writer.end_line()
    }

    fn read_words(alloc: Global, line: &Words) -> Result<SavedReservation, ValueRefusal> {
        read_reservation(alloc, line)
    }

    fn may_follow(&self, _before: &SavedReservation) -> bool {
        true
    }

    fn tell_lines() {}
}

#[tactic(auto, unfolding(crate::specs::Lines::array_in))]
fn read_array(alloc: Global, line: &Words) -> Result<SavedArray, ValueRefusal>
    ensures value { IfOk result (λ array. array_in line.now ≡ Some array) }
    ensures refused { IsErrOf result ValueRefusal.BadValue → array_in line.now ≡ None }
    ensures fit { IfOk result ArrayFits }
{
    let id = read_field(alloc, line, 1, b"")?;
    let indices = read_field(alloc, line, 2, b"")?;
    Ok(SavedArray { id, indices })
}

impl Line for SavedArray {
    ghost words = { array_words };

    ghost fits = { ArrayFits };

    ghost follows = { λ before after. before.id ≤ after.id };

    #[tactic(auto, unfolding(crate::specs::Saved::line_text, line_words::specs::Words::quoted_words))]
    fn push_line(&self, writer: &mut Writer) -> Result<(), Memory> {
        writer.begin_line(b"array")?;
        writer.push_value(b"", &self.id)?;
        writer.push_value(b"", &self.indices)?;
        writer.end_line()
    }

    fn read_words(alloc: Global, line: &Words) -> Result<SavedArray, ValueRefusal> {
        read_array(alloc, line)
    }

    fn may_follow(&self, before: &SavedArray) -> bool {
        before.id <= self.id
    }

    fn tell_lines() {}
}

#[tactic(auto, unfolding(crate::specs::Lines::placed_in))]
fn read_placed(alloc: Global, line: &Words) -> Result<SavedPlaced, ValueRefusal>
    ensures value { IfOk result (λ placed. placed_in line.now ≡ Some placed) }
    ensures refused { IsErrOf result ValueRefusal.BadValue → placed_in line.now ≡ None }
    ensures fit { IfOk result PlacedFits }
{
    let id = read_field(alloc, line, 1, b"")?;
    let start = read_field(alloc, line, 2, b"")?;
    let shares = read_list_field(alloc, line, 3, b"", b';')?;
    Ok(SavedPlaced { id, start, shares })
}

impl Line for SavedPlaced {
    ghost words = { placed_words };

    ghost fits = { PlacedFits };

    ghost follows = { λ _ _. Unit {0} };

    #[tactic(auto, unfolding(crate::specs::Saved::line_text, line_words::specs::Words::quoted_words))]
    fn push_line(&self, writer: &mut Writer) -> Result<(), Memory> {
        writer.begin_line(b"plan")?;
        writer.push_value(b"", &self.id)?;
        writer.push_value(b"", &self.start)?;
        writer.push_values(b"", self.shares.as_slice(), b';')?;
        writer.end_line()
    }

    fn read_words(alloc: Global, line: &Words) -> Result<SavedPlaced, ValueRefusal> {
        read_placed(alloc, line)
    }

    fn may_follow(&self, _before: &SavedPlaced) -> bool {
        true
    }

    fn tell_lines() {}
}
