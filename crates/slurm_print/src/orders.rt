//! The text of orders.

ghost use Rattle.std.specs.Prelude.{◌≡◌, ◌++◌, flat_map, OnOk};
ghost use Rattle.slurm_print.specs.Orders.{orders_text, head_line, start_text, start_line, launch_line, number_or_dash};

use reply_data::orders::{Launch, Orders};
use request_data::report::Start;
use small_texts::memory_error::Memory;
use small_texts::pieces::{push_labelled, push_number, push_text};
use table_texts::ranges::push_cpus;

/// Writes a line for each order, behind one that names the report that they answer.
pub(crate) fn push_orders(out: &mut Vec<u8>, orders: &Orders) -> Result<(), Memory>
    ensures { OnOk result (out.new.items ≡ out.old.items ++ orders_text orders.now) }
{
    push_head(out, orders)?;
    push_starts(out, b"kill ", orders.kills.as_slice())?;
    push_starts(out, b"forget ", orders.forgets.as_slice())?;
    push_launches(out, orders.launches.as_slice())
}

fn push_head(out: &mut Vec<u8>, orders: &Orders) -> Result<(), Memory>
    ensures { OnOk result (out.new.items ≡ out.old.items ++ head_line orders.now) }
{
    push_text(out, b"orders ")?;
    push_text(out, orders.node.as_bytes())?;
    push_labelled(out, b" ", orders.boot)?;
    push_labelled(out, b" ", orders.number)?;
    push_text(out, b"\n")
}

fn push_starts(out: &mut Vec<u8>, word: &[u8], starts: &[Start]) -> Result<(), Memory>
    ensures { OnOk result (out.new.items ≡ out.old.items ++ flat_map (start_line word.now) starts.now) }
{
    for start in starts {
        push_text(out, word)?;
        push_start(out, start)?;
        push_text(out, b"\n")?;
    }
    Ok(())
}

fn push_launches(out: &mut Vec<u8>, launches: &[Launch]) -> Result<(), Memory>
    ensures { OnOk result (out.new.items ≡ out.old.items ++ flat_map launch_line launches.now) }
{
    for launch in launches {
        push_launch(out, launch)?;
    }
    Ok(())
}

fn push_launch(out: &mut Vec<u8>, launch: &Launch) -> Result<(), Memory>
    ensures { OnOk result (out.new.items ≡ out.old.items ++ launch_line launch.now) }
{
    push_text(out, b"launch ")?;
    push_start(out, &launch.start)?;
    push_text(out, b" cpus=")?;
    push_cpus(out, &launch.cpus)?;
    push_labelled(out, b" mem=", launch.mem)?;
    push_if_known(out, b" run=", launch.run)?;
    push_if_known(out, b" exit=", launch.exit)?;
    push_text(out, b"\n")?;
    Ok(())
}

fn push_start(out: &mut Vec<u8>, start: &Start) -> Result<(), Memory>
    ensures { OnOk result (out.new.items ≡ out.old.items ++ start_text start.now) }
{
    push_number(out, u64::from(start.id))?;
    push_labelled(out, b".", u64::from(start.number))
}

fn push_if_known(out: &mut Vec<u8>, label: &[u8], number: Option<u32>) -> Result<(), Memory>
    ensures { OnOk result (out.new.items ≡ out.old.items ++ label.now ++ number_or_dash number) }
{
    push_text(out, label)?;
    match number {
        Some(number) => push_number(out, u64::from(number)),
        None => push_text(out, b"-"),
    }
}
