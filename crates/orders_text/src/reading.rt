//! The text of orders, as it is read.

ghost use Rattle.std.specs.Prelude.{◌≡◌, ◌<◌, ◌+◌, ◌^◌, ℕ, Some, true, IfSome, length};
ghost use Rattle.std.specs.Str.{byte};
ghost use Rattle.reply_data.specs.declared.orders.Orders.{Orders};
ghost use Rattle.orders_text.specs.Fields.{lacks};
ghost use Rattle.orders_text.specs.Heads.{FitsHead, head_text};
ghost use Rattle.orders_text.specs.Orders.{AreOrders, AreOrdersOf, Listed, lines_text};
ghost use Rattle.orders_text.specs.Reading.{AreLinesRead, IsRead, Reads, ReadsLines};

use crate::draft::Draft;
use crate::fields::{number_before, value_before};
use crate::lines::first_line;
use reply_data::orders::Orders;
use small_texts::memory_error;
use small_texts::memory_error::Memory;
use small_texts::name::Name;
use std::alloc::Global;

/// Why a text gave no orders.
#[derive(Clone, Copy, Debug, PartialEq, Eq)]
pub enum OrdersRefusal {
    /// The line of this number, counted from 1, is the first that is off the form or the order of lines.
    BadOrders { line: u32 },
    Memory,
}

impl From<Memory> for OrdersRefusal {
    ghost use Rattle.std.specs.Prelude.{◌≡◌};
    ghost use Rattle.orders_text.specs.declared.reading.OrdersRefusal.TheVariants.{Memory};

    ghost from_gives = { λ _ e. e ≡ Memory };

    fn from(_error: memory_error::Memory) -> OrdersRefusal {
        OrdersRefusal::Memory
    }
}

// The boot number and the number of the first line, where it is for this node.
fn read_head(line: &[u8], node: &[u8]) -> Option<(u64, u64)>
    requires { lacks (byte " ") node.now ≡ true }
    ensures some { IfSome result (λ head. FitsHead head.0 head.1 × (head_text node.now head.0 head.1 ≡ line.now)) }
    ensures only { (boot number : ℕ) → FitsHead boot number → head_text node.now boot number ≡ line.now
        → result ≡ Some (boot, number) }
{
    let (name, behind) = value_before(line, b"orders ", b' ')?;
    if name != node {
        return None;
    }
    let (boot, behind) = number_before(behind, b"", b' ', u64::MAX)?;
    let (number, behind) = number_before(behind, b"", b'\n', u64::MAX)?;
    if behind.is_empty() {
        Some((boot, number))
    } else {
        None
    }
}

// What the lines behind the first order.
fn read_lines(alloc: Global, text: &[u8]) -> Result<Draft, OrdersRefusal>
    requires { length text.now + 4 < 2 ^ 32 }
    ensures read { AreLinesRead text.now result }
    ensures only { (orders : Listed) → AreOrders orders → lines_text orders ≡ text.now → ReadsLines orders result }
{
    let mut draft = Draft::new(alloc);
    let mut at = 0;
    let mut number = 2;
    while at < text.len() {
        let line = first_line(text.split_at(at).1);
        if !draft.read_line(alloc, line)? {
            return Err(OrdersRefusal::BadOrders { line: number });
        }
        at += line.len();
        number += 1;
    }
    Ok(draft)
}

/// The orders for a node of which this is the text, or the first line that is off the form or the order of lines:
/// numbers stand without needless zeros, processors in their one form, starts of each kind in order, and each line is
/// ended by LF (own). Linear in the text.
pub fn read_orders(alloc: Global, text: &[u8], node: &Name) -> Result<Orders, OrdersRefusal>
    requires { length text.now < 2 ^ 32 }
    ensures read { IsRead node.now text.now result }
    ensures only { (orders : Orders) → AreOrdersOf node.now text.now orders → Reads orders result }
{
    let name = node.as_bytes();
    let first = first_line(text);
    let Some((boot, number)) = read_head(first, name) else {
        return Err(OrdersRefusal::BadOrders { line: 1 });
    };
    let draft = read_lines(alloc, text.split_at(first.len()).1)?;
    let node = node.copy()?;
    Ok(draft.into_orders(node, boot, number))
}
