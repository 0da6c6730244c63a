//! What the history keeps of a reply.

ghost use Rattle.std.specs.Prelude.{◌≡◌, IfOk};

use reply_data::orders::Orders;
use reply_data::reply::Reply;
use request_data::boxed::Boxed;
use small_texts::memory_error::Memory;
use std::alloc::Global;
use std::marker::Model;

// A reply that makes an entry.
#[derive(Drop)]
pub(crate) enum Kept {
    Submitted {
        id: u32,
    },
    Done,
    Passed {
        ended: u32,
        started: u32,
        planned: u32,
    },
    Orders(Boxed<Orders>),
}

/// A reply as the history keeps it, in two words, with orders in memory of their own. A contract sees it as the
/// reply (own).
#[derive(Drop)]
pub struct Entered {
    kept: Kept,
}

impl Model for Entered {
    ghost use Rattle.reply_data.specs.declared.reply.Reply.{Reply};
    ghost use Rattle.ctl_core.specs.Entries.{reply_kept};

    ghost Value = { Reply };

    ghost view = { λ entered. reply_kept entered.kept };
}

impl Entered {
    /// That a job was taken, and its number.
    pub(crate) fn submitted(id: u32) -> Entered
        ensures { result ≡ Reply.Submitted id }
    {
        Entered {
            kept: Kept::Submitted { id },
        }
    }

    /// That it was done.
    pub(crate) fn done() -> Entered
        ensures { result ≡ Reply.Done }
    {
        Entered { kept: Kept::Done }
    }

    /// That a pass was made.
    pub(crate) fn passed(ended: u32, started: u32, planned: u32) -> Entered
        ensures { result ≡ Reply.Passed ended started planned }
    {
        Entered {
            kept: Kept::Passed {
                ended,
                started,
                planned,
            },
        }
    }

    /// That these orders were given. Linear in the orders, of which it keeps a copy.
    pub(crate) fn ordered(alloc: Global, orders: &Orders) -> Result<Entered, Memory>
        ensures { IfOk result (λ entered. entered ≡ Reply.Orders orders.now) }
    {
        let orders = Boxed::new(alloc, orders.copy()?)?;
        Ok(Entered {
            kept: Kept::Orders(orders),
        })
    }

    /// Lets it go.
    pub fn let_go(self) {}
}
