//! What holds of the controller's orders. A law is the contract of a function that does nothing.

ghost use Rattle.std.specs.Prelude.{◌≡◌, ℕ, List, true};
ghost use Rattle.reply_data.specs.declared.orders.Orders.{Orders};
ghost use Rattle.reply_data.specs.declared.reply.Reply.TheVariants.{Orders as Ordered};
ghost use Rattle.ctl_state.specs.State.{State};
ghost use Rattle.ctl_core.specs.Step.{reply_of};
ghost use Rattle.node_daemon.specs.Daemon.{Daemon, are_due, polled};
ghost use Rattle.node_daemon.specs.Turn.{report_at};

/// Orders that answer the report of a daemon that has just polled are due to it.
pub fn orders_are_due()
    ensures { (s : State) (asked now : ℕ) (user : List ℕ) (daemon : Daemon) (orders : Orders)
        → reply_of s asked user (report_at now daemon) ≡ Ordered orders
        → are_due orders (polled now daemon) ≡ true }
{}
