//! What the controller orders a node's daemon to do.

ghost use Rattle.std.specs.Prelude.{◌≡◌, IfOk};
ghost use Rattle.reply_data.specs.Starts.{InOrder, LaunchesInOrder};

use plain_data::items::Items;
use plain_data::{CpuIds, Plain};
use request_data::report::Start;
use small_texts::memory_error::Memory;
use small_texts::name::Name;
use std::marker::Model;

/// A start that is to be launched on the node.
#[derive(PartialEq, Debug, Drop)]
pub struct Launch {
    pub start: Start,
    /// The processors that it gets there.
    pub cpus: CpuIds,
    /// The memory that it gets there, in megabytes.
    pub mem: u64,
    /// How long it runs, in seconds; None elsewhere than on the batch host.
    pub run: Option<u32>,
    /// Its exit code; None elsewhere than on the batch host.
    pub exit: Option<u32>,
}

impl Plain for Launch {
    fn copy(&self) -> Result<Launch, Memory> {
        Ok(Launch {
            start: self.start,
            cpus: self.cpus.copy(),
            mem: self.mem,
            run: self.run,
            exit: self.exit,
        })
    }
}

/// Starts by job, then by number, each once. A contract sees them as a list in that order (own).
#[derive(PartialEq, Debug, Drop)]
pub struct Starts {
    starts: Items<Start>,
}

impl Model for Starts {
    ghost use Rattle.std.specs.Prelude.{List};
    ghost use Rattle.request_data.specs.declared.report.Start.{Start};
    ghost use Rattle.reply_data.specs.Starts.{InOrder};

    ghost Value = { List Start };

    ghost view = { λ s. s.starts };

    ghost invariant = { λ s. InOrder s.starts };

    ghost inverse = { λ starts. record { starts = starts } };
}

impl Starts {
    /// These starts. It takes no memory.
    pub fn from_vec(starts: Vec<Start>) -> Starts
        requires { InOrder starts.items }
        ensures { result ≡ starts.items }
    {
        Starts {
            starts: Items::from_vec(starts),
        }
    }

    /// The starts in order.
    pub fn as_slice(&self) -> &[Start]
        ensures value { result.now ≡ self.now }
        ensures order { InOrder self.now }
    {
        self.starts.as_slice()
    }

    /// Equal starts.
    pub fn copy(&self) -> Result<Starts, Memory>
        ensures { IfOk result (λ starts. starts ≡ self.now) }
    {
        let starts = self.starts.copy()?;
        Ok(Starts { starts })
    }
}

/// Launches by job, then by number, each once. A contract sees them as a list in that order (own).
#[derive(PartialEq, Debug, Drop)]
pub struct Launches {
    launches: Items<Launch>,
}

impl Model for Launches {
    ghost use Rattle.std.specs.Prelude.{List};
    ghost use Rattle.reply_data.specs.declared.orders.Launch.{Launch};
    ghost use Rattle.reply_data.specs.Starts.{LaunchesInOrder};

    ghost Value = { List Launch };

    ghost view = { λ l. l.launches };

    ghost invariant = { λ l. LaunchesInOrder l.launches };

    ghost inverse = { λ launches. record { launches = launches } };
}

impl Launches {
    /// These launches. It takes no memory.
    pub fn from_vec(launches: Vec<Launch>) -> Launches
        requires { LaunchesInOrder launches.items }
        ensures { result ≡ launches.items }
    {
        Launches {
            launches: Items::from_vec(launches),
        }
    }

    /// The launches in order.
    pub fn as_slice(&self) -> &[Launch]
        ensures value { result.now ≡ self.now }
        ensures order { LaunchesInOrder self.now }
    {
        self.launches.as_slice()
    }

    /// Equal launches.
    pub fn copy(&self) -> Result<Launches, Memory>
        ensures { IfOk result (λ launches. launches ≡ self.now) }
    {
        let launches = self.launches.copy()?;
        Ok(Launches { launches })
    }
}

/// What the controller orders a node's daemon to do, in answer to a report (own).
#[derive(PartialEq, Debug, Drop)]
pub struct Orders {
    pub node: Name,
    /// The boot number of the report that they answer.
    pub boot: u64,
    /// The number of that report.
    pub number: u64,
    /// The starts to be killed.
    pub kills: Starts,
    /// The starts that the daemon needn't report any more.
    pub forgets: Starts,
    /// The starts to be launched.
    pub launches: Launches,
}

impl Orders {
    /// Equal orders.
    pub fn copy(&self) -> Result<Orders, Memory>
        ensures { IfOk result (λ orders. orders ≡ self.now) }
    {
        Ok(Orders {
            node: self.node.copy()?,
            boot: self.boot,
            number: self.number,
            kills: self.kills.copy()?,
            forgets: self.forgets.copy()?,
            launches: self.launches.copy()?,
        })
    }
}
