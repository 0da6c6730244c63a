//! What users and daemons ask the controller.

ghost use Rattle.std.specs.Prelude.{◌≡◌, IfOk};

use crate::query::Query;
use crate::report::Report;
use crate::reservation::ReservationDesc;
use crate::target::{Target, Targets};
use plain_data::Plain;
use plain_data::boxed::Boxed;
use plain_data::conf::{Conf, PartState};
use plain_data::items::Items;
use plain_data::job::JobDesc;
use plain_data::limit::Limit;
use plain_data::nice::Nice;
use small_texts::memory_error::Memory;
use small_texts::name::Name;

/// What becomes of a node by an operator's word. `State` under "update" in scontrol(1).
#[derive(Clone, Copy, PartialEq, Eq, Debug)]
pub enum NodeOrder {
    /// It is set down, and what runs there ends.
    Down,
    /// It keeps what it runs, and nothing starts there.
    Drain,
    /// Both are taken back.
    Resume,
}

/// A request to the controller.
#[derive(PartialEq, Debug, Drop)]
pub enum Request {
    /// Hands in a job. sbatch(1).
    Submit(Boxed<JobDesc>),
    /// Ends jobs. scancel(1).
    Cancel(Targets),
    /// Holds pending jobs back. "hold" and "uhold" in scontrol(1).
    Hold {
        targets: Items<Target>,
        /// Whether the jobs' owner may release them: uhold.
        user: bool,
    },
    /// Lets held jobs go. "release" in scontrol(1).
    Release {
        targets: Items<Target>,
    },
    /// Has running jobs wait for another start. "requeue" in scontrol(1).
    Requeue {
        target: Target,
    },
    /// Changes jobs. "update" in scontrol(1).
    UpdateJob {
        target: Target,
        /// How long they may run; None leaves it.
        limit: Option<Limit>,
        /// Their nice value; None leaves it.
        nice: Option<Nice>,
    },
    /// Changes what operators say of nodes. "update" in scontrol(1).
    UpdateNode {
        nodes: Items<Name>,
        state: NodeOrder,
    },
    /// Changes the state of a partition. "update" in scontrol(1).
    UpdatePartition {
        name: Name,
        state: PartState,
    },
    /// Keeps nodes for some for a time. "create" in scontrol(1).
    CreateReservation(Boxed<ReservationDesc>),
    /// Takes a reservation back. "delete" in scontrol(1).
    DeleteReservation {
        name: Name,
    },
    /// Tells what runs on a node and what is over there (own).
    Report(Report),
    /// Ends what is over its limit, starts jobs and plans the others (own).
    Pass,
    /// Puts another configuration in force. "reconfigure" in scontrol(1).
    Reconfigure {
        conf: Boxed<Conf>,
        /// How many bytes its text had: it counts so much towards what is kept of the history.
        bytes: u32,
    },
    /// Ends the controller's work. "shutdown" in scontrol(1).
    Shutdown,
    /// Asks for records. squeue(1), sinfo(1), sprio(1), "show" in scontrol(1).
    Show(Query),
}

impl Request {
    /// Lets it go.
    pub fn let_go(self) {}

    /// An equal request.
    pub fn copy(&self) -> Result<Request, Memory>
        ensures { IfOk result (λ request. request ≡ self.now) }
    {
        match self {
            Request::Submit(desc) => Ok(Request::Submit(desc.copy()?)),
            Request::Cancel(targets) => Ok(Request::Cancel(targets.copy()?)),
            Request::Hold { targets, user } => Ok(Request::Hold {
                targets: targets.copy()?,
                user: *user,
            }),
            Request::Release { targets } => Ok(Request::Release {
                targets: targets.copy()?,
            }),
            Request::Requeue { target } => Ok(Request::Requeue { target: *target }),
            Request::UpdateJob {
                target,
                limit,
                nice,
            } => Ok(Request::UpdateJob {
                target: *target,
                limit: *limit,
                nice: *nice,
            }),
            Request::UpdateNode { nodes, state } => Ok(Request::UpdateNode {
                nodes: nodes.copy()?,
                state: *state,
            }),
            Request::UpdatePartition { name, state } => Ok(Request::UpdatePartition {
                name: name.copy()?,
                state: *state,
            }),
            Request::CreateReservation(desc) => Ok(Request::CreateReservation(desc.copy()?)),
            Request::DeleteReservation { name } => Ok(Request::DeleteReservation {
                name: name.copy()?,
            }),
            Request::Report(report) => Ok(Request::Report(report.copy()?)),
            Request::Pass => Ok(Request::Pass),
            Request::Reconfigure { conf, bytes } => Ok(Request::Reconfigure {
                conf: conf.copy()?,
                bytes: *bytes,
            }),
            Request::Shutdown => Ok(Request::Shutdown),
            Request::Show(query) => Ok(Request::Show(query.copy()?)),
        }
    }
}
