//! What the text of an answer needs to know of its request.

ghost use Rattle.std.specs.Prelude.{◌≡◌, IfOk};
ghost use Rattle.slurm_print.specs.Heading.{heading_of, heading_asking};

use request_data::query::{JobQuery, Query};
use request_data::request::Request;
use small_texts::memory_error::Memory;
use small_texts::name::Name;

/// What the text of an answer needs to know of its request. It is taken before the controller is asked, who keeps the
/// request.
#[derive(Drop)]
pub enum Heading {
    /// sbatch(1).
    Sbatch {
        /// Whether the number alone is told: `--parsable`.
        parsable: bool,
    },
    /// scancel(1).
    Scancel,
    /// A reservation of this name is made. "create" in scontrol(1).
    CreateReservation(Name),
    /// A node's report (own).
    Report,
    /// A pass (own).
    Pass,
    /// squeue(1).
    Squeue(JobQuery),
    /// sinfo(1).
    Sinfo {
        /// Whether a line of titles comes first.
        titles: bool,
    },
    /// sprio(1).
    Sprio {
        /// Whether a line of titles comes first.
        titles: bool,
    },
    /// "show" in scontrol(1).
    Show,
    /// Whatever else scontrol(1) asks.
    Scontrol,
}

impl Heading {
    /// Lets it go.
    pub fn let_go(self) {}
}

/// The heading of a request. It takes memory for the name of a new reservation and for what squeue(1) asks, and else
/// none.
pub fn heading_of(request: &Request) -> Result<Heading, Memory>
    ensures { IfOk result (λ heading. heading ≡ heading_of request.now) }
{
    match request {
        Request::Submit(desc) => Ok(Heading::Sbatch {
            parsable: desc.parsable,
        }),
        Request::Cancel(_) => Ok(Heading::Scancel),
        Request::CreateReservation(desc) => Ok(Heading::CreateReservation(desc.name.copy()?)),
        Request::Report(_) => Ok(Heading::Report),
        Request::Pass => Ok(Heading::Pass),
        Request::Show(query) => heading_asking(query),
        _ => Ok(Heading::Scontrol),
    }
}

fn heading_asking(query: &Query) -> Result<Heading, Memory>
    ensures { IfOk result (λ heading. heading ≡ heading_asking query.now) }
{
    match query {
        Query::Squeue(query) => Ok(Heading::Squeue(query.value().copy()?)),
        Query::Sinfo { titles, .. } => Ok(Heading::Sinfo { titles: *titles }),
        Query::Sprio { titles, .. } => Ok(Heading::Sprio { titles: *titles }),
        _ => Ok(Heading::Show),
    }
}
