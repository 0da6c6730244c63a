//! What users do to jobs.

use plain_data::limit::Limit;
use plain_data::nice::Nice;

/// What a user does to jobs. scancel(1), and "hold", "release", "requeue" and "update" in scontrol(1).
#[derive(Clone, Copy, Debug)]
pub enum Action {
    /// They end.
    Cancel,
    /// They are held back.
    Hold {
        /// Whether their owner may let them go, whoever holds them: uhold.
        for_owner: bool,
    },
    /// They are let go.
    Release,
    /// They stop, and wait for another start.
    Requeue,
    /// They get another limit, or another nice value; None leaves it.
    Update {
        limit: Option<Limit>,
        nice: Option<Nice>,
    },
}
