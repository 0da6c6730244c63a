//! What the controller decides.

use crate::entered::Entered;
use reply_data::reply::Reply;

/// What was decided on a request.
#[derive(Drop)]
pub struct Decided {
    /// The answer.
    pub reply: Reply,
    /// The answer once more, for the history, where it makes an entry there.
    pub entered: Option<Entered>,
    /// The moment at which it was decided: the one handed in, or the last one where that is later.
    pub moment: u64,
}

// What a request comes to, before it bears its moment.
#[derive(Drop)]
pub(crate) struct Answered {
    pub(crate) reply: Reply,
    // The reply once more, where it makes an entry.
    pub(crate) entered: Option<Entered>,
}
