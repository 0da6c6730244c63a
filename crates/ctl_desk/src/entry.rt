//! What the history keeps of an accepted request, and what a session is told.

use ctl_core::entered::Entered;
use reply_data::reply::Reply;
use request_data::request::Request;
use small_texts::name::Name;

/// An accepted request.
#[derive(Drop)]
pub struct Entry {
    /// The number of the session that asked it.
    pub session: u32,
    /// The moment at which it was decided, never before that of the entry before.
    pub moment: u64,
    pub user: Name,
    pub request: Request,
    pub reply: Entered,
}

/// Lets entries go.
pub fn let_all_go(_entries: Vec<Entry>) {}

/// An answer and its place in the history: how many entries were there when it was decided.
#[derive(Drop)]
pub struct Answer {
    pub reply: Reply,
    pub place: u64,
}

impl Answer {
    /// Lets it go.
    pub fn let_go(self) {}
}
