//! The plain data of files, scripts, requests and replies.

pub use plain_data::{
    Plain, array, assoc, conf, dependency, features, job, limit, mem_ask, nice, seconds,
};
pub use reply_data::{orders, priority, refusal, reply, view};
pub use request_data::{query, report, request, reservation, state, target};
