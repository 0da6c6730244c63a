// What is printed for who asks to be shown something.

use plain_data::items::Items;
use reply_data::reply::Reply;
use reply_data::view::{Row, View};
use request_data::query::Query;
use request_data::request::Request;
use slurm_print::text::text;
use std::alloc::Global;
use table_lines::answer::Unanswered;

// The query and the rows are each let go by a function of their own, so that no proof goes through the forms of both.
fn reply_text(alloc: Global, request: &Request, reply: &Reply) -> Result<Vec<u8>, Unanswered> {
    Ok(text(alloc, request, reply)?)
}

fn request_text(alloc: Global, request: &Request, rows: Vec<Row>) -> Result<Vec<u8>, Unanswered> {
    let reply = Reply::Shown(View {
        rows: Items::from_vec(rows),
    });
    reply_text(alloc, request, &reply)
}

/// What a query shows of these rows.
pub fn query_text(alloc: Global, query: Query, rows: Vec<Row>) -> Result<Vec<u8>, Unanswered> {
    let request = Request::Show(query);
    request_text(alloc, &request, rows)
}
