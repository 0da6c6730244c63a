//! Blocks: the requests of a session, as they lie in a stream of bytes.
#![tactic(auto)]

mod block;
mod blocks;
mod form;
mod framed;
mod laws;
mod lines;
mod looking;
mod parts;
mod replies;
mod requests;
mod text;

pub use block::{Block, Next};
pub use blocks::Blocks;
pub use form::Form;
pub use framed::{LENGTH_SIZE, announced};
pub use laws::{
    bad_readers_stay, bad_texts_stay, blocks_are_cut_once, blocks_are_short, blocks_go_first,
    kinds_are_apart, nothing_is_partial, replies_are_framed, replies_are_one,
    replies_say_their_end, spellings_join, texts_are_cut,
};
pub use replies::{REPLY_HEAD, Reply, read_reply, write_block};
pub use requests::write_request;
pub use text::Text;
