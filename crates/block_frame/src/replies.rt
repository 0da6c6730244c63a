// The frames of replies, as they are written and read.
ghost use Rattle.std.specs.Prelude.{◌≡◌, ◌≤◌, ℕ, List, length, IfOk, IsSomeAnd, ◌↔◌};
ghost use Rattle.block_frame.specs.Replies.{IsReply, framed_reply, place_said, reply_frame, too_long};

use crate::framed::{LENGTH_SIZE, announced, byte_at};
use small_texts::memory_error::Memory;
use std::alloc::Global;

/// How many bytes of a reply frame stand between its length and its text: a status, and a place of eight bytes.
pub const REPLY_HEAD: usize = 9;

/// How many bytes a reply's text has at the most: with the head before it, its length fits four bytes (own).
pub const MAX_REPLY_TEXT: usize = 4_294_967_286;

/// What a reply frame says.
#[derive(Clone, Copy)]
pub struct Reply<'a> {
    /// 0 or 1.
    pub status: u8,
    pub place: u64,
    pub text: &'a [u8],
}

fn framed_reply(alloc: Global, status: u8, place: u64, text: &[u8]) -> Result<Vec<u8>, Memory>
    requires { length text.now ≤ MAX_REPLY_TEXT }
    ensures { IfOk result (λ frame. frame.items ≡ framed_reply status place text.now) }
{
    let len = REPLY_HEAD + text.len();
    let mut frame = Vec::with_capacity(alloc, LENGTH_SIZE + len)?;
    frame.extend_from_slice(&(len as u32).to_be_bytes())?;
    frame.push(status)?;
    frame.extend_from_slice(&place.to_be_bytes())?;
    frame.extend_from_slice(text)?;
    Ok(frame)
}

/// The frame of a reply: a length of four bytes, the greatest first, of what follows it; the status in one byte, the
/// place in eight, and the text. A text that is too long gives way to a message that says so, with status 1.
#[tactic(auto, unfolding(crate::specs::Replies::too_long))]
pub fn write_block(alloc: Global, status: u8, place: u64, text: &[u8]) -> Result<Vec<u8>, Memory>
    ensures { IfOk result (λ frame. frame.items ≡ reply_frame status place text.now) }
{
    if text.len() <= MAX_REPLY_TEXT {
        framed_reply(alloc, status, place, text)
    } else {
        framed_reply(alloc, 1, place, b"slurm: error: ReplyTooLong\n")
    }
}

// The place that a text begins with. Bytes that aren't there count as 0.
#[tactic(auto, unfolding(crate::specs::Replies::place_said))]
fn place_said(text: &[u8]) -> u64
    ensures { result ≡ place_said text.now }
{
    u64::from_be_bytes([
        byte_at(text, 0),
        byte_at(text, 1),
        byte_at(text, 2),
        byte_at(text, 3),
        byte_at(text, 4),
        byte_at(text, 5),
        byte_at(text, 6),
        byte_at(text, 7),
    ])
}

/// What a reply frame says, where the bytes are one and nothing more. They are none where the length is below 9, the
/// status is neither 0 nor 1, or there are fewer bytes or more than the length says.
pub fn read_reply(bytes: &[u8]) -> Option<Reply<'_>>
    ensures { (status place : ℕ) (text : List ℕ)
        → IsSomeAnd result (λ reply. (reply.status ≡ status) × (reply.place ≡ place) × (reply.text.now ≡ text))
        ↔ IsReply bytes.now status place text }
{
    if bytes.len() < LENGTH_SIZE + REPLY_HEAD || announced(bytes) != bytes.len() - LENGTH_SIZE {
        return None;
    }
    let status = bytes[LENGTH_SIZE];
    if status > 1 {
        return None;
    }
    Some(Reply {
        status,
        place: place_said(bytes.split_at(LENGTH_SIZE + 1).1),
        text: bytes.split_at(LENGTH_SIZE + REPLY_HEAD).1,
    })
}
