// Replies to framed requests.

use slurm_net::{MemDoor, MemHost};
use std::alloc::{AllocError, Global};

/// What a frame has in front of its text: a status and a place.
const BEFORE_TEXT: usize = 9;

/// A reply without its place: who asks beside makes entries too. Bytes that are no frame have the status 255.
#[derive(PartialEq, Eq, PartialOrd, Ord, Drop)]
pub struct Reply {
    pub status: u8,
    pub text: Vec<u8>,
}

// The content of the frame with which these bytes begin, and what is behind it.
fn split_frame(bytes: &[u8]) -> Option<(&[u8], &[u8])> {
    let (length, rest) = bytes.split_first_chunk::<4>()?;
    rest.split_at_checked(u32::from_be_bytes(*length) as usize)
}

// The reply of a frame's content.
fn reply_of(alloc: Global, content: &[u8]) -> Result<Reply, AllocError> {
    let status = content.first().copied().unwrap_or(255);
    let text = Vec::from_slice(alloc, content.get(BEFORE_TEXT..).unwrap_or(b""))?;
    Ok(Reply { status, text })
}

/// The replies that a connection had.
pub fn replies_in(alloc: Global, taken: &[u8]) -> Result<Vec<Reply>, AllocError> {
    let mut replies = Vec::new(alloc);
    let mut rest = taken;
    for _ in 0..taken.len() {
        let Some((content, later)) = split_frame(rest) else {
            break;
        };
        replies.push(reply_of(alloc, content)?)?;
        rest = later;
    }
    if !rest.is_empty() {
        let text = Vec::from_slice(alloc, rest)?;
        replies.push(Reply { status: 255, text })?;
    }
    Ok(replies)
}

// Puts the replies of a door's connections behind others.
fn push_replies(alloc: Global, replies: &mut Vec<Reply>, door: &MemDoor) -> Result<(), AllocError> {
    for session in door.sessions() {
        for reply in replies_in(alloc, session.link.taken())? {
            replies.push(reply)?;
        }
    }
    Ok(())
}

/// The replies of all doors, in the order of their bytes.
pub fn all_replies(alloc: Global, host: &MemHost) -> Result<Vec<Reply>, AllocError> {
    let mut replies = Vec::new(alloc);
    for door in host.closed() {
        push_replies(alloc, &mut replies, door)?;
    }
    replies.sort_unstable();
    Ok(replies)
}
