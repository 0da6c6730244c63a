// How a frame is looked at: its length first, and its content once all of it is there.
ghost use Rattle.std.specs.Prelude.{◌≡◌, ◌<◌, ◌≤◌, ◌+◌, ◌^◌, length, slice_index, IfOk};
ghost use Rattle.block_frame.specs.Frames.{announced, behind_line, framed_block};
ghost use Rattle.block_frame.specs.Looking.{IsFrameSight};

use crate::lines::line_len;
use crate::{Block, Text};
use small_texts::memory_error::Memory;
use std::alloc::Global;

/// How many bytes the length of a frame has.
pub const LENGTH_SIZE: usize = 4;

/// How many bytes a frame has behind its length, at the most (own).
pub const MAX_CONTENT: usize = 131072;

/// What a text begins with in the framed form.
#[derive(Clone, Copy)]
pub enum FrameSight {
    NotYet,
    Bad,
    /// A frame with so many bytes behind its length.
    Whole(usize),
}

/// The byte at a place, and 0 where none is.
pub fn byte_at(text: &[u8], place: usize) -> u8
    ensures { result ≡ slice_index text.now place }
{
    text.get(place).copied().unwrap_or(0)
}

/// The length that a text begins with. Bytes that aren't there count as 0: it is the least that the text can go on to.
#[tactic(auto, unfolding(crate::specs::Frames::announced))]
pub fn announced(text: &[u8]) -> usize
    ensures value { result ≡ announced text.now }
    ensures bound { result < 2 ^ 32 }
{
    let bytes = [
        byte_at(text, 0),
        byte_at(text, 1),
        byte_at(text, 2),
        byte_at(text, 3),
    ];
    u32::from_be_bytes(bytes) as usize
}

/// What a text begins with in the framed form. Of its bytes the length alone is looked at.
pub fn look_at_frame(text: &[u8]) -> FrameSight
    ensures { IsFrameSight text.now result }
{
    let len = announced(text);
    if len > MAX_CONTENT {
        return FrameSight::Bad;
    }
    if text.len() < LENGTH_SIZE {
        return FrameSight::NotYet;
    }
    if len == 0 {
        return FrameSight::Bad;
    }
    if text.len() < LENGTH_SIZE + len {
        return FrameSight::NotYet;
    }
    FrameSight::Whole(len)
}

// What follows a content's first line of this length, where an LF ends it.
fn behind_line(alloc: Global, content: &[u8], line: usize) -> Result<Option<Text>, Memory>
    ensures { IfOk result (λ attachment. attachment ≡ behind_line content.now line) }
{
    if line >= content.len() {
        return Ok(None);
    }
    let attachment = Vec::from_slice(alloc, content.split_at(line + 1).1)?;
    Ok(Some(Text::new(attachment)))
}

/// The block of so many bytes behind the length.
pub fn framed_block(alloc: Global, text: &[u8], len: usize) -> Result<Block, Memory>
    requires { LENGTH_SIZE + len ≤ length text.now }
    ensures { IfOk result (λ block. block ≡ framed_block text.now len) }
{
    let content = text.split_at(LENGTH_SIZE).1.split_at(len).0;
    let line = line_len(content, 0);
    let header = Vec::from_slice(alloc, content.split_at(line).0)?;
    let attachment = behind_line(alloc, content, line)?;
    Ok(Block {
        header: Text::new(header),
        attachment,
    })
}
