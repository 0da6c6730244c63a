// The parts of a block, taken out of a text.
ghost use Rattle.std.specs.Prelude.{◌≡◌, ◌≤◌, ◌+◌, length, true, IfOk};
ghost use Rattle.block_frame.specs.Looking.{attached_block, line_block, undotted};

use crate::{Block, Text};
use small_texts::memory_error::Memory;
use std::alloc::{AllocError, Global};

// The lines of an attachment, without the dots that its spelling added.
fn undotted(alloc: Global, lines: &[u8]) -> Result<Vec<u8>, AllocError>
    ensures { IfOk result (λ bytes. bytes.items ≡ undotted true lines.now) }
{
    let mut bytes = Vec::with_capacity(alloc, lines.len())?;
    let mut begins = true;
    for &byte in lines {
        if !(begins && byte == b'.') {
            bytes.push(byte)?;
        }
        begins = byte == b'\n';
    }
    Ok(bytes)
}

/// The block of a header line of this length.
pub fn line_block(alloc: Global, text: &[u8], line: usize) -> Result<Block, Memory>
    requires { line ≤ length text.now }
    ensures { IfOk result (λ block. block ≡ line_block text.now line) }
{
    let header = Vec::from_slice(alloc, text.split_at(line).0)?;
    Ok(Block {
        header: Text::new(header),
        attachment: None,
    })
}

/// The block of a marked header line of this length, and an attachment whose last line begins at `end`.
pub fn attached_block(alloc: Global, text: &[u8], line: usize, end: usize) -> Result<Block, Memory>
    requires marked { 2 ≤ line }
    requires in_order { line + 1 ≤ end }
    requires within { end ≤ length text.now }
    ensures { IfOk result (λ block. block ≡ attached_block text.now line end) }
{
    let header = Vec::from_slice(alloc, text.split_at(line - 2).0)?;
    let attachment = undotted(alloc, &text[line + 1..end])?;
    Ok(Block {
        header: Text::new(header),
        attachment: Some(Text::new(attachment)),
    })
}
