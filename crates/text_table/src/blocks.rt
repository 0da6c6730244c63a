// The blocks of a text, fed in pieces.

use block_frame::{Block, Blocks, Form, Next};
use std::alloc::Global;
use table_lines::answer::{Unanswered, push};
use table_lines::fields::number;

// Puts a block's attachment behind the answer, in braces.
fn put_attachment(block: &Block, out: &mut Vec<u8>) -> Result<(), Unanswered> {
    if let Some(attachment) = &block.attachment {
        out.push(b'{')?;
        out.extend_from_slice(attachment.as_bytes())?;
        out.push(b'}')?;
    }
    Ok(())
}

// Puts the blocks that are whole behind the answer, each header in brackets and each attachment in braces. Where a block
// is bad, its place.
fn take_blocks(
    blocks: &mut Blocks,
    out: &mut Vec<u8>,
    most: usize,
) -> Result<Option<u64>, Unanswered> {
    for _ in 0..most {
        match blocks.next_block()? {
            Next::NotYet => return Ok(None),
            Next::Bad { place } => return Ok(Some(place)),
            Next::Whole(block) => {
                out.push(b'[')?;
                out.extend_from_slice(block.header.as_bytes())?;
                out.push(b']')?;
                put_attachment(&block, out)?;
            }
        }
    }
    Ok(None)
}

/// The blocks of a text in the plain form, and up to which byte they go, or at which one a bad block begins.
pub fn cut(alloc: Global, arguments: &[&[u8]]) -> Result<Vec<u8>, Unanswered> {
    cut_in(alloc, Form::Plain, arguments)
}

/// The same in the framed form.
pub fn frames(alloc: Global, arguments: &[&[u8]]) -> Result<Vec<u8>, Unanswered> {
    cut_in(alloc, Form::Framed, arguments)
}

fn cut_in(alloc: Global, form: Form, arguments: &[&[u8]]) -> Result<Vec<u8>, Unanswered> {
    let [piece, text] = *arguments else {
        return Err(Unanswered::Arguments);
    };
    let piece = number(piece)?.max(1) as usize;
    let mut out = Vec::new(alloc);
    let mut blocks = Blocks::new(alloc, form)?;
    for bytes in text.chunks(piece) {
        blocks.feed(bytes)?;
        if let Some(place) = take_blocks(&mut blocks, &mut out, text.len())? {
            push(&mut out, &" bad at ")?;
            push(&mut out, &place)?;
            return Ok(out);
        }
    }
    push(&mut out, &" up to ")?;
    push(&mut out, &blocks.place())?;
    if !blocks.is_empty() {
        push(&mut out, &" and more")?;
    }
    Ok(out)
}
