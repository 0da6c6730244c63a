// The frames of replies.

use block_frame::{read_reply, write_block};
use std::alloc::Global;
use table_lines::answer::{Unanswered, push};
use table_lines::fields::number;

/// The frame of a reply of a status, a place and a text.
pub fn written(alloc: Global, arguments: &[&[u8]]) -> Result<Vec<u8>, Unanswered> {
    let [status, place, text] = *arguments else {
        return Err(Unanswered::Arguments);
    };
    let status = number(status)?.min(255) as u8;
    Ok(write_block(alloc, status, number(place)?, text)?)
}

/// The status, the place and the text, in brackets, of a frame.
pub fn said(alloc: Global, arguments: &[&[u8]]) -> Result<Vec<u8>, Unanswered> {
    let [bytes] = *arguments else {
        return Err(Unanswered::Arguments);
    };
    let mut out = Vec::new(alloc);
    let Some(reply) = read_reply(bytes) else {
        out.extend_from_slice(b"no reply")?;
        return Ok(out);
    };
    push(&mut out, &reply.status)?;
    out.push(b' ')?;
    push(&mut out, &reply.place)?;
    out.extend_from_slice(b" [")?;
    out.extend_from_slice(reply.text)?;
    out.push(b']')?;
    Ok(out)
}
