// The frames of requests, as they are written.
ghost use Rattle.std.specs.Prelude.{◌≡◌, ◌≤◌, ◌+◌, ◌++◌, ◌<◌, ◌^◌, length, IfOk, OnOk, option_copied};
ghost use Rattle.block_frame.specs.Frames.{IsFramedBlock, behind_header, content_of, request_of};
ghost use Rattle.block_frame.specs.Grammar.{spelled};
ghost use Rattle.block_frame.specs.declared.form.Form.TheVariants.{Framed};

use crate::framed::LENGTH_SIZE;
use small_texts::memory_error::Memory;
use std::alloc::{AllocError, Global};

// How many bytes the content has of a request with this header and attachment.
fn content_len(header: &[u8], attachment: Option<&[u8]>) -> usize
    requires { length (content_of (request_of header.now (option_copied attachment))) < 2 ^ 32 }
    ensures { result ≡ length (content_of (request_of header.now (option_copied attachment.entry))) }
{
    match attachment {
        None => header.len(),
        Some(bytes) => header.len() + 1 + bytes.len(),
    }
}

// Appends what stands behind a header.
fn push_behind(frame: &mut Vec<u8>, attachment: Option<&[u8]>) -> Result<(), AllocError>
    ensures { OnOk result (frame.new.items ≡ frame.old.items ++ behind_header (option_copied attachment.entry)) }
{
    if let Some(bytes) = attachment {
        frame.push(b'\n')?;
        frame.extend_from_slice(bytes)?;
    }
    Ok(())
}

/// The frame of a request: a length of four bytes, the greatest first, of what follows it; the header; and an LF and
/// the attachment, where there is one.
pub fn write_request(
    alloc: Global,
    header: &[u8],
    attachment: Option<&[u8]>,
) -> Result<Vec<u8>, Memory>
    requires { IsFramedBlock (request_of header.now (option_copied attachment)) }
    ensures { IfOk result (λ frame.
        frame.items ≡ spelled Framed (request_of header.now (option_copied attachment.entry))) }
{
    let len = content_len(header, attachment);
    let mut frame = Vec::with_capacity(alloc, LENGTH_SIZE + len)?;
    frame.extend_from_slice(&(len as u32).to_be_bytes())?;
    frame.extend_from_slice(header)?;
    push_behind(&mut frame, attachment)?;
    Ok(frame)
}
