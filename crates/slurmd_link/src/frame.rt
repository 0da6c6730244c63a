//! The frame of a report.

ghost use Rattle.std.specs.Prelude.{◌≡◌, ◌<◌, ◌^◌, length, IfOk};
ghost use Rattle.block_frame.specs.Frames.{frame_of};
ghost use Rattle.slurm_client.specs.Requests.{header_of};
ghost use Rattle.slurmd_link.specs.Reports.{report_frame, report_words};

use crate::report::report_words;
use block_frame::LENGTH_SIZE;
use line_words::words::quote_words;
use request_data::report::Report;
use small_texts::memory_error::Memory;
use small_texts::name::Name;
use std::alloc::Global;

/// The longest content that four bytes can tell of.
const LONGEST: usize = 4_294_967_295;

// The header of a report: the user, a blank, and the words as they are quoted.
fn report_header(alloc: Global, user: &Name, report: &Report) -> Result<Vec<u8>, Memory>
    ensures { IfOk result (λ header. header.items ≡ header_of user.now (report_words report.now)) }
{
    let words = report_words(alloc, report)?;
    let line = quote_words(alloc, &words)?;
    let mut header = Vec::from_slice(alloc, user.as_bytes())?;
    header.push(b' ')?;
    header.extend_from_slice(line.as_slice())?;
    Ok(header)
}

// The frame of a content: its length in four bytes, the greatest first, and the content.
fn framed(alloc: Global, content: &[u8]) -> Result<Vec<u8>, Memory>
    requires { length content.now < 2 ^ 32 }
    ensures { IfOk result (λ frame. frame.items ≡ frame_of content.now) }
{
    let mut frame = Vec::with_capacity(alloc, LENGTH_SIZE + content.len())?;
    frame.extend_from_slice(&(content.len() as u32).to_be_bytes())?;
    frame.extend_from_slice(content)?;
    Ok(frame)
}

/// The frame by which a user reports. It may be longer than a server takes; one of 2^32 bytes or more is want of memory
/// (own). Linear in the report.
pub(crate) fn report_frame(alloc: Global, user: &Name, report: &Report) -> Result<Vec<u8>, Memory>
    ensures { IfOk result (λ frame. frame.items ≡ report_frame user.now report.now) }
{
    let header = report_header(alloc, user, report)?;
    if header.len() > LONGEST {
        return Err(Memory);
    }
    framed(alloc, header.as_slice())
}
