//! The frame of a request, as it is made and sent.

ghost use Rattle.std.specs.Prelude.{◌≡◌, ◌↔◌, IsTrue, IfOk, OnOk, OnErr, option_copied};
ghost use Rattle.std.specs.Io.KnownBytes.{Appends};
ghost use Rattle.slurm_io.specs.Bytes.{AppendsFront};
ghost use Rattle.slurm_io.specs.Faults.{CountsFault};
ghost use Rattle.block_frame.specs.Grammar.{IsBlock, spelled};
ghost use Rattle.block_frame.specs.declared.form.Form.TheVariants.{Framed};
ghost use Rattle.slurm_client.specs.Requests.{FitsRequest, HasOneLine, ReadsStay, header_of, request};

use block_frame::write_request;
use line_words::words::{Words, quote_words};
use slurm_io::{Failed, Link, write_all};
use small_texts::memory_error::Memory;
use small_texts::name::Name;
use std::alloc::Global;

const LONGEST_HEADER: usize = 8192;

const LONGEST_SCRIPT: usize = 65_536;

// The header of a request: the user, a blank, and the words as they are quoted.
fn write_header(alloc: Global, user: &Name, words: &Words) -> Result<Vec<u8>, Memory>
    ensures value { IfOk result (λ header. header.items ≡ header_of user.now words.now) }
    ensures one_line { OnOk result (HasOneLine (header_of user.now words.now)) }
{
    let line = quote_words(alloc, words)?;
    let mut header = Vec::from_slice(alloc, user.as_bytes())?;
    header.push(b' ')?;
    header.extend_from_slice(line.as_slice())?;
    Ok(header)
}

/// Whether a request is short enough: its header has at most 8,192 bytes, and its script or
/// configuration 65,536 (own).
pub fn fits_request(
    alloc: Global,
    user: &Name,
    words: &Words,
    script: Option<&[u8]>,
) -> Result<bool, Memory>
    ensures { IfOk result (λ fits.
        IsTrue fits ↔ FitsRequest user.now words.now (option_copied script.entry)) }
{
    let header = write_header(alloc, user, words)?;
    let script_fits = match script {
        None => true,
        Some(bytes) => bytes.len() <= LONGEST_SCRIPT,
    };
    Ok(header.len() <= LONGEST_HEADER && script_fits)
}

/// The frame of a request: its header, which is the user, a blank, and the words as `quote_words` writes them, and
/// behind an LF the script, where there is one. A server reads it as this one block.
pub fn request_frame(
    alloc: Global,
    user: &Name,
    words: &Words,
    script: Option<&[u8]>,
) -> Result<Vec<u8>, Memory>
    requires { FitsRequest user.now words.now (option_copied script) }
    ensures frame { IfOk result (λ frame.
        frame.items ≡ spelled Framed (request user.now words.now (option_copied script.entry))) }
    ensures block { OnOk result (IsBlock Framed (request user.now words.now (option_copied script.entry))) }
{
    let header = write_header(alloc, user, words)?;
    write_request(alloc, header.as_slice(), script)
}

/// Writes all of a frame on a link.
pub fn send<L: Link>(link: &mut L, frame: &[u8]) -> Result<(), Failed>
    ensures written { OnOk result (Appends (L.wire link.old).taken (L.wire link.new).taken frame.now) }
    ensures cut { OnErr result (AppendsFront (L.wire link.old).taken (L.wire link.new).taken frame.now) }
    ensures faults { CountsFault (L.wire link.old).writes (L.wire link.new).writes result }
    ensures reads { ReadsStay (L.wire link.old) (L.wire link.new) }
{
    write_all(link, frame)
}
