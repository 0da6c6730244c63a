//! The header of a framed block, with its attachment. It names no moment.

ghost use Rattle.std.specs.Prelude.{◌≡◌, ◌<◌, ◌^◌, false, nat_lt, length, option_copied, IfOk};
ghost use Rattle.std.specs.Option.{option_map_or};
ghost use Rattle.command_words.specs.FramedHeader.{asked_at, called_by, caller_in, framed_head_in, head_said};

use crate::header::{Head, Meaning, read_asked};
use line_words::words::{Words, WordsRefusal, split_words};
use operands::names::read_name;
use small_texts::memory_error::Memory;
use small_texts::name::Name;
use std::alloc::Global;

/// How many bytes a header has at the most. The frame may have more (own).
pub const MAX_HEADER: usize = 8192;

/// How many bytes an attachment has at the most. The frame may have more (own).
pub const MAX_ATTACHMENT: usize = 65536;

/// Who asks, and by which words: a command's name, and what stands behind it.
#[derive(Drop)]
pub struct Caller {
    pub user: Name,
    pub words: Words,
}

/// What the header of a framed block says.
#[derive(Drop)]
pub enum FramedHead {
    Calls(Caller),
    /// The header is no list of words: it has a bad byte at this place, counted in bytes from 0, or a quote or
    /// backslash there that stays open.
    BadWords { place: u32 },
    /// The words don't begin with a user and a command, or the header or the attachment is too long.
    BadHeader,
}

fn is_long(attachment: Option<&[u8]>) -> bool
    ensures { result ≡ option_map_or (λ bytes. nat_lt 65536 (length bytes)) (option_copied attachment.entry) false }
{
    match attachment {
        Some(bytes) => bytes.len() > MAX_ATTACHMENT,
        None => false,
    }
}

// The user, where a command's word follows.
#[tactic(auto, unfolding(crate::specs::FramedHeader::caller_in))]
fn read_caller(alloc: Global, words: Words) -> Result<Option<Caller>, Memory>
    ensures { IfOk result (λ caller. caller ≡ caller_in words) }
{
    let (Some(user), Some(_)) = (words.get(0), words.get(1)) else {
        return Ok(None);
    };
    let Some(user) = read_name(alloc, user)? else {
        return Ok(None);
    };
    let mut words = words;
    words.drop_first(1);
    Ok(Some(Caller { user, words }))
}

fn read_words(alloc: Global, words: Words) -> Result<FramedHead, Memory>
    ensures { IfOk result (λ head. head ≡ called_by (caller_in words)) }
{
    match read_caller(alloc, words)? {
        Some(caller) => Ok(FramedHead::Calls(caller)),
        None => Ok(FramedHead::BadHeader),
    }
}

#[tactic(auto, unfolding(crate::specs::FramedHeader::head_said))]
fn read_said(alloc: Global, header: &[u8]) -> Result<FramedHead, Memory>
    requires { length header.now < 2 ^ 32 }
    ensures { IfOk result (λ head. head ≡ head_said header.now) }
{
    match split_words(alloc, header) {
        Ok(words) => read_words(alloc, words),
        Err(WordsRefusal::BadWords { place }) => Ok(FramedHead::BadWords { place }),
        Err(WordsRefusal::BadWord { place: _ } | WordsRefusal::Memory) => Err(Memory),
    }
}

/// Reads the header of a framed block that has this attachment. Linear in the header.
#[tactic(auto, unfolding(crate::specs::FramedHeader::framed_head_in))]
pub fn read_framed_head(
    alloc: Global,
    header: &[u8],
    attachment: Option<&[u8]>,
) -> Result<FramedHead, Memory>
    ensures { IfOk result (λ head. head ≡ framed_head_in header.now (option_copied attachment.entry)) }
{
    if header.len() > MAX_HEADER || is_long(attachment) {
        return Ok(FramedHead::BadHeader);
    }
    read_said(alloc, header)
}

/// What a caller asks at a moment, by its words and the attachment. Its cost is that of `read_header`.
pub fn read_called(
    alloc: Global,
    caller: Caller,
    moment: u64,
    attachment: Option<&[u8]>,
) -> Result<Meaning, Memory>
    ensures { IfOk result (λ meaning. meaning ≡ asked_at caller moment (option_copied attachment.entry)) }
{
    let Caller { user, words } = caller;
    read_asked(alloc, Head { moment, user }, &words, attachment)
}
