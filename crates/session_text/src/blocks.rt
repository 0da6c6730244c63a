//! The block of a call at a moment.

ghost use Rattle.std.specs.Prelude.{◌≡◌, not, option_copied, IfOk, IfSome};
ghost use Rattle.std.specs.List.{list_all};
ghost use Rattle.block_frame.specs.Grammar.{IsPlainBlock, header_line};
ghost use Rattle.block_frame.specs.LineFeeds.{is_line_feed};
ghost use Rattle.session_text.specs.Blocks.{block_at, block_with, ended, header_of, is_plain, is_plain_line, is_plain_script, last_byte};

use block_frame::{Block, Text};
use line_words::words::{Words, quote_words};
use small_texts::memory_error::Memory;
use small_texts::name::Name;
use small_texts::pieces::{push_number, push_text};
use std::alloc::Global;

/// The most bytes of a line (own).
const LONGEST_LINE: usize = 8192;

/// The most bytes of a script (own).
const LONGEST_SCRIPT: usize = 65_536;

/// A moment, a user and words, as a header has them: the words as `quote_words` writes them.
pub fn header_of(alloc: Global, moment: u64, user: &Name, words: &Words) -> Result<Vec<u8>, Memory>
    ensures { IfOk result (λ header. header.items ≡ header_of moment user.now words.now) }
{
    let line = quote_words(alloc, words)?;
    let mut header = Vec::new(alloc);
    push_number(&mut header, moment)?;
    push_text(&mut header, b" ")?;
    push_text(&mut header, user.as_bytes())?;
    push_text(&mut header, b" ")?;
    push_text(&mut header, line.as_slice())?;
    Ok(header)
}

// A text, with an LF behind its last line where it lacks one.
fn ended(alloc: Global, text: &[u8]) -> Result<Vec<u8>, Memory>
    ensures { IfOk result (λ whole. whole.items ≡ ended text.now) }
{
    let mut whole = Vec::from_slice(alloc, text)?;
    if let Some(last) = text.last()
        && *last != b'\n'
    {
        whole.push(b'\n')?;
    }
    Ok(whole)
}

// The block of a header and a script.
fn block_with(alloc: Global, header: Vec<u8>, script: Option<&[u8]>) -> Result<Block, Memory>
    ensures { IfOk result (λ block. block ≡ block_with header.items (option_copied script.entry)) }
{
    let Some(script) = script else {
        return Ok(Block {
            header: Text::new(header),
            attachment: None,
        });
    };
    let whole = ended(alloc, script)?;
    let mut header = header;
    header.push(b' ')?;
    Ok(Block {
        header: Text::new(header),
        attachment: Some(Text::new(whole)),
    })
}

// The line of a block: its header, and a mark where it has an attachment.
fn header_line(alloc: Global, block: &Block) -> Result<Vec<u8>, Memory>
    ensures { IfOk result (λ line. line.items ≡ header_line block.now) }
{
    let mut line = Vec::from_slice(alloc, block.header.as_bytes())?;
    if block.attachment.is_some() {
        line.extend_from_slice(b"<<")?;
    }
    Ok(line)
}

fn has_no_feed(line: &[u8]) -> bool
    ensures { result ≡ list_all (λ b. not (is_line_feed b)) line.now }
{
    line.iter().all(|b| *b != b'\n')
}

fn is_plain_line(line: &[u8], has_script: bool) -> bool
    ensures { result ≡ is_plain_line line.now has_script }
{
    let is_marked = line.ends_with(b" <<");
    has_no_feed(line)
        && !line.is_empty()
        && line.len() <= LONGEST_LINE
        && (if has_script { is_marked } else { !is_marked })
}

fn ends_with_feed(script: &[u8]) -> bool
    ensures { result ≡ is_line_feed (last_byte script.now) }
{
    match script.last() {
        Some(last) => *last == b'\n',
        None => true,
    }
}

fn is_plain_script(block: &Block) -> bool
    ensures { result ≡ is_plain_script block.now.attachment }
{
    match &block.attachment {
        Some(script) => {
            let script = script.as_bytes();
            script.len() <= LONGEST_SCRIPT && ends_with_feed(script)
        }
        None => true,
    }
}

// Whether the plain form takes a block.
#[tactic(auto, unfolding(crate::specs::Blocks::is_plain))]
fn is_plain(alloc: Global, block: &Block) -> Result<bool, Memory>
    ensures { IfOk result (λ plain. plain ≡ is_plain block.now) }
{
    let line = header_line(alloc, block)?;
    Ok(is_plain_line(line.as_slice(), block.attachment.is_some()) && is_plain_script(block))
}

/// The block of a call at a moment, in seconds since 1970, in the plain form. There is none where the line would be
/// longer than 8,192 bytes or the script than 65,536.
#[tactic(auto, unfolding(crate::specs::Blocks::block_at))]
pub fn block_at(
    alloc: Global,
    moment: u64,
    user: &Name,
    words: &Words,
    script: Option<&[u8]>,
) -> Result<Option<Block>, Memory>
    ensures value { IfOk result (λ block.
        block ≡ block_at moment user.now words.now (option_copied script.entry)) }
    ensures plain { IfOk result (λ block. IfSome block IsPlainBlock) }
{
    let header = header_of(alloc, moment, user, words)?;
    let block = block_with(alloc, header, script)?;
    if is_plain(alloc, &block)? {
        Ok(Some(block))
    } else {
        Ok(None)
    }
}
