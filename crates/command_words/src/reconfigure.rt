//! The words of `scontrol reconfigure` and its configuration.

ghost use Rattle.std.specs.Prelude.{◌≡◌, ◌^◌, ◌<◌, Ok, IfOk, length};
ghost use Rattle.command_words.specs.Reconfigure.{by_words, is_reconfigure, reconfiguring, reconfigure_by};

use crate::fault::WordFault;
use conf_reader::read_conf;
use line_words::words::Words;
use operands::bad_word::BadWord;
use operands::operand::closed_at;
use plain_data::conf::Conf;
use request_data::boxed::Boxed;
use request_data::request::Request;
use small_texts::memory_error::Memory;
use std::alloc::Global;
use text_values::conf_refusal::ConfRefusal;

/// Whether the second word is `reconfigure`.
pub fn is_reconfigure(words: &Words) -> bool
    ensures { result ≡ is_reconfigure words.now }
{
    match words.get(1) {
        Some(word) => word == b"reconfigure".as_slice(),
        None => false,
    }
}

/// What the words alone want, or the first that is bad.
pub(crate) fn by_words(asked: Result<Request, BadWord>) -> Result<Request, WordFault>
    ensures { result ≡ by_words asked }
{
    match asked {
        Ok(request) => Ok(request),
        Err(BadWord { word, kind }) => Err(WordFault::Word { word, kind }),
    }
}

// How long a text is.
fn bytes_of(text: &[u8]) -> u32
    requires { length text.now < 2 ^ 32 }
    ensures { result ≡ length text.now }
{
    text.len() as u32
}

fn with_conf(
    alloc: Global,
    words: &Words,
    bytes: u32,
    conf: Conf,
) -> Result<Result<Request, WordFault>, Memory>
    ensures { IfOk result (λ asked. asked ≡ reconfiguring words.now bytes (Ok conf)) }
{
    let conf = Boxed::new(alloc, conf)?;
    Ok(by_words(closed_at(words, 2, Request::Reconfigure { conf, bytes })))
}

/// What these words, of which the second is `reconfigure`, want with the text of a configuration. Its cost is that of
/// `read_conf`.
#[tactic(auto, unfolding(crate::specs::Reconfigure::reconfigure_by), using(crate::proofs::ConfLengths::conf_is_short))]
pub(crate) fn read_reconfigure(
    alloc: Global,
    words: &Words,
    text: &[u8],
) -> Result<Result<Request, WordFault>, Memory>
    ensures { IfOk result (λ asked. asked ≡ reconfigure_by words.now text.now) }
{
    match read_conf(alloc, text) {
        Ok(conf) => with_conf(alloc, words, bytes_of(text), conf),
        Err(ConfRefusal::At { line, kind }) => Ok(Err(WordFault::Conf { line, kind })),
        Err(ConfRefusal::Memory) => Err(Memory),
    }
}
