//! What the words behind the program's name ask.

ghost use Rattle.std.specs.Prelude.{◌≡◌, map, string_bytes, option_map, IfOk, IfSome};
ghost use Rattle.program_words.specs.Asked.{controller_asked, call_asked, asked_in};
ghost use Rattle.program_words.specs.Words.{asked_of, Fits};

use crate::asked::Asked;
use crate::calling::call_in;
use crate::controller::said_in;
use crate::said::asked_by;
use small_texts::memory_error::Memory;
use std::alloc::Global;

// What words behind slurmctld(8) ask, it among them.
fn controller_asked<'a>(alloc: Global, words: &'a [String]) -> Result<Option<Asked<'a>>, Memory>
    ensures asked { IfOk result (λ asked. option_map asked_of asked ≡ controller_asked (map string_bytes words.entry.now)) }
    ensures fits { IfOk result (λ asked. IfSome asked Fits) }
{
    let Some(said) = said_in(alloc, words)? else {
        return Ok(None);
    };
    Ok(asked_by(&said))
}

// What words behind another command's name ask.
fn call_asked<'a>(
    alloc: Global,
    name: &String,
    words: &[String],
) -> Result<Option<Asked<'a>>, Memory>
    ensures asked { IfOk result (λ asked. option_map asked_of asked
        ≡ call_asked (string_bytes name.now) (map string_bytes words.now)) }
    ensures fits { IfOk result (λ asked. IfSome asked Fits) }
{
    match call_in(alloc, name, words)? {
        Some(call) => Ok(Some(Asked::Call(call))),
        None => Ok(None),
    }
}

/// What the words behind the program's name ask; None where they are off (own). Those of slurmctld(8) are read by clap;
/// behind another command the second word names the server, and all others are the request's.
#[tactic(auto, unfolding(crate::specs::Asked::asked_in))]
pub fn asked_in<'a>(alloc: Global, words: &'a [String]) -> Result<Option<Asked<'a>>, Memory>
    ensures asked { IfOk result (λ asked. option_map asked_of asked ≡ asked_in (map string_bytes words.entry.now)) }

    // A server has from 1 to 64 workers, and one takes the request of a call, as far as it goes without a script.
    ensures fits { IfOk result (λ asked. IfSome asked Fits) }
{
    let Some((name, behind)) = words.split_first() else {
        return Ok(None);
    };
    if name.as_str() == "slurmctld" {
        controller_asked(alloc, words)
    } else {
        call_asked(alloc, name, behind)
    }
}
