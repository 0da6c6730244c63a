//! The words of commands that call a server.

ghost use Rattle.std.specs.Prelude.{◌≡◌, ◌∷◌, None, map, string_bytes, option_map, IsTrue, IfOk, IfSome};
ghost use Rattle.small_texts.specs.Name.{is_name};
ghost use Rattle.line_words.specs.Words.{first_bad_word};
ghost use Rattle.slurm_client.specs.Requests.{FitsRequest};
ghost use Rattle.program_words.specs.Asked.{calling, call_in, call_by};
ghost use Rattle.program_words.specs.Server.{server_in};
ghost use Rattle.program_words.specs.Calling.{address_of, AreWords};
ghost use Rattle.command_words.specs.Command.{command_named};

use crate::Call;
use command_words::command::{Command, command_named};
use line_words::words::{Words, WordsRefusal, words_of};
use slurm_client::{fits_request, read_address};
use small_texts::memory_error::Memory;
use small_texts::name::{Name, NameRefusal};
use std::alloc::{AllocError, Global};

/// A header has fewer words than this.
const MOST_WORDS: usize = 8192;

// The command of this name that calls a server.
fn calling(name: &[u8]) -> Option<Command>
    ensures { result ≡ calling (command_named name.now) }
{
    match command_named(name) {
        Some(Command::Report | Command::Pass) => None,
        command => command,
    }
}

// The user and the port that a word names.
fn server_in(word: &[u8]) -> Option<(&[u8], u16)>
    ensures value { option_map address_of result ≡ server_in word.now }
    ensures named { IfSome result (λ address. IsTrue (is_name address.0.now)) }
{
    read_address(word)
}

// The command's name, and the words behind that of the server.
fn joined(alloc: Global, name: &String, words: &[String]) -> Result<Vec<String>, AllocError>
    ensures { IfOk result (λ list. map string_bytes list.items ≡ string_bytes name.now ∷ map string_bytes words.now) }
{
    let mut list = Vec::new(alloc);
    list.push(name.clone()?)?;
    for word in words {
        list.push(word.clone()?)?;
    }
    Ok(list)
}

// The words of a request; None where one has a byte that no word may have, or there are more than a header has.
fn request_words(alloc: Global, name: &String, words: &[String]) -> Result<Option<Words>, Memory>
    ensures { IfOk result (AreWords (string_bytes name.now ∷ map string_bytes words.now)) }
{
    if words.len() >= MOST_WORDS {
        return Ok(None);
    }
    let list = joined(alloc, name, words)?;
    match words_of(alloc, list.as_slice()) {
        Ok(words) => Ok(Some(words)),
        Err(WordsRefusal::Memory) => Err(Memory),
        Err(WordsRefusal::BadWord { place: _place }) => Ok(None),
        Err(WordsRefusal::BadWords { place: _place }) => unreachable!(),
    }
}

// The call, where its request is short enough.
fn call_by(
    alloc: Global,
    command: Command,
    user: Name,
    port: u16,
    words: Words,
) -> Result<Option<Call>, Memory>
    requires { first_bad_word words ≡ None }
    ensures call { IfOk result (λ call. call ≡ call_by command user port words) }
    ensures fits { IfOk result (λ call. IfSome call (λ call. FitsRequest call.user call.words None)) }
{
    if fits_request(alloc, &user, &words, None)? {
        Ok(Some(Call {
            command,
            user,
            port,
            words,
        }))
    } else {
        Ok(None)
    }
}

// A name that is one.
fn read_user(alloc: Global, user: &[u8]) -> Result<Name, Memory>
    requires { IsTrue (is_name user.now) }
    ensures { IfOk result (λ name. name ≡ user.now) }
{
    match Name::read(alloc, user) {
        Ok(name) => Ok(name),
        Err(NameRefusal::Memory) => Err(Memory),
        Err(NameRefusal::BadName) => unreachable!(),
    }
}

/// The call that words ask behind a command's name: the first names the server, `--ctld=USER@PORT`, and the others are
/// the request's behind that name. None where they are off.
#[tactic(auto, unfolding(crate::specs::Asked::call_in))]
pub(crate) fn call_in(
    alloc: Global,
    name: &String,
    words: &[String],
) -> Result<Option<Call>, Memory>
    ensures call { IfOk result (λ call. call ≡ call_in (string_bytes name.now) (map string_bytes words.now)) }
    ensures fits { IfOk result (λ call. IfSome call (λ call. FitsRequest call.user call.words None)) }
{
    let Some((server, rest)) = words.split_first() else {
        return Ok(None);
    };
    let Some(command) = calling(name.as_bytes()) else {
        return Ok(None);
    };
    let Some((user, port)) = server_in(server.as_bytes()) else {
        return Ok(None);
    };
    let Some(request) = request_words(alloc, name, rest)? else {
        return Ok(None);
    };
    let user = read_user(alloc, user)?;
    call_by(alloc, command, user, port, request)
}
