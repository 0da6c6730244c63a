//! The scripts that calls name.

ghost use Rattle.std.specs.Prelude.{◌≡◌, IsTrue, IfOk, IfSome, OnErr, option_copied, option_map, slice_get, ◌-◌};
ghost use Rattle.std.specs.List.{list_all};
ghost use Rattle.line_words.specs.Words.{is_word_byte};
ghost use Rattle.session_text.specs.Scripts.{IsRead, script_name};

use crate::{Call, Script};
use line_words::words::Words;
use slurm_io::{Shelf, ShelfRefusal, read_file};
use small_texts::memory_error::Memory;
use std::alloc::Global;
use std::str;

/// The most bytes of a script that are read, but for one that tells a longer file.
const LONGEST_SCRIPT: u64 = 65_536;

// The word of a number, counted from 1.
fn word_numbered(words: &Words, number: u32) -> Option<&[u8]>
    ensures value { option_copied result ≡ slice_get words.now (number - 1) }
    ensures good { IfSome result (λ word. IsTrue (list_all is_word_byte word.now)) }
{
    let _all = words.len();
    words.get((number as usize).saturating_sub(1))
}

// A word as text: each byte of it is a character.
fn text_of(word: &[u8]) -> &str
    requires { IsTrue (list_all is_word_byte word.now) }
    ensures { result.now ≡ word.now }
{
    match str::from_utf8(word) {
        Ok(text) => text,
        Err(_) => unreachable!(),
    }
}

// The name of the file that a call's script is in.
fn script_name(call: &Call) -> Option<&str>
    ensures { option_map (λ name. name.now) result ≡ script_name call.now }
{
    match call.script {
        Script::Named(number) => match word_numbered(&call.words, number) {
            Some(word) => Some(text_of(word)),
            None => None,
        },
        Script::Absent | Script::Given(_) => None,
    }
}

/// Reads the file that a call's script is in, where it names one: all of it, or the first 65,537 bytes of a longer one.
/// None is that it names none, or that the file can't be read, which the shelf counts.
pub fn read_script<Q: Shelf>(
    alloc: Global,
    shelf: &mut Q,
    call: &Call,
) -> Result<Option<Vec<u8>>, Memory>
    ensures read { IfOk result (λ file. IsRead (Q.files shelf.old) (Q.shelf_faults shelf.old) (Q.shelf_faults shelf.new)
        (script_name call.now) (option_map (λ text. text.items) file)) }
    ensures err { OnErr result (Q.shelf_faults shelf.new ≡ Q.shelf_faults shelf.old) }
    ensures kept { Q.files shelf.new ≡ Q.files shelf.old }
{
    let Some(name) = script_name(call) else {
        return Ok(None);
    };
    match read_file(alloc, shelf, name, LONGEST_SCRIPT) {
        Ok(text) => Ok(Some(text)),
        Err(ShelfRefusal::Failed) => Ok(None),
        Err(ShelfRefusal::Memory) => Err(Memory),
    }
}
