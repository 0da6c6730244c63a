//! The words of slurmd.

ghost use Rattle.std.specs.Prelude.{◌≡◌, ◌≤◌, ℕ, List, Some, drop, find, map, nat_eq, string_bytes, codes, option_copied, IfOk, IfSome};
ghost use Rattle.std.specs.List.{starts_with};
ghost use Rattle.slurmd_link.specs.Asked.{IsAsked, IsServer, node_in, number_in, value_of, word_of};
ghost use Rattle.slurmd_link.specs.declared.words.SlurmdWords.{SlurmdWords};

use slurm_client::read_address;
use small_texts::digits::parse_number;
use small_texts::memory_error::Memory;
use small_texts::name::{Name, NameRefusal};
use std::alloc::Global;

/// The most turns that words may ask for (own).
const MOST_TURNS: u64 = 1_048_576;

/// What the words of slurmd ask: which node's daemon it is and in which of its lives, as whom it reports and at which
/// port, and how many turns it makes (own).
#[derive(Drop)]
pub struct SlurmdWords {
    pub node: Name,
    pub boot: u64,
    pub user: Name,
    pub port: u16,
    pub turns: u32,
}

// The first word that begins with a label.
fn labelled<'a>(words: &'a [String], label: &[u8]) -> Option<&'a String>
    ensures { option_copied result ≡ find (λ word. starts_with nat_eq (string_bytes word) label.now) words.now }
{
    words.iter().find(|word| word.as_bytes().starts_with(label))
}

// The same, as its bytes.
fn word_of<'a>(words: &'a [String], label: &[u8]) -> Option<&'a [u8]>
    ensures { option_copied result ≡ word_of label.now (map string_bytes words.now) }
{
    match labelled(words, label) {
        Some(word) => Some(word.as_bytes()),
        None => None,
    }
}

// What follows so many bytes.
fn behind(word: &[u8], count: usize) -> &[u8]
    ensures { result.now ≡ drop count word.now }
{
    if count < word.len() {
        word.split_at(count).1
    } else {
        b""
    }
}

// What stands behind the label of that word.
fn value_of<'a>(words: &'a [String], label: &[u8]) -> Option<&'a [u8]>
    ensures { option_copied result ≡ value_of label.now (map string_bytes words.now) }
{
    match word_of(words, label) {
        Some(word) => Some(behind(word, label.len())),
        None => None,
    }
}

// The number above 0 behind a label, of so many digits at the most.
fn number_in(words: &[String], label: &[u8], most: usize, greatest: u64) -> Option<u64>
    ensures value { result ≡ number_in label.now most greatest (map string_bytes words.now) }
    ensures bound { IfSome result (λ number. number ≤ greatest) }
{
    let Some(digits) = value_of(words, label) else {
        return None;
    };
    let Some(number) = parse_number(digits, most, greatest) else {
        return None;
    };
    if number == 0 { None } else { Some(number) }
}

// The node's name.
fn read_node(alloc: Global, words: &[String]) -> Result<Option<Name>, Memory>
    ensures { IfOk result (λ node. node ≡ node_in (map string_bytes words.now)) }
{
    let Some(text) = value_of(words, b"--node=") else {
        return Ok(None);
    };
    match Name::read(alloc, text) {
        Ok(name) => Ok(Some(name)),
        Err(NameRefusal::Memory) => Err(Memory),
        Err(NameRefusal::BadName) => Ok(None),
    }
}

// The user and the port of the server.
fn read_server(alloc: Global, words: &[String]) -> Result<Option<(Name, u16)>, Memory>
    ensures some { IfOk result (λ read. IfSome read (λ server.
        IsServer (map string_bytes words.now) server.0 server.1)) }
    ensures only { (user : List ℕ) (port : ℕ) → IsServer (map string_bytes words.now) user port
        → IfOk result (λ read. read ≡ Some (user, port)) }
{
    let Some(word) = word_of(words, b"--ctld=") else {
        return Ok(None);
    };
    let Some((user, port)) = read_address(word) else {
        return Ok(None);
    };
    match Name::read(alloc, user) {
        Ok(name) => Ok(Some((name, port))),
        Err(NameRefusal::Memory) => Err(Memory),
        Err(NameRefusal::BadName) => Ok(None),
    }
}

/// What words ask, if they are `--node=NAME`, `--boot=B`, `--ctld=USER@PORT` and `--turns=N`, each once and in any order
/// (own).
pub(crate) fn read_words(alloc: Global, words: &[String]) -> Result<Option<SlurmdWords>, Memory>
    ensures some { IfOk result (λ read. IfSome read (λ asked. IsAsked (map string_bytes words.now) asked)) }
    ensures only { (asked : SlurmdWords) → IsAsked (map string_bytes words.now) asked
        → IfOk result (λ read. read ≡ Some asked) }
{
    if words.len() != 4 {
        return Ok(None);
    }
    let Some(boot) = number_in(words, b"--boot=", 20, u64::MAX) else {
        return Ok(None);
    };
    let Some(turns) = number_in(words, b"--turns=", 10, MOST_TURNS) else {
        return Ok(None);
    };
    let Some((user, port)) = read_server(alloc, words)? else {
        return Ok(None);
    };
    let Some(node) = read_node(alloc, words)? else {
        return Ok(None);
    };
    Ok(Some(SlurmdWords {
        node,
        boot,
        user,
        port,
        turns: turns as u32,
    }))
}
