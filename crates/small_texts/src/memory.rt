//! Amounts of memory: "--mem" of sbatch(1).

ghost use Rattle.std.specs.Prelude.{◌≡◌, ◌<◌, ◌≤◌, ◌^◌, IfSome, IfOk};
ghost use Rattle.std.specs.Result.{result_ok};
ghost use Rattle.small_texts.specs.Memory.{in_megabytes, megabytes_of};

use crate::digits::{parse_number, split_digits};
use std::error::Error;
use std::fmt;

/// The text is no amount of memory.
#[derive(Clone, Copy, PartialEq, Eq, Debug)]
pub struct BadMem;

impl fmt::Display for BadMem {
    ghost use Rattle.std.specs.Prelude.{Some, codes};

    ghost output = { λ _. Some (codes "bad amount of memory") };

    fn fmt<W: fmt::Write>(&self, f: &mut fmt::Formatter<W>) -> fmt::Result {
        f.write_str("bad amount of memory")
    }
}

impl Error for BadMem {}

const GREATEST: u64 = 16_777_216;

/// The megabytes of a text such as `4000`, `4g` or `512K`, at most 16,777,216: one to twelve digits, and maybe a
/// unit in either case of its letter, else megabytes. Kilobytes round up. 0 stands for all memory of each node.
#[tactic(auto, unfolding(crate::specs::Memory::megabytes_of))]
pub fn parse_mem(text: &[u8]) -> Result<u64, BadMem>
    ensures value { result_ok result ≡ megabytes_of text.now }
    ensures bound { IfOk result (λ megabytes. megabytes ≤ 16_777_216) }
{
    let (digits, unit) = split_digits(text);
    let number = parse_number(digits, 12, 999_999_999_999).ok_or(BadMem)?;
    let megabytes = in_megabytes(number, unit).ok_or(BadMem)?;
    if megabytes <= GREATEST {
        Ok(megabytes)
    } else {
        Err(BadMem)
    }
}

// So many units in megabytes.
#[tactic(auto, unfolding(crate::specs::Memory::in_megabytes))]
fn in_megabytes(number: u64, unit: &[u8]) -> Option<u64>
    requires { number < 2 ^ 40 }
    ensures { result ≡ in_megabytes number unit.now }
{
    match unit {
        [] | [b'M' | b'm'] => Some(number),
        [b'K' | b'k'] => Some(number.div_ceil(1024)),
        [b'G' | b'g'] => Some(number * 1024),
        [b'T' | b't'] => Some(number * 1_048_576),
        _ => None,
    }
}
