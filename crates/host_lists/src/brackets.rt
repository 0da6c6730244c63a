//! Brackets of host expressions: numbers and ranges of numbers.

ghost use Rattle.std.specs.Prelude.{◌≡◌, max, decimal, ◌<◌, ◌≤◌, ◌^◌, ◌+◌, ◌∷◌, [], length, is_some, option_and_then, IsTrue, IsSome, OnOk, unwrap_or, Some, None, fold, ℕ, List};
ghost use Rattle.std.specs.Bool.{OnTrue, OnFalse};
ghost use Rattle.std.specs.List.{list_all};
ghost use Rattle.std.specs.Str.{byte};
ghost use Rattle.small_texts.specs.Fields.{fields};
ghost use Rattle.small_texts.specs.Name.{is_name};
ghost use Rattle.host_lists.specs.Hosts.{numbers_in, range_names, with_name, made_by_parts, few};
ghost use Rattle.host_lists.specs.Counting.{with_part, Counts, AddsPart};
ghost use Rattle.host_lists.specs.Found.{AreFound};

use crate::counted::Counted;
use crate::found::{Found, ROW, Row};
use crate::runs::Run;
use itoa::Buffer;
use small_texts::digits::parse_number;
use small_texts::fields::{UpToThree, first_field, up_to_three};
use small_texts::memory_error::Memory;
use small_texts::name::{LONGEST_NAME, has_name_bytes};
use std::alloc::Global;
use std::marker::Model;

const MOST_DIGITS: usize = 9;

const GREATEST_NUMBER: u64 = 999_999_999;

// Numbers of a bracket, from a first to a last, each written in at least so many digits.
#[derive(Drop)]
struct Numbers {
    first: u64,
    last: u64,
    width: usize,
}

impl Model for Numbers {
    ghost use Rattle.std.specs.Prelude.{◌<◌, ◌≤◌, ◌^◌};
    ghost use Rattle.host_lists.specs.Hosts as spec;

    ghost Value = { spec.Numbers };

    ghost view = { λ n. record { first = n.first; last = n.last; width = n.width } };

    ghost invariant = { λ n. (n.first ≤ n.last) × (n.last < 10 ^ 9) × (n.width ≤ 9) };
}

#[tactic(auto, unfolding(crate::specs::Hosts::numbers_of))]
fn read_numbers(part: &[u8]) -> Option<Numbers>
    ensures { result ≡ numbers_in part.now }
{
    match up_to_three(part, b'-') {
        UpToThree::One(number) => {
            let n = parse_number(number, MOST_DIGITS, GREATEST_NUMBER)?;
            Some(Numbers {
                first: n,
                last: n,
                width: number.len(),
            })
        }
        UpToThree::Two(from, to) => {
            let first = parse_number(from, MOST_DIGITS, GREATEST_NUMBER)?;
            let last = parse_number(to, MOST_DIGITS, GREATEST_NUMBER)?;
            if first <= last {
                Some(Numbers {
                    first,
                    last,
                    width: from.len(),
                })
            } else {
                None
            }
        }
        _ => None,
    }
}

// Whether the numbers behind the prefix are names: the last is the longest.
fn are_names(prefix: &[u8], numbers: &Numbers) -> bool
    ensures { result ≡ list_all is_name (range_names prefix.now numbers.now) }
{
    let mut buffer = Buffer::new();
    let digits = buffer.format(numbers.last).len().max(numbers.width);
    prefix.len() + digits <= LONGEST_NAME && has_name_bytes(prefix)
}

// How many digits a number is written in.
fn digits_of(width: usize, number: u64) -> u64
    requires width { width ≤ 9 }
    requires number { number < 10 ^ 9 }
    ensures value { result ≡ max (length (decimal number)) width }
    ensures few { result ≤ 9 }
{
    let mut buffer = Buffer::new();
    buffer.format(number).len().max(width) as u64
}

#[tactic(auto, unfolding(crate::specs::Hosts::range_names))]
fn count_numbers(counted: &mut Counted, numbers: &Numbers) -> bool
    ensures added { OnTrue result ((prefix : List ℕ) → (names : List (List ℕ)) → Counts prefix counted.old names
        → Counts prefix counted.new (fold with_name names (range_names prefix numbers.now))) }
    ensures full { OnFalse result ((prefix : List ℕ) → (names : List (List ℕ)) → Counts prefix counted.old names
        → 1024 < length (fold with_name names (range_names prefix numbers.now))) }
{
    let Numbers { first, last, width } = numbers;
    let (first, last, width) = (*first, *last, *width);
    let mut number = first;
    while number <= last {
        let digits = digits_of(width, number);
        let end = (last + 1).min(10u64.pow(digits as u32));
        let keys = Run {
            first: digits * (1 << 32) + number,
            end: digits * (1 << 32) + end,
        };
        if !counted.add(keys) {
            return false;
        }
        number = end;
    }
    true
}

#[tactic(auto, unfolding(crate::specs::Counting::with_part, crate::specs::Counting::few_with))]
fn count_part(counted: &mut Counted, prefix: &[u8], part: &[u8]) -> bool
    ensures good { OnTrue result ((names : List (List ℕ)) → Counts prefix.now counted.old names
        → AddsPart prefix.now part.now names counted.new) }
    ensures bad { OnFalse result ((names : List (List ℕ)) → Counts prefix.now counted.old names
        → with_part prefix.now names part.now ≡ None) }
{
    match read_numbers(part) {
        Some(numbers) => are_names(prefix, &numbers) && count_numbers(counted, &numbers),
        None => false,
    }
}

/// Whether the parts of a bracket make names, and at most 1,024 of them, each counted once. It takes no memory.
pub(crate) fn is_good_bracket(prefix: &[u8], inside: &[u8]) -> bool
    ensures { result ≡ is_some (option_and_then few (made_by_parts prefix.now (fields (byte ",") inside.now))) }
{
    let mut counted = Counted::new();
    let mut rest = Some(inside);
    while let Some(parts) = rest {
        let (part, others) = first_field(parts, b',');
        if !count_part(&mut counted, prefix, part) {
            return false;
        }
        rest = others;
    }
    true
}

#[tactic(auto, unfolding(crate::specs::Hosts::range_names))]
fn make_names<'a>(
    found: &mut Found<'a>,
    alloc: Global,
    prefix: &'a [u8],
    numbers: &Numbers,
) -> Result<(), Memory>
    requires found { AreFound found.old }
    requires named { IsTrue (list_all is_name (range_names prefix.now numbers.now)) }
    ensures found { OnOk result (AreFound found.new) }
    ensures names { OnOk result (found.new.names.keys ≡ fold with_name found.old.names.keys
        (range_names prefix.now numbers.now)) }
{
    let Numbers { first, last, width } = numbers;
    let (first, last, width) = (*first, *last, *width);
    let mut number = first;
    while number <= last {
        let place = number / ROW;
        let row = Row {
            prefix,
            width,
            place,
        };
        let end = (last + 1).min((place + 1) * ROW);
        found.add_run(alloc, &row, Run { first: number, end })?;
        number = end;
    }
    Ok(())
}

/// Puts the names of a bracket behind those that were found.
pub(crate) fn make_bracket<'a>(
    found: &mut Found<'a>,
    alloc: Global,
    prefix: &'a [u8],
    inside: &[u8],
) -> Result<(), Memory>
    requires found { AreFound found.old }
    requires good { IsSome (option_and_then few (made_by_parts prefix.now (fields (byte ",") inside.now))) }
    ensures found { OnOk result (AreFound found.new) }
    ensures names { OnOk result (found.new.names.keys ≡ fold with_name found.old.names.keys
        (unwrap_or (option_and_then few (made_by_parts prefix.now (fields (byte ",") inside.now))) [])) }
{
    let mut rest = Some(inside);
    while let Some(parts) = rest {
        let (part, others) = first_field(parts, b',');
        if let Some(numbers) = read_numbers(part) {
            make_names(found, alloc, prefix, &numbers)?;
        }
        rest = others;
    }
    Ok(())
}
