//! One order, as it is read from its line.

ghost use Rattle.std.specs.Prelude.{◌≡◌, ◌<◌, ◌++◌, ◌∷◌, ℕ, List, Option, Some, IfOk, IfSome, IsSomeAnd, codes, is_some};
ghost use Rattle.std.specs.Str.{byte};
ghost use Rattle.slurm_print.specs.Orders.{start_text, start_line, launch_line, number_or_dash};
ghost use Rattle.orders_text.specs.Fields.{FitsStart};
ghost use Rattle.orders_text.specs.Orders.{FitsLaunch, FitsOrder, order_line};
ghost use Rattle.orders_text.specs.Amounts.{FitsAmounts, amounts_text, fits_number};
ghost use Rattle.orders_text.specs.declared.order.Order.{Order};

use crate::cpus::read_cpus;
use crate::fields::{number_before, read_number, value_before};
use plain_data::CpuIds;
use reply_data::orders::Launch;
use request_data::report::Start;
use small_texts::memory_error::Memory;
use std::alloc::Global;

const GREATEST: u64 = 4_294_967_295;

/// One order.
#[derive(Drop)]
pub(crate) enum Order {
    Kill(Start),
    Forget(Start),
    Launch(Launch),
}

/// What a launch's line says behind its processors.
#[derive(Clone, Copy)]
pub(crate) struct Amounts {
    mem: u64,
    run: Option<u32>,
    exit: Option<u32>,
}

// The start `J.S` behind a label and before a byte that is no digit, and what follows that.
fn start_before<'a>(text: &'a [u8], label: &[u8], mark: u8) -> Option<(Start, &'a [u8])>
    requires { mark < 48 }
    ensures some { IfSome result (λ parts. FitsStart parts.0
        × (text.now ≡ label.now ++ (start_text parts.0 ++ mark ∷ parts.1.now))) }
    ensures only { (start : Start) (rest : List ℕ) → FitsStart start
        → text.now ≡ label.now ++ (start_text start ++ mark ∷ rest)
        → IsSomeAnd result (λ parts. (parts.0 ≡ start) × (parts.1.now ≡ rest)) }
{
    let (id, behind) = number_before(text, label, b'.', GREATEST)?;
    let (number, rest) = number_before(behind, b"", mark, GREATEST)?;
    let start = Start {
        id: id as u32,
        number: number as u32,
    };
    Some((start, rest))
}

// The start of a line that has a word and a start alone.
fn read_start(line: &[u8], word: &[u8]) -> Option<Start>
    ensures some { IfSome result (λ start. FitsStart start × (start_line word.now start ≡ line.now)) }
    ensures only { (start : Start) → FitsStart start → start_line word.now start ≡ line.now → result ≡ Some start }
{
    let (start, rest) = start_before(line, word, b'\n')?;
    if rest.is_empty() { Some(start) } else { None }
}

// The number that is written so, or none where a dash is.
fn read_number_or_dash(text: &[u8]) -> Option<Option<u32>>
    ensures some { IfSome result (λ number. fits_number number × (number_or_dash number ≡ text.now)) }
    ensures only { (number : Option ℕ) → fits_number number → number_or_dash number ≡ text.now
        → result ≡ Some number }
{
    if text == b"-".as_slice() {
        return Some(None);
    }
    let number = read_number(text, GREATEST)?;
    Some(Some(number as u32))
}

// The number or the dash behind a label and before a byte, and what follows that.
fn number_or_dash_before<'a>(
    text: &'a [u8],
    label: &[u8],
    mark: u8,
) -> Option<(Option<u32>, &'a [u8])>
    requires { mark < 44 }
    ensures some { IfSome result (λ parts. fits_number parts.0
        × (text.now ≡ label.now ++ (number_or_dash parts.0 ++ mark ∷ parts.1.now))) }
    ensures only { (number : Option ℕ) (rest : List ℕ) → fits_number number
        → text.now ≡ label.now ++ (number_or_dash number ++ mark ∷ rest)
        → IsSomeAnd result (λ parts. (parts.0 ≡ number) × (parts.1.now ≡ rest)) }
{
    let (value, rest) = value_before(text, label, mark)?;
    let number = read_number_or_dash(value)?;
    Some((number, rest))
}

// What stands behind a launch's processors: the seconds of its script and its exit code are both there, or neither is.
fn read_amounts(text: &[u8]) -> Option<Amounts>
    ensures some { IfSome result (λ amounts. FitsAmounts amounts × (amounts_text amounts ≡ text.now)) }
    ensures only { (amounts : Amounts) → FitsAmounts amounts → amounts_text amounts ≡ text.now
        → result ≡ Some amounts }
{
    let (mem, behind) = number_before(text, b"mem=", b' ', u64::MAX)?;
    let (run, behind) = number_or_dash_before(behind, b"run=", b' ')?;
    let (exit, behind) = number_or_dash_before(behind, b"exit=", b'\n')?;
    if !behind.is_empty() || run.is_some() != exit.is_some() {
        return None;
    }
    Some(Amounts { mem, run, exit })
}

// The processors of a launch, where what stands round them is good.
fn read_launch(alloc: Global, line: &[u8]) -> Result<Option<Launch>, Memory>
    ensures some { IfOk result (λ read. IfSome read (λ launch.
        FitsLaunch launch × (launch_line launch ≡ line.now))) }
    ensures only { (launch : Launch) → FitsLaunch launch → launch_line launch ≡ line.now
        → IfOk result (λ read. read ≡ Some launch) }
{
    let Some((start, behind)) = start_before(line, b"launch ", b' ') else {
        return Ok(None);
    };
    let Some((cpus, behind)) = value_before(behind, b"cpus=", b' ') else {
        return Ok(None);
    };
    let Some(amounts) = read_amounts(behind) else {
        return Ok(None);
    };
    let Some(cpus) = read_cpus(alloc, cpus)? else {
        return Ok(None);
    };
    Ok(Some(Launch {
        start,
        cpus,
        mem: amounts.mem,
        run: amounts.run,
        exit: amounts.exit,
    }))
}

/// The order that a line with its LF is. Linear in the line.
pub(crate) fn read_order(alloc: Global, line: &[u8]) -> Result<Option<Order>, Memory>
    ensures some { IfOk result (λ read. IfSome read (λ order. FitsOrder order × (order_line order ≡ line.now))) }
    ensures only { (order : Order) → FitsOrder order → order_line order ≡ line.now
        → IfOk result (λ read. read ≡ Some order) }
{
    if let Some(start) = read_start(line, b"kill ") {
        return Ok(Some(Order::Kill(start)));
    }
    if let Some(start) = read_start(line, b"forget ") {
        return Ok(Some(Order::Forget(start)));
    }
    match read_launch(alloc, line)? {
        Some(launch) => Ok(Some(Order::Launch(launch))),
        None => Ok(None),
    }
}
