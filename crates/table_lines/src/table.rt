// The lines of a table, one after another.
ghost use Rattle.std.specs.Prelude.{OnOk, IfOk, string_bytes};
ghost use Rattle.std.specs.Str.Lines.{lines};
ghost use Rattle.table_lines.specs.Tables.{IsTold, AreTold};

use crate::answer::Unanswered;
use percent_encoding::{AsciiSet, CONTROLS, ascii_set, percent_decode, percent_encode};
use std::alloc::{AllocError, Global};
use std::io;

/// What is written %HH, beside the bytes past ASCII.
pub const ESCAPED: AsciiSet = ascii_set!(CONTROLS.add(b'%'));

// In an answer the mark between two arguments too.
const ESCAPED_IN_ANSWERS: AsciiSet = ascii_set!(ESCAPED.add(b'|'));

// The arguments of a line.
fn arguments(alloc: Global, text: &str) -> Result<Vec<Vec<u8>>, AllocError> {
    let mut arguments = Vec::new(alloc);
    for field in text.split('|') {
        let mut bytes = Vec::new(alloc);
        percent_decode(field.as_bytes()).append_to(&mut bytes)?;
        arguments.push(bytes)?;
    }
    Ok(arguments)
}

// The answer of the call that a line names.
fn answer_of<F>(alloc: Global, line: &str, call: &F) -> Result<Vec<u8>, Unanswered>
where
    F: Fn(Global, &str, &[&[u8]]) -> Result<Vec<u8>, Unanswered>,
    requires { F.IsAlwaysCallable call.now }
{
    let (function, rest) = line.split_once('|').unwrap_or((line, ""));
    let owned = arguments(alloc, rest)?;
    let mut arguments = Vec::new(alloc);
    for argument in &owned {
        arguments.push(argument.as_slice())?;
    }
    call(alloc, function, arguments.as_slice())
}

// Puts a line behind others, and behind it the mark and the answer of the call that it names, if it names one.
fn push_told<F>(out: &mut String, line: &str, mark: &str, call: &F) -> Result<(), AllocError>
where
    F: Fn(Global, &str, &[&[u8]]) -> Result<Vec<u8>, Unanswered>,
    requires { F.IsAlwaysCallable call.now }
    ensures { OnOk result (IsTold line.now (string_bytes out.old) (string_bytes out.new)) }
{
    out.push_str(line)?;
    if line.is_empty() || line.starts_with('#') {
        return Ok(());
    }
    out.push_str(mark)?;
    match answer_of(*out.allocator(), line, call) {
        Ok(text) => percent_encode(text.as_slice(), ESCAPED_IN_ANSWERS).append_to(out),
        Err(Unanswered::Arguments) => out.push_str("bad argument"),
        Err(Unanswered::Memory) => Err(AllocError),
    }
}

/// The lines of the table, `FUNCTION|ARGUMENT|..`, each with the mark and the answer of the call that it names. An empty
/// line and one that begins with `#` stay as they are.
pub fn answers<F>(alloc: Global, table: &str, mark: &str, call: F) -> Result<String, AllocError>
where
    F: Fn(Global, &str, &[&[u8]]) -> Result<Vec<u8>, Unanswered> + Drop,
    requires { F.IsAlwaysCallable call }
    ensures { IfOk result (λ out. AreTold (lines table.now) (string_bytes out)) }
{
    let mut out = String::new(alloc);
    for line in table.lines() {
        push_told(&mut out, line, mark, &call)?;
        out.push_str("\n")?;
    }
    Ok(out)
}

/// Prints what becomes of the table on standard input.
pub fn print_answers<F>(rt: &HostRuntime, answers: F) -> io::Result<()>
where
    F: FnOnce(Global, &str) -> Result<String, AllocError> + Drop,
    requires { F.IsAlwaysCallable answers }
{
    let alloc = rt.alloc();
    let table = io::read_to_string(alloc, rt.reader())?;
    let out = answers(alloc, table.as_str())?;
    print!(rt; "{out}")
}
