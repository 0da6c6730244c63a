//! A table of files. A line `== NAME` begins a file; in one that begins with `=~ NAME` the last line has no line feed.

ghost use Rattle.std.specs.Prelude.{◌<◌, ◌≤◌, length, IfSome};

/// One file of a table, and what follows it. Its name is the line that begins it.
#[derive(Clone, Copy)]
pub struct Case<'a> {
    pub name: &'a [u8],
    pub file: &'a [u8],
    pub rest: &'a [u8],
}

/// The first file of a table; None where the table is empty. Linear in the file.
pub fn next_case(table: &[u8]) -> Option<Case<'_>>
    ensures { IfSome result (λ case. length case.rest.now < length table.now) }
{
    let (head, behind) = table.split_at(line_len(table));
    if head.is_empty() {
        return None;
    }
    let (file, rest) = behind.split_at(file_len(behind));
    Some(Case {
        name: head,
        file: if head.starts_with(b"=~") {
            without_last(file)
        } else {
            file
        },
        rest,
    })
}

// The bytes of the first line, its line feed counted.
fn line_len(text: &[u8]) -> usize
    ensures { result ≤ length text.now }
{
    match text.iter().position(|b| *b == b'\n') {
        Some(at) => at + 1,
        None => text.len(),
    }
}

// The bytes before the next head.
fn file_len(text: &[u8]) -> usize
    ensures { result ≤ length text.now }
{
    let mut begins = true;
    for (at, b) in text.iter().enumerate() {
        if begins && is_head(&text[at..]) {
            return at;
        }
        begins = *b == b'\n';
    }
    text.len()
}

fn is_head(text: &[u8]) -> bool {
    text.starts_with(b"== ") || text.starts_with(b"=~ ")
}

fn without_last(file: &[u8]) -> &[u8] {
    match file.split_last() {
        Some((_, front)) => front,
        None => file,
    }
}
