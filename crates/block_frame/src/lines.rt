// Lines, and what a line of an attachment is.
ghost use Rattle.std.specs.Prelude.{◌≡◌, ◌≤◌, ◌<◌, length};
ghost use Rattle.std.specs.List.{position_or_len};
ghost use Rattle.block_frame.specs.LineFeeds.{is_line_feed};
ghost use Rattle.block_frame.specs.Looking.{IsSeen, kind_of, sized};

use memchr::memchr;

/// How a line of an attachment is spelled.
#[derive(Clone, Copy)]
pub enum Kind {
    /// It doesn't begin with a dot.
    Plain,
    /// It is a dot alone.
    Dot,
    /// It begins with two dots.
    Dotted,
    /// It begins with one dot, and goes on otherwise.
    Off,
}

/// What is next in an attachment.
#[derive(Clone, Copy)]
pub enum Seen {
    /// A line that has no end yet, of so many bytes.
    Open(usize),
    /// A line of so many bytes before its LF, which stands for `size` bytes with it.
    Line { len: usize, size: usize },
    /// The line that ends the attachment.
    Last,
    /// No line of an attachment; so many bytes of it are known to be no LF.
    Bad(usize),
}

/// The length of the first line, of which so many bytes are known to be no LF.
#[tactic(auto, using(crate::proofs::FirstLines::line_fits, crate::proofs::FirstLines::line_found))]
pub fn line_len(text: &[u8], searched: usize) -> usize
    requires { searched ≤ position_or_len is_line_feed text.now }
    ensures len { result ≡ position_or_len is_line_feed text.now }
    ensures within { result ≤ length text.now }
{
    let rest = text.split_at(searched).1;
    searched + memchr(b'\n', rest).unwrap_or(rest.len())
}

fn kind_of(line: &[u8]) -> Kind
    ensures { result ≡ kind_of line.now }
{
    if line.first() != Some(&b'.') {
        return Kind::Plain;
    }
    match line.get(1) {
        None => Kind::Dot,
        Some(b'.') => Kind::Dotted,
        Some(_) => Kind::Off,
    }
}

// What a line is that would stand for so many bytes, where there is room for `room`.
fn sized(len: usize, is_ended: bool, size: usize, room: usize) -> Seen
    ensures { result ≡ sized len is_ended size room }
{
    if size > room {
        Seen::Bad(len)
    } else if is_ended {
        Seen::Line { len, size }
    } else {
        Seen::Open(len)
    }
}

/// What is next in an attachment that has room for so many bytes more, where a line begins. Of that line so many bytes
/// are known to be no LF.
pub fn see_line(text: &[u8], searched: usize, room: usize) -> Seen
    requires { searched ≤ position_or_len is_line_feed text.now }
    ensures { IsSeen room text.now result }
{
    if text.is_empty() {
        return Seen::Open(0);
    }
    let len = line_len(text, searched);
    let is_ended = len < text.len();
    match kind_of(text.split_at(len).0) {
        Kind::Off => Seen::Bad(len),
        Kind::Dot if is_ended => Seen::Last,
        Kind::Dot => Seen::Open(len),
        Kind::Dotted => sized(len, is_ended, len, room),
        Kind::Plain => sized(len, is_ended, len + 1, room),
    }
}
