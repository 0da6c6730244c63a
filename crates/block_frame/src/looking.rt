// How far the bytes at hand were looked at, and what they begin with.
ghost use Rattle.std.specs.Prelude.{◌≡◌, ◌≤◌, ◌<◌, length, nat_eq};
ghost use Rattle.std.specs.List.{position_or_len};
ghost use Rattle.block_frame.specs.Grammar.{is_marked};
ghost use Rattle.block_frame.specs.LineFeeds.{is_line_feed};
ghost use Rattle.block_frame.specs.Looking.{IsScanned, IsSight, IsUnderWay};

use crate::lines::{Seen, line_len, see_line};

const MAX_HEADER_LINE: usize = 8192;

const MAX_ATTACHMENT: usize = 65536;

/// How far an attachment was looked at.
#[derive(Clone, Copy)]
pub struct Lines {
    /// The length of the header line.
    pub header: usize,
    /// Where the next line begins.
    pub at: usize,
    /// How many bytes the lines before it stand for.
    pub size: usize,
    /// So many bytes of it are known to be no LF.
    pub searched: usize,
}

/// How far a text was looked at.
#[derive(Clone, Copy)]
pub enum Scan {
    /// So many bytes of the header line are known to be no LF.
    Header { searched: usize },
    Attachment(Lines),
}

/// What a text begins with in the plain form.
#[derive(Clone, Copy)]
pub enum Sight {
    NotYet,
    Bad,
    /// A header line of this length, which no attachment follows.
    Line(usize),
    /// A header line of this length and an attachment, whose last line begins at `end`.
    Attached { header: usize, end: usize },
}

fn is_marked(line: &[u8]) -> bool
    ensures { result ≡ is_marked line.now }
{
    line.ends_with(b" <<")
}

fn look_at_header(text: &[u8], searched: usize) -> (Scan, Sight)
    requires { searched ≤ position_or_len is_line_feed text.now }
    ensures scan { IsScanned text.now result.0 }
    ensures sight { IsSight text.now result.1 }
{
    let end = line_len(text, searched);
    let scan = Scan::Header { searched: end };
    if end > MAX_HEADER_LINE {
        return (scan, Sight::Bad);
    }
    if end == text.len() {
        return (scan, Sight::NotYet);
    }
    if end == 0 {
        return (scan, Sight::Bad);
    }
    if !is_marked(text.split_at(end).0) {
        return (scan, Sight::Line(end));
    }
    look_at_lines(
        text,
        Lines {
            header: end,
            at: end + 1,
            size: 0,
            searched: 0,
        },
    )
}

fn look_at_lines(text: &[u8], lines: Lines) -> (Scan, Sight)
    requires { IsUnderWay text.now lines }
    ensures scan { IsScanned text.now result.0 }
    ensures sight { IsSight text.now result.1 }
{
    let mut lines = lines;
    loop {
        let rest = text.split_at(lines.at).1;
        match see_line(rest, lines.searched, MAX_ATTACHMENT - lines.size) {
            Seen::Bad(searched) => {
                lines.searched = searched;
                return (Scan::Attachment(lines), Sight::Bad);
            }
            Seen::Last => {
                let sight = Sight::Attached {
                    header: lines.header,
                    end: lines.at,
                };
                return (Scan::Attachment(lines), sight);
            }
            Seen::Open(searched) => {
                lines.searched = searched;
                return (Scan::Attachment(lines), Sight::NotYet);
            }
            Seen::Line { len, size } => {
                lines.at += len + 1;
                lines.size += size;
                lines.searched = 0;
            }
        }
    }
}

/// Goes on from what was looked at before: how far the text was looked at then, and what it begins with.
pub fn look(text: &[u8], scan: Scan) -> (Scan, Sight)
    requires { IsScanned text.now scan }
    ensures scan { IsScanned text.now result.0 }
    ensures sight { IsSight text.now result.1 }
{
    match scan {
        Scan::Header { searched } => look_at_header(text, searched),
        Scan::Attachment(lines) => look_at_lines(text, lines),
    }
}
