// How blocks are spelled.

/// How the blocks of a stream are spelled.
#[derive(Clone, Copy, Debug, PartialEq, Eq)]
pub enum Form {
    /// A header line, ended by LF. Where it ends with ` <<`, lines follow up to one that is a dot alone, and each of
    /// them that begins with a dot has one more in front (own).
    Plain,
    /// A length of four bytes, the greatest first, from 1 to 131,072, and so many bytes behind it: the header up to the
    /// first LF or the end, and behind that LF the attachment. Where there is no LF, there is no attachment (own).
    Framed,
}
