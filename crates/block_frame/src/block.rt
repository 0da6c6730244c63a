// A block, and what a reader finds where the next one should begin.
use crate::Text;

/// A request as it lies in a stream: its header, and its attachment, where it has one (own).
///
/// In the plain form that is a block whose line ends with ` <<`. The header has the blank, and not the `<<`. The
/// attachment is lines, each with its LF, and the dots that its spelling doubled are single again. In the framed form
/// the attachment is what follows the first LF, as it stands.
#[derive(Drop)]
pub struct Block {
    pub header: Text,
    pub attachment: Option<Text>,
}

/// What the bytes at hand begin with (own).
#[derive(Drop)]
pub enum Next {
    /// A whole block.
    Whole(Block),
    /// A proper prefix of a block, such as nothing at all.
    NotYet,
    /// Neither; it began at this byte of the stream, counted from 0.
    Bad { place: u64 },
}
