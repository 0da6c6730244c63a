// What a door in memory keeps of a link.
use crate::Cut;
use slurm_io::MemLink;

/// A link that was handed back to a door in memory (own).
#[derive(Drop)]
pub struct MemSession {
    /// What it had to read when it came.
    pub left: Vec<u8>,
    /// The link, as it was handed back.
    pub link: MemLink,
    pub cut: Cut,
}
