//! What a picture shows, as plain data.

use plain_data::items::Items;
use plain_data::seconds::Second;

/// A time from a second to another.
#[derive(Drop)]
pub struct Period {
    pub first: Second,
    pub last: Second,
}

/// One run of a job.
#[derive(Drop)]
pub struct PictureBar {
    /// What stands in it where there is room, as the number of the job.
    pub label: Items<u8>,
    /// What is shown while a pointer rests on it.
    pub title: Items<u8>,
    /// The place of its group. From the twelfth group on all have one colour.
    pub group: u32,
    pub start: Second,
    pub end: Second,
}

/// What a run holds of one node.
#[derive(Clone, Copy)]
pub struct NodePart {
    /// The place of its bar. Where there is none nothing is drawn.
    pub bar: usize,
    /// How many processors it holds.
    pub processors: u32,
}

/// A time in which a node is shaded, as in a reservation or a drain.
#[derive(Drop)]
pub struct Shade {
    pub from: Second,
    pub until: Second,
}

/// A node, a row of the picture.
#[derive(Drop)]
pub struct PictureNode {
    pub name: Items<u8>,
    pub processors: u32,
    /// What runs held of it, in the order of their starts.
    pub parts: Items<NodePart>,
    pub shades: Items<Shade>,
}

/// How many jobs wait from a moment on.
#[derive(Drop)]
pub struct WaitingStep {
    pub moment: Second,
    pub jobs: u32,
}

/// What a picture shows. All texts are of printable ASCII: another byte is drawn as a question mark.
#[derive(Drop)]
pub struct Picture {
    /// The time that it shows. What lies outside is drawn at its edges.
    pub period: Period,
    /// The names of the groups of bars, of which the legend tells the first twelve.
    pub groups: Items<Items<u8>>,
    /// The nodes in the order of slurm.conf. The first 10,000 are drawn.
    pub nodes: Items<PictureNode>,
    pub bars: Items<PictureBar>,
    /// In the order of their moments.
    pub waiting: Items<WaitingStep>,
}
