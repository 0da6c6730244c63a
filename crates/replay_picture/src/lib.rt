//! The picture of a replay: nodes over time with their jobs as bars, and below them how many jobs wait. It is the text of an
//! SVG file.
#![tactic(auto)]

mod axis;
mod bars;
mod data;
mod drawing;
mod escape;
mod lanes;
pub mod laws;
mod legend;
mod nodes;
mod runs;
mod scale;
mod shapes;
mod waiting;

pub use data::{NodePart, Period, Picture, PictureBar, PictureNode, Shade, WaitingStep};
pub use drawing::picture;
