//! The text of a picture.

use crate::scene::scene_in;
use replay_picture::{Picture, picture};
use std::alloc::Global;
use std::io;
use table_lines::answer::Unanswered;

/// Tells the text of what a case shows.
pub(crate) fn answer(rt: &impl Print, alloc: Global, file: &[u8]) -> io::Result<()> {
    match drawn(alloc, file) {
        Ok(text) => rt.write_all(text.as_slice()),
        Err(_) => rt.println("a bad line"),
    }
}

fn drawn(alloc: Global, file: &[u8]) -> Result<Vec<u8>, Unanswered> {
    let scene: Picture = scene_in(alloc, file)?;
    let text = picture(alloc, &scene)?;
    Ok(text)
}
