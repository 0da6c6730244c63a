//! Whether a saved state is read and written again as it was, or its first bad line.

use state_save::{SavedRefusal, read_saved, write_saved};
use std::alloc::Global;
use std::io;

/// Tells it of a text.
pub(crate) fn answer(rt: &impl Print, alloc: Global, text: &[u8]) -> io::Result<()> {
    match tell(alloc, text) {
        Told::Same => rt.println("same"),
        Told::Other => rt.println("another text"),
        Told::BadLine(line) => println!(rt; "line {line}"),
        Told::OutOfMemory => rt.println("out of memory"),
    }
}

// What is told of a text.
enum Told {
    Same,
    Other,
    BadLine(u32),
    OutOfMemory,
}

fn tell(alloc: Global, text: &[u8]) -> Told {
    let saved = match read_saved(alloc, text) {
        Ok(saved) => saved,
        Err(SavedRefusal::BadSaved { line }) => return Told::BadLine(line),
        Err(SavedRefusal::Memory) => return Told::OutOfMemory,
    };
    match write_saved(alloc, &saved) {
        Ok(again) => {
            if again.as_slice() == text {
                Told::Same
            } else {
                Told::Other
            }
        }
        Err(_) => Told::OutOfMemory,
    }
}
