// What the system's objects have in common.
use std::io::{Error, ErrorKind};

/// How often one call is tried that a signal interrupts.
pub(crate) const MOST_TRIES: u32 = 1024;

pub(crate) fn is_interrupted(error: &Error) -> bool {
    error.kind() == ErrorKind::Interrupted
}

/// Too many files are open in the whole system: errno(3).
const ENFILE: i32 = 23;

/// There is no room for a socket's buffers: errno(3).
const ENOBUFS: i32 = 105;

/// Whether a connection was given up before it was accepted.
pub(crate) fn is_aborted(error: &Error) -> bool {
    error.kind() == ErrorKind::ConnectionAborted
}

/// Whether a connection couldn't be accepted for want of a descriptor or of memory, by an error of accept(2).
pub(crate) fn is_wanting(error: &Error) -> bool {
    match error.raw_os_error() {
        Some(code) => {
            code == libc::EMFILE || code == ENFILE || code == ENOBUFS || code == libc::ENOMEM
        }
        None => false,
    }
}

/// Whether a listener is none, or none any more, by an error of accept(2).
pub(crate) fn is_broken(error: &Error) -> bool {
    match error.raw_os_error() {
        Some(code) => code == libc::EBADF || code == libc::EINVAL || code == libc::ENOTSOCK,
        None => false,
    }
}
