//! What the words of a session's program ask.

use plain_data::files::FileNames;

/// What words ask: the files of a cluster, and the file that has the session; without one it is the input (own).
#[derive(Clone, Copy)]
pub(crate) struct SessionWords<'a> {
    pub(crate) files: FileNames<'a>,
    pub(crate) file: Option<&'a str>,
}
