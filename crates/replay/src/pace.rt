//! How far apart passes and reports are.

/// How many seconds lie between two passes at the most, and between two reports of all daemons (own).
#[derive(Clone, Copy)]
pub struct Pace {
    pub passes: u64,
    pub reports: u64,
}
