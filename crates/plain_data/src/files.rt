//! The files of a cluster.

/// The names of the files that a cluster is opened from.
#[derive(Clone, Copy)]
pub struct FileNames<'a> {
    /// That of slurm.conf(5).
    pub conf: &'a str,
    /// That of the association file, sacctmgr(1).
    pub assocs: &'a str,
    /// That of a saved state, where the cluster goes on from one (own).
    pub state: Option<&'a str>,
}
