//! What the association file says, with its limits and ranges.

use crate::items::Items;
use crate::limit::Limit;
use crate::ranged::{LongRanged, Ranged};
use small_texts::name::Name;
use std::marker::Model;

/// The limits of an association; None is none. sacctmgr(1), "Flat file".
#[derive(Clone, Copy, PartialEq, Eq, Debug)]
pub struct AssocLimits {
    /// `GrpJobs`: how many jobs may hold processors at once, of it and of all below it.
    pub grp_jobs: Option<LongRanged<0, 9999999999>>,
    /// `GrpSubmitJobs`: how many jobs may be that haven't ended, of it and of all below it.
    pub grp_submit: Option<LongRanged<0, 9999999999>>,
    /// `GrpTRES=cpu=N`: how many processors its jobs and those of all below it may have at once.
    pub grp_cpus: Option<LongRanged<0, 9999999999>>,
    /// `MaxJobs`: how many jobs of one user may hold processors at once; for each user below it that has none nearer.
    pub max_jobs: Option<LongRanged<0, 9999999999>>,
    /// `MaxSubmitJobs`: how many jobs of one user may be that haven't ended, in the same way.
    pub max_submit: Option<LongRanged<0, 9999999999>>,
}

/// An association: an account or a user of it. sacctmgr(1), "Flat file".
#[derive(Debug, Drop)]
pub struct AssocConf {
    /// The place of the account that it belongs to; None where that is root.
    pub parent: Option<u32>,
    pub name: Name,
    /// Whether it is a user; else it is an account.
    pub user: bool,
    /// `Fairshare`.
    pub shares: Ranged<0, 65535>,
    /// `DefaultAccount` of a user.
    pub default_account: Option<Name>,
    pub limits: AssocLimits,
}

/// The limits of a quality of service; None is none. The line of it is of this project's own.
#[derive(Clone, Copy, PartialEq, Eq, Debug)]
pub struct QosLimits {
    /// `GrpJobs`: how many of its jobs may hold processors at once.
    pub grp_jobs: Option<LongRanged<0, 9999999999>>,
    /// `GrpSubmitJobs`: how many of its jobs may be that haven't ended.
    pub grp_submit: Option<LongRanged<0, 9999999999>>,
    /// `GrpTRES=cpu=N`: how many processors its jobs may have at once.
    pub grp_cpus: Option<LongRanged<0, 9999999999>>,
    /// `MaxJobsPerUser`: the same as GrpJobs, for each user by name.
    pub user_jobs: Option<LongRanged<0, 9999999999>>,
    /// `MaxSubmitJobsPerUser`.
    pub user_submit: Option<LongRanged<0, 9999999999>>,
    /// `MaxTRESPerUser=cpu=N`.
    pub user_cpus: Option<LongRanged<0, 9999999999>>,
    /// `MaxWall`: the longest limit that one of its jobs may have.
    pub max_wall: Option<Limit>,
}

/// A quality of service.
#[derive(Debug, Drop)]
pub struct QosConf {
    pub name: Name,
    pub priority: u32,
    pub limits: QosLimits,
    /// `Preempt`: the qualities of service whose jobs may be requeued for those of this one, as the line names them; one
    /// that names itself gains nothing by it.
    pub preempt: Items<Name>,
}

/// What the association file says.
#[derive(Debug, Drop)]
pub struct AssocFile {
    /// The associations, in the order of the file: at most 4,096 users, 256 children of one account and 16 on the way
    /// up from one of them. An account stands before what belongs to it.
    pub assocs: Items<AssocConf>,
    /// The qualities of service, in the order of the file, 64 at most; where no line gives `normal`, it stands last.
    pub qos: Items<QosConf>,
}

impl Model for AssocFile {
    ghost use Rattle.plain_data.specs.Assocs.{AssocView, IsAssocFile};

    ghost Value = { AssocView };

    ghost view = { λ file. record { assocs = file.assocs; qos = file.qos } };

    ghost invariant = { λ file. IsAssocFile file.assocs file.qos };
}
