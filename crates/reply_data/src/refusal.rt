//! Why the controller refuses a request.

use crate::short_name::ShortName;

/// Which limit of submitted jobs a submission exceeds. "Limits" in sacctmgr(1).
#[derive(Clone, Copy, PartialEq, Eq, Debug)]
pub enum Which {
    /// `MaxSubmitJobs` of the user's association, or the nearest one above it that has one.
    AssocMaxSubmitJobs,
    /// `GrpSubmitJobs` of the association or of one above it.
    AssocGrpSubmitJobs,
    /// `GrpSubmitJobs` of the quality of service.
    QosGrpSubmitJobs,
    /// `MaxSubmitJobsPerUser` of the quality of service.
    QosMaxSubmitJobsPerUser,
}

/// Why a request was refused. The numbers are those that its text shows (own).
#[derive(Clone, Copy, PartialEq, Eq, Debug)]
pub enum Refusal {
    /// 1: the partition takes no jobs.
    PartitionClosed,
    /// 2: the user has no association, or none with the account asked for.
    InvalidAccount,
    /// 3: there is no such partition, or none was named and there is no default.
    InvalidPartition,
    /// 4: there is no such quality of service.
    InvalidQos,
    /// 5: no choice of nodes could ever give the job what it asks for.
    NodesNotAvailable,
    /// 6: the partition doesn't take jobs of this account, or of this quality of service.
    NotAllowedHere,
    /// 7: the jobs that haven't ended and the new ones are more than a limit allows, which is given.
    SubmitLimit { which: Which, limit: u64 },
    /// 8: the jobs that are kept and the new ones are more than MaxJobCount.
    JobTableFull,
    /// 9: an index of the array is MaxArraySize or more.
    ArrayTooLarge,
    /// 10: there is no such job or task.
    InvalidJobId,
    /// 11: the job is of another user, or only privileged users may ask for this.
    AccessDenied,
    /// 12: the job has ended, or completes.
    AlreadyDone,
    /// 13: a job is named that isn't kept, or by aftercorr one that is no array of the same indices.
    BadDependency,
    /// 14: there is no such reservation, or the user may not use it; or it can't be made so.
    InvalidReservation,
    /// 15: its nodes are kept for others, or jobs hold them, within its time.
    ReservationOverlap,
    /// 16: a name is no node.
    UnknownNode,
    /// 17: the node's last accepted report, which is given, isn't before this one.
    StaleReport { boot: u64, number: u64 },
    /// 18: the history can't take another entry.
    HistoryFull,
    /// 19: the last job id was handed out.
    JobIdsSpent,
    /// 20: the request's moment is past the last one that the controller counts.
    MomentTooLarge,
    /// 21: the job's state doesn't allow it.
    WrongState,
    /// 22: the controller was shut down.
    ShuttingDown,
    /// 23: the job may not be started again.
    NotRequeueable,
    /// 24: the node or the partition of this name can't go, or can't have so little, while jobs, reservations or
    /// records of jobs name it.
    CannotShrink { name: ShortName },
}
