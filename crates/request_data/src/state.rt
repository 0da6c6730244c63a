//! The states of a job. "JOB STATE CODES" in squeue(1).

/// How a job ends, or that it is to start again.
#[derive(Clone, Copy, PartialEq, Eq, Debug)]
pub enum Final {
    /// Its exit code was 0.
    Completed,
    /// A user cancelled it.
    Cancelled,
    /// Its exit code was another than 0.
    Failed,
    /// It reached its time limit.
    Timeout,
    /// A node of it failed.
    NodeFail,
    /// It waits for another start.
    Requeue,
}

/// The state of a job.
#[derive(Clone, Copy, PartialEq, Eq, Debug)]
pub enum JobState {
    Pending,
    Running,
    /// Its nodes clear up behind it.
    Completing(Final),
    Ended(Final),
}

/// Who holds a pending job back. "hold" in scontrol(1).
#[derive(Clone, Copy, PartialEq, Eq, Debug)]
pub enum HeldBy {
    Nobody,
    /// Its owner, or who handed it in.
    User,
    /// A privileged user.
    Admin,
}

/// Why a job is pending. "JOB REASON CODES" in squeue(1).
#[derive(Clone, Copy, PartialEq, Eq, Debug)]
pub enum Reason {
    /// A privileged user holds it back.
    JobHeldAdmin,
    /// Its owner holds it back.
    JobHeldUser,
    /// What it waits for can never come to be.
    DependencyNeverSatisfied,
    /// It waits for other jobs.
    Dependency,
    /// It isn't to begin yet.
    BeginTime,
    /// Its partition neither takes nor starts jobs.
    PartitionInactive,
    /// Its partition starts no jobs.
    PartitionDown,
    /// Its limit is above the longest one of its partition.
    PartitionTimeLimit,
    /// It can't have as many nodes as its partition asks for, or as few as it allows.
    PartitionNodeLimit,
    /// Its limit is above the longest one of its quality of service.
    QosMaxWallDurationPerJobLimit,
    /// As many tasks of its array hold processors as may at once.
    JobArrayTaskLimit,
    /// As many jobs of its association, or of one above it, hold processors as may at once.
    AssocGrpJobsLimit,
    /// These jobs would have more processors than they may at once.
    AssocGrpCpuLimit,
    /// As many jobs of its association hold processors as may at once.
    AssocMaxJobsLimit,
    /// As many jobs of its quality of service hold processors as may at once.
    QosGrpJobsLimit,
    /// These jobs would have more processors than they may at once.
    QosGrpCpuLimit,
    /// As many jobs of its user in its quality of service hold processors as may at once.
    QosMaxJobsPerUserLimit,
    /// These jobs would have more processors than they may at once.
    QosMaxCpuPerUserLimit,
    /// Its reservation is gone, or is over before its limit.
    Reservation,
    /// A node that it must have is down or drained.
    ReqNodeNotAvail,
    /// It is the next in rank.
    Resources,
    /// Others stand before it.
    Priority,
}
