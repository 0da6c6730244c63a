//! The files of the cluster.

ghost use Rattle.std.specs.Prelude.{◌≡◌};
ghost use Rattle.cluster_opening.specs.SimulatedFiles.{simulated_conf, simulated_assocs};

/// The file slurm.conf(5) of the cluster.
#[tactic(auto, unfolding(crate::specs::SimulatedFiles::simulated_conf))]
pub(crate) fn conf() -> &'static [u8]
    ensures { result.now ≡ simulated_conf }
{
    b"DefMemPerCPU=1000\nNodeName=n[01-64] CPUs=32 RealMemory=32000\nPartitionName=main Nodes=ALL Default=YES\n"
}

/// The association file of the cluster, sacctmgr(1).
#[tactic(auto, unfolding(crate::specs::SimulatedFiles::simulated_assocs))]
pub(crate) fn assocs() -> &'static [u8]
    ensures { result.now ≡ simulated_assocs }
{
    b"Cluster - 'cluster'\nParent - 'root'\nAccount - 'acct'\nParent - 'acct'\nUser - 'u1'\nUser - 'u2'\nUser - 'u3'\nUser - 'u4'\n"
}
