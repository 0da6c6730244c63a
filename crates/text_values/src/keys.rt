//! The keys of slurm.conf(5): one table for each kind of line. Keys count in any case of their letters.

ghost use Rattle.std.specs.Prelude.{◌≡◌};
ghost use Rattle.text_values.specs.Keys.{setting_key, node_key, partition_key};

use crate::tables::key_named;

/// What a key of a line of settings says.
#[derive(Clone, Copy)]
pub enum SettingKey {
    FirstJobId,
    MaxJobCount,
    MaxArraySize,
    MinJobAge,
    SlurmdTimeout,
    JobRequeue,
    SlurmUser,
    PriorityType,
    PriorityDecayHalfLife,
    PriorityMaxAge,
    WeightAge,
    WeightFairshare,
    WeightJobSize,
    WeightPartition,
    WeightQos,
    SchedulerType,
    SchedulerParameters,
    SelectType,
    SelectTypeParameters,
    PreemptType,
    PreemptMode,
    DefMemPerNode,
    DefMemPerCpu,
    /// Any value is good, and none has an effect.
    WithoutEffect,
}

/// What a key of a node's line says.
#[derive(Clone, Copy)]
pub enum NodeKey {
    NodeName,
    Cpus,
    Boards,
    Sockets,
    Cores,
    Threads,
    RealMemory,
    Weight,
    Features,
    State,
    /// Any value is good, and none has an effect.
    WithoutEffect,
}

/// What a key of a partition's line says.
#[derive(Clone, Copy)]
pub enum PartitionKey {
    PartitionName,
    Nodes,
    Default,
    MaxTime,
    DefaultTime,
    State,
    JobFactor,
    Tier,
    MinNodes,
    MaxNodes,
    AllowAccounts,
    AllowQos,
    AllowGroups,
    OverSubscribe,
    DefMemPerNode,
    DefMemPerCpu,
    /// Any value is good, and none has an effect.
    WithoutEffect,
}

/// The keys of settings.
pub const SETTING_KEYS: [(&[u8], SettingKey); 63] = [
    (b"FirstJobId", SettingKey::FirstJobId),
    (b"MaxJobCount", SettingKey::MaxJobCount),
    (b"MaxArraySize", SettingKey::MaxArraySize),
    (b"MinJobAge", SettingKey::MinJobAge),
    (b"SlurmdTimeout", SettingKey::SlurmdTimeout),
    (b"JobRequeue", SettingKey::JobRequeue),
    (b"SlurmUser", SettingKey::SlurmUser),
    (b"PriorityType", SettingKey::PriorityType),
    (b"PriorityDecayHalfLife", SettingKey::PriorityDecayHalfLife),
    (b"PriorityMaxAge", SettingKey::PriorityMaxAge),
    (b"PriorityWeightAge", SettingKey::WeightAge),
    (b"PriorityWeightFairshare", SettingKey::WeightFairshare),
    (b"PriorityWeightJobSize", SettingKey::WeightJobSize),
    (b"PriorityWeightPartition", SettingKey::WeightPartition),
    (b"PriorityWeightQOS", SettingKey::WeightQos),
    (b"SchedulerType", SettingKey::SchedulerType),
    (b"SchedulerParameters", SettingKey::SchedulerParameters),
    (b"SelectType", SettingKey::SelectType),
    (b"SelectTypeParameters", SettingKey::SelectTypeParameters),
    (b"PreemptType", SettingKey::PreemptType),
    (b"PreemptMode", SettingKey::PreemptMode),
    (b"DefMemPerNode", SettingKey::DefMemPerNode),
    (b"DefMemPerCPU", SettingKey::DefMemPerCpu),
    (b"ClusterName", SettingKey::WithoutEffect),
    (b"SlurmctldHost", SettingKey::WithoutEffect),
    (b"ControlMachine", SettingKey::WithoutEffect),
    (b"SlurmctldPort", SettingKey::WithoutEffect),
    (b"SlurmdPort", SettingKey::WithoutEffect),
    (b"AuthType", SettingKey::WithoutEffect),
    (b"CryptoType", SettingKey::WithoutEffect),
    (b"StateSaveLocation", SettingKey::WithoutEffect),
    (b"SlurmdSpoolDir", SettingKey::WithoutEffect),
    (b"SlurmctldPidFile", SettingKey::WithoutEffect),
    (b"SlurmdPidFile", SettingKey::WithoutEffect),
    (b"SlurmctldLogFile", SettingKey::WithoutEffect),
    (b"SlurmdLogFile", SettingKey::WithoutEffect),
    (b"SlurmctldDebug", SettingKey::WithoutEffect),
    (b"SlurmdDebug", SettingKey::WithoutEffect),
    (b"SlurmdUser", SettingKey::WithoutEffect),
    (b"ProctrackType", SettingKey::WithoutEffect),
    (b"TaskPlugin", SettingKey::WithoutEffect),
    (b"SwitchType", SettingKey::WithoutEffect),
    (b"MpiDefault", SettingKey::WithoutEffect),
    (b"ReturnToService", SettingKey::WithoutEffect),
    (b"JobCompType", SettingKey::WithoutEffect),
    (b"JobCompLoc", SettingKey::WithoutEffect),
    (b"JobAcctGatherType", SettingKey::WithoutEffect),
    (b"JobAcctGatherFrequency", SettingKey::WithoutEffect),
    (b"AccountingStorageType", SettingKey::WithoutEffect),
    (b"AccountingStorageHost", SettingKey::WithoutEffect),
    (b"AccountingStoreFlags", SettingKey::WithoutEffect),
    (b"AccountingStorageEnforce", SettingKey::WithoutEffect),
    (b"InactiveLimit", SettingKey::WithoutEffect),
    (b"Waittime", SettingKey::WithoutEffect),
    (b"KillWait", SettingKey::WithoutEffect),
    (b"SlurmctldTimeout", SettingKey::WithoutEffect),
    (b"MailProg", SettingKey::WithoutEffect),
    (b"Prolog", SettingKey::WithoutEffect),
    (b"Epilog", SettingKey::WithoutEffect),
    (b"DebugFlags", SettingKey::WithoutEffect),
    (b"SlurmctldParameters", SettingKey::WithoutEffect),
    (b"LaunchParameters", SettingKey::WithoutEffect),
    (b"TmpFS", SettingKey::WithoutEffect),
];

/// The keys of a node's line.
pub const NODE_KEYS: [(&[u8], NodeKey); 17] = [
    (b"NodeName", NodeKey::NodeName),
    (b"CPUs", NodeKey::Cpus),
    (b"Boards", NodeKey::Boards),
    (b"Sockets", NodeKey::Sockets),
    (b"SocketsPerBoard", NodeKey::Sockets),
    (b"CoresPerSocket", NodeKey::Cores),
    (b"ThreadsPerCore", NodeKey::Threads),
    (b"RealMemory", NodeKey::RealMemory),
    (b"Weight", NodeKey::Weight),
    (b"Feature", NodeKey::Features),
    (b"Features", NodeKey::Features),
    (b"State", NodeKey::State),
    (b"NodeAddr", NodeKey::WithoutEffect),
    (b"NodeHostname", NodeKey::WithoutEffect),
    (b"Port", NodeKey::WithoutEffect),
    (b"TmpDisk", NodeKey::WithoutEffect),
    (b"Reason", NodeKey::WithoutEffect),
];

/// The keys of a partition's line.
pub const PARTITION_KEYS: [(&[u8], PartitionKey); 18] = [
    (b"PartitionName", PartitionKey::PartitionName),
    (b"Nodes", PartitionKey::Nodes),
    (b"Default", PartitionKey::Default),
    (b"MaxTime", PartitionKey::MaxTime),
    (b"DefaultTime", PartitionKey::DefaultTime),
    (b"State", PartitionKey::State),
    (b"PriorityJobFactor", PartitionKey::JobFactor),
    (b"PriorityTier", PartitionKey::Tier),
    (b"MinNodes", PartitionKey::MinNodes),
    (b"MaxNodes", PartitionKey::MaxNodes),
    (b"AllowAccounts", PartitionKey::AllowAccounts),
    (b"AllowQos", PartitionKey::AllowQos),
    (b"AllowGroups", PartitionKey::AllowGroups),
    (b"OverSubscribe", PartitionKey::OverSubscribe),
    (b"DefMemPerNode", PartitionKey::DefMemPerNode),
    (b"DefMemPerCPU", PartitionKey::DefMemPerCpu),
    (b"Hidden", PartitionKey::WithoutEffect),
    (b"GraceTime", PartitionKey::WithoutEffect),
];

/// A key of a line of settings.
#[tactic(auto, unfolding(crate::specs::Keys::setting_key))]
pub fn setting_key(text: &[u8]) -> Option<SettingKey>
    ensures { result ≡ setting_key text.now }
{
    key_named(&SETTING_KEYS, text)
}

/// A key of a node's line.
#[tactic(auto, unfolding(crate::specs::Keys::node_key))]
pub fn node_key(text: &[u8]) -> Option<NodeKey>
    ensures { result ≡ node_key text.now }
{
    key_named(&NODE_KEYS, text)
}

/// A key of a partition's line.
#[tactic(auto, unfolding(crate::specs::Keys::partition_key))]
pub fn partition_key(text: &[u8]) -> Option<PartitionKey>
    ensures { result ≡ partition_key text.now }
{
    key_named(&PARTITION_KEYS, text)
}
