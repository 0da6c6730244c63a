//! What stays true of the partitions, whatever state one is set to. A law is the contract of a function that does
//! nothing.

ghost use Rattle.node_state.specs.PartitionLaws;

/// Another state of a partition leaves what slurm.conf(5) says of each, the nodes of each, and what names mean.
pub fn a_state_leaves_the_rest()
    ensures confs { PartitionLaws.ConfsStay }
    ensures nodes { PartitionLaws.NodesStay }
    ensures on_nodes { PartitionLaws.OnNodesStays }
    ensures places { PartitionLaws.PlacesStay }
{}

/// The partitions that slurm.conf(5) makes are on nodes that there are.
pub fn opened_partitions_are_on_nodes()
    ensures { PartitionLaws.OnNodesOpened }
{}
