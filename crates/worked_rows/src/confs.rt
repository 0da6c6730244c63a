// What files slurm.conf say.
ghost use Rattle.std.specs.Prelude.{◌≡◌, ◌++◌, codes, Ok, Err};
ghost use Rattle.conf_reader.specs.Reader.{conf_in};
ghost use Rattle.text_values.specs.declared.conf_refusal.ConfKind.{ConfKind};
ghost use Rattle.text_values.specs.declared.conf_refusal.ConfRefusal.{ConfRefusal};
ghost use Rattle.worked_rows.specs.Clusters.{one_node, four_nodes};

use conf_reader::conf_refusal::{ConfKind, ConfRefusal};

/// A file says what its lines say, or its first bad line is told.
#[tactic(none)]
pub fn files()
    ensures one_node { conf_in
        (codes "ClusterName=c\nSlurmdTimeout=0\nDefMemPerCPU=1000\nNodeName=n1 CPUs=4 RealMemory=4000\n"
        ++ codes "PartitionName=main Nodes=ALL Default=YES\n")
        ≡ Ok one_node }
    ensures four_nodes { conf_in
        (codes "NodeName=DEFAULT CPUs=2 RealMemory=2000\nNodeName=n[1-3]\nNodeName=m1 State=DOWN\n"
        ++ codes "PartitionName=main Nodes=ALL Default=YES MaxTime=1-0\n")
        ≡ Ok four_nodes }
    ensures unknown_key { conf_in
        (codes "ClusterName=c\nSlurmdTimeout=0\nDefMemPerCPU=1000\nGadget=1\n")
        ≡ Err (ConfRefusal.At 4 ConfKind.UnknownKey) }
    ensures empty { conf_in (codes "") ≡ Err (ConfRefusal.At 0 ConfKind.NoPartition) }
{}
