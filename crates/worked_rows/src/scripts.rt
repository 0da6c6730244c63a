// What scripts are answered.
ghost use Rattle.std.specs.Prelude.{◌≡◌, codes, [], ◌++◌};
ghost use Rattle.slurm_print.specs.Malformed.{bad_header_text};
ghost use Rattle.script_run.specs.Script.{script_of};
ghost use Rattle.worked_rows.specs.Clusters.{on_one_node, on_four_nodes};

/// Nothing is answered by nothing, and a submission by its job's number or its refusal.
#[tactic(none)]
pub fn submissions()
    ensures empty { script_of on_one_node (codes "") ≡ [] }
    ensures one { script_of on_one_node (codes "100 alice sbatch -n 4 -t 10\n") ≡ codes "Submitted batch job 1\n" }
    ensures numbered { script_of on_one_node
        (codes "7 bob sbatch -n 1 -t 2\n0 alice sbatch -t 1 -n 4\n")
        ≡ codes "Submitted batch job 1\nSubmitted batch job 2\n" }
    ensures wide { script_of on_one_node
        (codes "100 alice sbatch -n 5 -t 1\n")
        ≡ codes "sbatch: error: NodesNotAvailable (5)\n" }
    ensures refused_first { script_of on_one_node
        (codes "100 alice sbatch -n 5 -t 1\n100 bob sbatch -n 2 -t 1\n")
        ≡ codes "sbatch: error: NodesNotAvailable (5)\nSubmitted batch job 1\n" }
    ensures cut { script_of on_one_node
        (codes "100 alice sbatch -n 4 -t 1\n100 bob")
        ≡ codes "Submitted batch job 1\n" }
    ensures empty_line { script_of on_one_node
        (codes "100 alice sbatch -n 4 -t 1\n\n100 bob sbatch -n 2 -t 1\n")
        ≡ codes "Submitted batch job 1\n" }
    ensures stranger { script_of on_one_node
        (codes "100 carol sbatch -n 1 -t 1\n")
        ≡ codes "sbatch: error: InvalidAccount (2)\n" }
    ensures no_partition { script_of on_one_node
        (codes "100 alice sbatch -n 1 -p none\n")
        ≡ codes "sbatch: error: InvalidPartition (3)\n" }
    ensures late { script_of on_one_node
        (codes "250000000001 bob sbatch -n 1 -t 1\n")
        ≡ codes "sbatch: error: MomentTooLarge (20)\n" }
{}

/// A script of a job gives options, below those of the words, and its faults are told by their lines.
#[tactic(none)]
pub fn attachments()
    ensures read { script_of on_one_node
        (codes "0 alice sbatch -n 1 a.sh <<\n#!/bin/sh\n#SBATCH -n 5 -t 10\n.\n")
        ≡ codes "Submitted batch job 1\n" }
    ensures bad_value { script_of on_one_node
        (codes "0 alice sbatch b.sh <<\n#!/bin/sh\n#SBATCH -n 0\n.\n")
        ≡ codes "sbatch: error: line 2: BadValue\n" }
    ensures no_shell { script_of on_one_node
        (codes "0 alice sbatch c.sh <<\necho\n.\n")
        ≡ codes "sbatch: error: line 1: NoHashBang\n" }
    ensures stray { script_of on_one_node (codes "0 root pass <<\n.\n") ≡ codes "pass: error: word 1: StrayWord\n" }
{}

/// A pass starts what has room and plans the rest.
#[tactic(none)]
pub fn passes()
    ensures denied { script_of on_one_node (codes "0 alice pass\n") ≡ codes "pass: error: AccessDenied (11)\n" }
    ensures idle { script_of on_one_node (codes "5 root pass\n") ≡ codes "pass: idle\n" }
    ensures started { script_of on_one_node
        (codes "0 alice sbatch -n 4 -t 1\n9 root pass\n")
        ≡ codes "Submitted batch job 1\npass: ended 0 started 1 planned 0\n" }
    ensures planned { script_of on_one_node
        (codes "0 alice sbatch -n 4 -t 1\n0 bob sbatch -n 1 -t 1\n0 root pass\n")
        ≡ codes "Submitted batch job 1\nSubmitted batch job 2\npass: ended 0 started 1 planned 1\n" }
{}

/// A report is answered by orders or by its refusal.
#[tactic(none)]
pub fn reports()
    ensures denied { script_of on_one_node
        (codes "0 bob report n1 1 1\n")
        ≡ codes "report: error: AccessDenied (11)\n" }
    ensures stale { script_of on_one_node
        (codes "5 root report n1 1 2\n4 root report n1 1 2\n")
        ≡ codes "orders n1 1 2\nreport: error: StaleReport (17) 1 2\n" }
    ensures restarted { script_of on_one_node
        (codes "5 root report n1 1 2\n6 root report n1 2 1\n")
        ≡ codes "orders n1 1 2\norders n1 2 1\n" }
    ensures unknown_node { script_of on_one_node
        (codes "5 root report n2 1 1\n")
        ≡ codes "report: error: UnknownNode (16)\n" }
    ensures unknown_starts { script_of on_one_node
        (codes "5 root report n1 1 1 run=7.1 done=8.2.0\n")
        ≡ codes "orders n1 1 1\nkill 7.1\nforget 8.2\n" }
{}

/// A query is answered by the rows of the jobs, or of the partitions' nodes.
#[tactic(none)]
pub fn queries()
    ensures nothing { script_of on_one_node (codes "5 alice squeue -h\n") ≡ [] }
    ensures waiting { script_of on_one_node
        (codes "0 alice sbatch -n 4 -t 1\n9 carol squeue -h --start\n")
        ≡ codes "Submitted batch job 1\n"
        ++ codes "                 1      main   sbatch    alice PD                 N/A      1 (Resources)\n" }
    ensures partitions { script_of on_four_nodes
        (codes "0 alice sinfo -h\n")
        ≡ codes "main*        up 1-00:00:00      1   down m1\nmain*        up 1-00:00:00      3   idle n[1-3]\n" }
    ensures no_partition { script_of on_four_nodes
        (codes "0 alice sinfo -p other\n")
        ≡ codes "sinfo: error: InvalidPartition (3)\n" }
{}

/// A job reaches its limit, is killed, ends, and is dropped five minutes later.
#[tactic(none)]
pub fn a_job_over_its_limit()
    ensures { script_of on_one_node
        (codes "0 alice sbatch -n 4 -t 1\n0 root pass\n5 root report n1 1 1\n60 root pass\n"
        ++ codes "61 root report n1 1 3 run=1.1\n62 root report n1 1 4\n361 root pass\n362 root pass\n")
        ≡ codes "Submitted batch job 1\npass: ended 0 started 1 planned 0\norders n1 1 1\n"
        ++ codes "launch 1.1 cpus=0-3 mem=4000 run=60 exit=0\npass: ended 1 started 0 planned 0\norders n1 1 3\n"
        ++ codes "kill 1.1\norders n1 1 4\npass: idle\npass: ended 0 started 0 planned 0\n" }
{}

/// A job is cancelled by its owner, once.
#[tactic(none)]
pub fn cancels()
    ensures cancelled { script_of on_one_node
        (codes "0 alice sbatch -n 1 -t 1\n0 bob scancel 1\n0 alice scancel 1\n0 alice scancel 1\n")
        ≡ codes "Submitted batch job 1\nscancel: error: AccessDenied (11)\nscancel: error: AlreadyDone (12)\n" }
    ensures shown { script_of on_one_node
        (codes "0 alice sbatch -n 1 -t 1\n0 alice scancel -u alice\n0 alice squeue -h -t CA -o '%i %t'\n")
        ≡ codes "Submitted batch job 1\n1 CA\n" }
    ensures unknown { script_of on_one_node
        (codes "0 alice scancel 7\n0 alice scancel -u bob\n0 alice scancel -u alice\n")
        ≡ codes "scancel: error: InvalidJobId (10)\nscancel: error: AccessDenied (11)\n" }
{}

/// What isn't a header, and words that ask nothing.
#[tactic(none)]
pub fn other_headers()
    ensures long_moment { script_of on_one_node
        (codes "000000000000000000001 bob sbatch -n 1 -t 1\n")
        ≡ bad_header_text }
    ensures no_command { script_of on_one_node (codes "100 alice\n") ≡ bad_header_text }
    ensures open_quote { script_of on_one_node
        (codes "100 alice sbatch \"x\n")
        ≡ codes "slurm: error: byte 17: BadWords\n" }
    ensures no_task { script_of on_one_node
        (codes "100 alice sbatch -n 0 -t 1\n")
        ≡ codes "sbatch: error: word 3: BadValue\n" }
    ensures two_blanks { script_of on_one_node
        (codes "100 alice sbatch -n 1  -t 1\n")
        ≡ codes "Submitted batch job 1\n" }
    ensures twice { script_of on_one_node
        (codes "100 alice sbatch -n 5 -n 1 -t 1\n")
        ≡ codes "Submitted batch job 1\n" }
    ensures more { script_of on_one_node (codes "100 root pass now\n") ≡ codes "pass: error: word 2: StrayWord\n" }
    ensures stray_first { script_of on_one_node
        (codes "100 root pass now <<\n.\n")
        ≡ codes "pass: error: word 1: StrayWord\n" }
    ensures other_command { script_of on_one_node
        (codes "100 alice salloc\n")
        ≡ codes "slurm: error: word 1: UnknownCommand\n" }
    ensures other_command_first { script_of on_one_node
        (codes "100 alice salloc <<\n.\n")
        ≡ codes "slurm: error: word 1: UnknownCommand\n" }
    ensures other_action { script_of on_one_node
        (codes "0 root scontrol reboot\n")
        ≡ codes "slurm: error: word 2: UnknownCommand\n" }
    ensures no_action { script_of on_one_node
        (codes "0 root scontrol\n")
        ≡ codes "scontrol: error: word 2: MissingWord\n" }
{}

/// What scontrol(1) does to jobs, and to the controller.
#[tactic(none)]
pub fn operated()
    ensures hold { script_of on_one_node
        (codes "0 alice sbatch -n 4 -t 1\n0 alice scontrol hold 1\n1 root pass\n")
        ≡ codes "Submitted batch job 1\npass: idle\n" }
    ensures release { script_of on_one_node
        (codes "0 alice sbatch -H -t 1\n0 bob scontrol release 1\n0 alice scontrol release 1\n1 root pass\n")
        ≡ codes "Submitted batch job 1\nscontrol: error: AccessDenied (11)\npass: ended 0 started 1 planned 0\n" }
    ensures shutdown { script_of on_one_node
        (codes "0 root scontrol shutdown\n0 alice sbatch -t 1\n")
        ≡ codes "sbatch: error: ShuttingDown (22)\n" }
    ensures partition { script_of on_one_node
        (codes "0 root scontrol update PartitionName=main State=DRAIN\n0 alice sbatch -t 1\n")
        ≡ codes "sbatch: error: PartitionClosed (1)\n" }
{}
