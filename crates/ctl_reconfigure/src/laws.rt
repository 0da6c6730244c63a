//! What holds of every new slurm.conf(5). A law is the contract of a function that does nothing but call the laws it
//! rests on.

ghost use Rattle.std.specs.Prelude.{◌≡◌, ◌≤◌, ◌<◌, ℕ, true, List, length, map, All, None, Some, slice_get};
ghost use Rattle.std.specs.List.{AllZip};
ghost use Rattle.plain_data.specs.Confs.{ConfView};
ghost use Rattle.backfill_planner.specs.declared.Placed.{Placed};
ghost use Rattle.backfill_planner.specs.declared.Share.{Share};
ghost use Rattle.node_state.specs.declared.record.NodeRecord.{NodeRecord};
ghost use Rattle.node_state.specs.Reservations.{has};
ghost use Rattle.ctl_state.specs.Refusals.{first_refusal};
ghost use Rattle.ctl_state.specs.Soundness.{IsSound};
ghost use Rattle.ctl_state.specs.State.{State, last_moment};
ghost use Rattle.ctl_state.specs.Verdicts.{stamped};
ghost use Rattle.ctl_reconfigure.specs.Blocking.{blocked, is_needed};
ghost use Rattle.ctl_reconfigure.specs.Files.{IsFile};
ghost use Rattle.ctl_reconfigure.specs.Names.{conf_names};
ghost use Rattle.ctl_reconfigure.specs.Naming.{NamesSame, job_anywhere, node_planned, nodes_held, partition_meant, placed_anywhere, reservation_anywhere};
ghost use Rattle.ctl_reconfigure.specs.Reconfiguring.{reconfigured, share_after, share_names};
ghost use Rattle.ctl_reconfigure.specs.Refusing.{reconfigure_refusals};
ghost use Rattle.ctl_reconfigure.specs.Same.{is_same};

use node_state::partition_laws::opened_partitions_are_on_nodes;

/// A new file that isn't refused keeps all sound.
pub fn a_reconfiguration_keeps_all_sound()
    ensures { (s : State) (moment : ℕ) (user : List ℕ) (conf : ConfView)
        → IsSound s → s.moment ≤ moment → moment ≤ last_moment → IsFile conf
        → first_refusal (reconfigure_refusals s user conf) ≡ None
        → IsSound (stamped moment (reconfigured s moment conf)) }
{
    opened_partitions_are_on_nodes();
}

/// A file that says what is in force leaves the state as it is, and only such a one does.
pub fn an_idle_reconfiguration_changes_nothing()
    ensures idle { (s : State) (moment : ℕ) (conf : ConfView)
        → IsSound s → is_same s conf ≡ true → reconfigured s moment conf ≡ s }
    ensures only { (s : State) (moment : ℕ) (conf : ConfView)
        → reconfigured s moment conf ≡ s → is_same s conf ≡ true }
{}

/// Where nothing stands against the file, each part of a job is of the node of which it was, each job of its partition,
/// and each reservation of its nodes.
pub fn a_reconfiguration_moves_nothing_to_others()
    ensures parts { (s : State) (moment : ℕ) (conf : ConfView) → IsSound s → blocked s conf ≡ None
        → map (nodes_held (reconfigured s moment conf)) (reconfigured s moment conf).jobs ≡ map (nodes_held s) s.jobs }
    ensures partitions { (s : State) (moment : ℕ) (conf : ConfView) → IsSound s → blocked s conf ≡ None
        → map (partition_meant (reconfigured s moment conf)) (reconfigured s moment conf).jobs
        ≡ map (partition_meant s) s.jobs }
    ensures reservations { (s : State) (moment : ℕ) (conf : ConfView) → IsSound s → blocked s conf ≡ None
        → AllZip (NamesSame s (reconfigured s moment conf)) s.reservations (reconfigured s moment conf).reservations }
{}

/// Whatever the file is, nothing else changes of a job, of a reservation or of a placement, and the first number of jobs
/// stays.
pub fn a_reconfiguration_changes_places_alone()
    ensures jobs { (s : State) (moment : ℕ) (conf : ConfView)
        → map job_anywhere (reconfigured s moment conf).jobs ≡ map job_anywhere s.jobs }
    ensures reservations { (s : State) (moment : ℕ) (conf : ConfView)
        → map reservation_anywhere (reconfigured s moment conf).reservations ≡ map reservation_anywhere s.reservations }
    ensures plan { (s : State) (moment : ℕ) (conf : ConfView)
        → map placed_anywhere (reconfigured s moment conf).plan ≡ map placed_anywhere s.plan }
    ensures first { (s : State) (moment : ℕ) (conf : ConfView)
        → (reconfigured s moment conf).settings.first_job_id ≡ s.settings.first_job_id }
{}

/// Whatever the file is, each share of the plan that names a node names it still, be it gone or not.
pub fn a_plan_names_the_same_nodes()
    ensures { (s : State) (moment : ℕ) (conf : ConfView)
        → All (λ (placed : Placed). All (λ (share : Share). share.node < length (share_names s)
        → node_planned (reconfigured s moment conf) (share_after s conf share) ≡ node_planned s share) placed.parts)
        s.plan }
{}

/// A node that jobs or reservations need has a line where nothing stands against the file.
pub fn what_is_needed_stays()
    ensures { (s : State) (conf : ConfView) (place : ℕ) (node : NodeRecord) → blocked s conf ≡ None
        → slice_get s.nodes place ≡ Some node → is_needed s place ≡ true
        → has (conf_names conf.nodes) node.conf.name ≡ true }
{}
