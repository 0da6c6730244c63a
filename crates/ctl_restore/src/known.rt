//! Whether the names lead somewhere that must.

ghost use Rattle.std.specs.Prelude.{◌≡◌, ◌↔◌, IsTrue, All, true};
ghost use Rattle.ctl_state.specs.State.{state_of};
ghost use Rattle.ctl_restore.specs.Fits as spec;
ghost use Rattle.ctl_restore.specs.Fits.{IsKnown, IsKnownJob};
ghost use Rattle.ctl_restore.specs.Steps.{LeadsToUsers};
ghost use Rattle.reply_data.specs.declared.view.NamedPart.{NamedPart as OnePart};
ghost use Rattle.saved_data.specs.declared.parts.SavedNode.{SavedNode as OneNode};
ghost use Rattle.saved_data.specs.declared.parts.SavedPartition.{SavedPartition as OnePartition};
ghost use Rattle.saved_data.specs.declared.parts.SavedReservation.{SavedReservation as OneReservation};
ghost use Rattle.saved_data.specs.declared.parts.SavedUsage.{SavedUsage as OneUsage};

use crate::accounts::place_in;
use ctl_state::cluster::Cluster;
use node_state::nodes::Nodes;
use node_state::partitions::Partitions;
use reply_data::view::NamedPart;
use run_limits::assocs::Assocs;
use saved_data::job::SavedJob;
use saved_data::parts::{SavedNode, SavedPartition, SavedReservation, SavedUsage};
use saved_data::saved::Saved;
use small_texts::name::Name;
use std::collections::HashMap;

#[tactic(auto, unfolding(crate::specs::Fits::is_node))]
fn is_node(nodes: &Nodes, name: &Name) -> bool
    ensures { result ≡ spec.is_node nodes.now.records name.now }
{
    nodes.find(name).is_some()
}

#[tactic(auto, unfolding(crate::specs::Fits::is_partition))]
fn is_partition(partitions: &Partitions, name: &Name) -> bool
    ensures { result ≡ spec.is_partition partitions.now name.now }
{
    partitions.find(Some(name)).is_some()
}

#[tactic(auto, unfolding(crate::specs::Fits::is_user_of))]
fn is_user_of(assocs: &Assocs, users: &HashMap<Name, usize>, user: &Name, account: &Name) -> bool
    requires { LeadsToUsers assocs.now.records users.now }
    ensures { result ≡ spec.is_user_of assocs.now.records user.now account.now }
{
    place_in(assocs, users, user, account).is_some()
}

#[tactic(auto, unfolding(crate::specs::Fits::is_qos))]
fn is_qos(assocs: &Assocs, name: &Name) -> bool
    ensures { result ≡ spec.is_qos assocs.now.qos name.now }
{
    assocs.find_qos(Some(name)).is_some()
}

fn are_partitions(partitions: &Partitions, lines: &[SavedPartition]) -> bool
    ensures { IsTrue result
        ↔ All (λ (line : OnePartition). spec.is_partition partitions.now line.name ≡ true) lines.now }
{
    lines
        .iter()
        .all(|line| is_partition(partitions, &line.name))
}

fn have_nodes(nodes: &Nodes, lines: &[SavedNode]) -> bool
    ensures { IsTrue result ↔ All (λ (line : OneNode). spec.is_node nodes.now.records line.name ≡ true) lines.now }
{
    lines.iter().all(|line| is_node(nodes, &line.name))
}

fn are_users(assocs: &Assocs, users: &HashMap<Name, usize>, lines: &[SavedUsage]) -> bool
    requires { LeadsToUsers assocs.now.records users.now }
    ensures { IsTrue result
        ↔ All (λ (line : OneUsage). spec.is_user_of assocs.now.records line.user line.account ≡ true) lines.now }
{
    lines.iter().all(|line| is_user_of(assocs, users, &line.user, &line.account))
}

#[tactic(auto, unfolding(crate::specs::Fits::are_nodes))]
fn are_nodes(nodes: &Nodes, names: &[Name]) -> bool
    ensures { result ≡ spec.are_nodes nodes.now.records names.now }
{
    names.iter().all(|name| is_node(nodes, name))
}

fn are_reserved(nodes: &Nodes, lines: &[SavedReservation]) -> bool
    ensures { IsTrue result
        ↔ All (λ (line : OneReservation). spec.are_nodes nodes.now.records line.nodes ≡ true) lines.now }
{
    lines
        .iter()
        .all(|line| are_nodes(nodes, line.nodes.as_slice()))
}

fn are_on_nodes(nodes: &Nodes, parts: &[NamedPart]) -> bool
    ensures { IsTrue result ↔ All (λ (part : OnePart). spec.is_node nodes.now.records part.node ≡ true) parts.now }
{
    parts.iter().all(|part| is_node(nodes, &part.node))
}

fn is_known_job(cluster: &Cluster, users: &HashMap<Name, usize>, job: &SavedJob) -> bool
    requires { LeadsToUsers cluster.now.assocs.records users.now }
    ensures { IsTrue result ↔ IsKnownJob (state_of cluster.now) job.now }
{
    let terms = job.terms.get();
    is_partition(&cluster.partitions, &job.partition)
        && is_user_of(&cluster.assocs, users, &job.user, &terms.account)
        && is_qos(&cluster.assocs, &terms.qos)
        && are_on_nodes(&cluster.nodes, job.parts.as_slice())
}

fn are_known_jobs(cluster: &Cluster, users: &HashMap<Name, usize>, jobs: &[SavedJob]) -> bool
    requires { LeadsToUsers cluster.now.assocs.records users.now }
    ensures { IsTrue result ↔ All (IsKnownJob (state_of cluster.now)) jobs.now }
{
    for job in jobs {
        if !is_known_job(cluster, users, job) {
            return false;
        }
    }
    true
}

/// Whether all names lead somewhere that must, in a cluster that has only opened. Linear in the names; for each job
/// linear in the partitions and the qualities of service.
pub fn is_known(cluster: &Cluster, users: &HashMap<Name, usize>, saved: &Saved) -> bool
    requires { LeadsToUsers cluster.now.assocs.records users.now }
    ensures { IsTrue result ↔ IsKnown (state_of cluster.now) saved.now }
{
    are_partitions(&cluster.partitions, saved.partitions.as_slice())
        && have_nodes(&cluster.nodes, saved.nodes.as_slice())
        && are_users(&cluster.assocs, users, saved.usage.as_slice())
        && are_reserved(&cluster.nodes, saved.reservations.as_slice())
        && are_known_jobs(cluster, users, saved.jobs.as_slice())
}
