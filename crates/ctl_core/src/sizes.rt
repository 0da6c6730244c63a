//! How much requests take of the history's room.

ghost use Rattle.std.specs.Prelude.{◌≡◌, ◌+◌, ◌*◌, ◌<◌, ◌^◌, ◌≤◌, IfSome, IsTrue, is_some, length, nat_le, sum_by};
ghost use Rattle.ctl_state.specs.State.{state_of, last_size, shutdown_size};
ghost use Rattle.ctl_core.specs.Sizes;

use ctl_state::cluster::Cluster;
use plain_data::conf::{Conf, PartConf};
use plain_data::items::Items;
use plain_data::job::JobDesc;
use request_data::report::Report;
use request_data::request::Request;
use request_data::reservation::ReservationDesc;
use request_data::target::{Target, Targets};
use small_texts::name::Name;

// The greatest sum of the sizes of accepted requests.
const LAST_SIZE: u128 = 1_073_741_824;

// The size of a shutdown's entry.
const SHUTDOWN_SIZE: u64 = 256;

// What is listed counts 32 each.
fn listing(count: u128) -> u128
    requires { count < 2 ^ 66 }
    ensures { result ≡ Sizes.listing count }
{
    256 + 32 * count
}

fn size_of_job(desc: &JobDesc) -> u128
    ensures value { result ≡ 2048 + 4 * (length desc.now.required + length desc.now.excluded) }
    ensures small { result < 2 ^ 80 }
{
    let required = desc.required.as_slice().len() as u128;
    let excluded = desc.excluded.as_slice().len() as u128;
    2048 + 4 * (required + excluded)
}

fn listed(targets: &Targets) -> u128
    ensures value { result ≡ Sizes.targets_listed targets.now }
    ensures few { result < 2 ^ 64 }
{
    match targets {
        Targets::List(targets) => targets.as_slice().len() as u128,
        Targets::User(_) => 1,
    }
}

fn size_of_report(report: &Report) -> u128
    ensures value { result ≡ Sizes.listing (1 + (length report.now.running + length report.now.done)) }
    ensures small { result < 2 ^ 80 }
{
    let running = report.running.as_slice().len() as u128;
    let done = report.done.as_slice().len() as u128;
    listing(1 + (running + done))
}

fn size_of_targets(targets: &Items<Target>) -> u128
    ensures value { result ≡ Sizes.listing (length targets.now) }
    ensures small { result < 2 ^ 80 }
{
    listing(targets.as_slice().len() as u128)
}

fn size_of_names(names: &Items<Name>) -> u128
    ensures value { result ≡ Sizes.listing (length names.now) }
    ensures small { result < 2 ^ 80 }
{
    listing(names.as_slice().len() as u128)
}

fn size_of_reservation(desc: &ReservationDesc) -> u128
    ensures value { result ≡ Sizes.listing (Sizes.reservation_listed desc.now) }
    ensures small { result < 2 ^ 80 }
{
    let nodes = desc.nodes.as_slice().len() as u128;
    let users = desc.users.as_slice().len() as u128;
    let accounts = desc.accounts.as_slice().len() as u128;
    listing(1 + (nodes + (users + accounts)))
}

// How many nodes the partitions name, each as often as one does.
fn nodes_listed(partitions: &[PartConf]) -> u128
    requires { length partitions.now ≤ 64 }
    ensures value { result ≡ Sizes.nodes_listed partitions.now }
    ensures small { result < 2 ^ 72 }
{
    let mut nodes = 0;
    for partition in partitions {
        nodes += partition.nodes.as_slice().len() as u128;
    }
    nodes
}

fn size_of_conf(conf: &Conf, bytes: u32) -> u128
    ensures value { result ≡ Sizes.conf_listed conf.now bytes }
    ensures small { result < 2 ^ 80 }
{
    let nodes = conf.nodes.as_slice().len() as u128;
    let listed = nodes_listed(conf.partitions.as_slice());
    256 + (u128::from(bytes) + (512 * nodes + 4 * listed))
}

// The size of an entry of the request.
fn size_of(request: &Request) -> u128
    ensures value { result ≡ Sizes.size_of request.now }
    ensures small { result < 2 ^ 80 }
{
    match request {
        Request::Submit(desc) => size_of_job(desc),
        Request::Cancel(targets) => listing(listed(targets)),
        Request::Hold { targets, .. } => size_of_targets(targets),
        Request::Release { targets } => size_of_targets(targets),
        Request::Requeue { .. } => listing(1),
        Request::UpdateJob { .. } => listing(1),
        Request::UpdateNode { nodes, .. } => size_of_names(nodes),
        Request::UpdatePartition { .. } => listing(1),
        Request::CreateReservation(desc) => size_of_reservation(desc),
        Request::DeleteReservation { .. } => listing(1),
        Request::Report(report) => size_of_report(report),
        Request::Reconfigure { conf, bytes } => size_of_conf(conf, *bytes),
        Request::Pass | Request::Shutdown | Request::Show(_) => listing(0),
    }
}

// Whether the request is a shutdown, which the history always takes.
fn is_shutdown(request: &Request) -> bool
    ensures value { result ≡ Sizes.is_shutdown request.now }
    ensures size { IsTrue result → Sizes.size_of request.now ≡ shutdown_size }
{
    matches!(request, Request::Shutdown)
}

// The size, where the history has room for it.
fn within(cluster: &Cluster, size: u128) -> Option<u64>
    requires { size < 2 ^ 80 }
    ensures room { is_some result ≡ nat_le (cluster.now.size + size) last_size }
    ensures value { IfSome result (λ some. some ≡ size) }
    ensures within { IfSome result (λ some. cluster.now.size + some ≤ last_size) }
{
    if u128::from(cluster.size) + size <= LAST_SIZE {
        Some(size as u64)
    } else {
        None
    }
}

/// The size of an entry of the request, where the history can take it.
pub(crate) fn room_for(cluster: &Cluster, request: &Request) -> Option<u64>
    ensures room { is_some result ≡ Sizes.has_room (state_of cluster.now) request.now }
    ensures value { IfSome result (λ size. size ≡ Sizes.size_of request.now) }
    ensures fits { IfSome result (λ size. size ≤ last_size + shutdown_size) }
{
    if is_shutdown(request) {
        return Some(SHUTDOWN_SIZE);
    }
    within(cluster, size_of(request))
}
