//! How a node stands, by its record.

ghost use Rattle.std.specs.Prelude.{◌≡◌, bytes_eq};
ghost use Rattle.std.specs.List.{list_all, list_any};
ghost use Rattle.node_state.specs.Nodes;

use crate::record::{DownBy, NodeRecord};
use plain_data::conf::{NodeConf, NodeStart};
use plain_data::features::FeatureExpr;
use plain_data::items::Items;
use small_texts::name::Name;

/// A node of slurm.conf(5) before anything was heard of it.
pub fn opened(conf: NodeConf) -> NodeRecord
    ensures { result ≡ Nodes.opened conf }
{
    NodeRecord {
        down: match conf.state {
            NodeStart::Down => DownBy::Set,
            NodeStart::Unknown | NodeStart::Drain => DownBy::No,
        },
        drain: conf.state == NodeStart::Drain,
        empty: false,
        heard: None,
        conf,
    }
}

/// Whether the node is up.
pub fn is_up(node: &NodeRecord) -> bool
    ensures { result ≡ Nodes.is_up node.now.down }
{
    node.down == DownBy::No
}

/// Whether jobs may start there.
pub fn is_available(node: &NodeRecord) -> bool
    ensures { result ≡ Nodes.is_available node.now }
{
    is_up(node) && !node.drain
}

fn has_feature(node: &NodeRecord, name: &Name) -> bool
    ensures { result ≡ list_any (bytes_eq name.now) node.now.conf.features }
{
    node.conf.features.iter().any(|feature| name.is(feature))
}

fn has_all(node: &NodeRecord, names: &Items<Name>) -> bool
    ensures { result ≡ list_all (λ name. list_any (bytes_eq name) node.now.conf.features) names.now }
{
    names.iter().all(|name| has_feature(node, name))
}

/// Whether the node has the features that a job wants.
pub fn has_features(node: &NodeRecord, features: &FeatureExpr) -> bool
    ensures { result ≡ Nodes.has_features features.now node.now }
{
    features
        .alternatives
        .iter()
        .any(|names| has_all(node, names))
}
