//! Where the projections of a file may lie.

ghost use Rattle.std.specs.Prelude.{◌≡◌, ◌==◌, ◌≤◌, length};
ghost use Rattle.std.specs.List.{list_all, list_any};
ghost use Rattle.rz_export.specs.Building.{is_home};
ghost use Rattle.rz_export.specs.Allowed.{are_distinct, lies_in};

use crate::refusals::FILE_BLOCKS;
use rz_config::{ClusterSpec, Volume};
use rz_events::NodeSpec;

/// Whether a file of this size may lie so: on as many nodes of one cluster as the layout has
/// positions, no node twice. The size in bytes is at most that of all blocks of a file.
pub fn lies_in(volume: &Volume, cid: u16, places: &[u16], size: u64) -> bool
    ensures { result ≡ lies_in volume.now cid places.now size }
{
    let layout = volume.layout;
    let most = FILE_BLOCKS * layout.block_bytes() as u64;
    any_home(volume.clusters.as_slice(), cid, places)
        && places.len() == layout.safe()
        && are_distinct(places)
        && size <= most
}

// Whether one of these clusters has the number, and all these nodes.
fn any_home(clusters: &[ClusterSpec], cid: u16, places: &[u16]) -> bool
    ensures { result ≡ list_any (is_home cid places.now) clusters.now }
{
    match clusters {
        [] => false,
        [first, rest @ ..] => is_home(first, cid, places) || any_home(rest, cid, places),
    }
}

// Whether a cluster has the number, and all these nodes.
fn is_home(cluster: &ClusterSpec, cid: u16, places: &[u16]) -> bool
    ensures { result ≡ is_home cid places.now cluster.now }
{
    cluster.cid == cid && has_all(cluster.nodes.as_slice(), places)
}

// Whether all these places are numbers of these nodes.
fn has_all(nodes: &[NodeSpec], places: &[u16]) -> bool
    ensures { result ≡ list_all (λ node. list_any (λ n. n.sid == node) nodes.now) places.now }
{
    match places {
        [] => true,
        [place, rest @ ..] => has_node(nodes, *place) && has_all(nodes, rest),
    }
}

// Whether a number is one of these nodes'.
fn has_node(nodes: &[NodeSpec], node: u16) -> bool
    ensures { result ≡ list_any (λ n. n.sid == node) nodes.now }
{
    nodes.iter().any(|n| n.sid == node)
}

// Whether no number stands twice.
fn are_distinct(numbers: &[u16]) -> bool
    ensures { result ≡ are_distinct numbers.now }
{
    match numbers {
        [] => true,
        [first, rest @ ..] => !rest.contains(first) && are_distinct(rest),
    }
}
