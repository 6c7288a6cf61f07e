//! The reading of a description, from the top down.

ghost use Rattle.std.specs.Prelude.{◌≡◌, ◌≤◌, [], ◌<◌, ◌++◌, ◌==◌, codes, length};
ghost use Rattle.std.specs.List.{list_any};
ghost use Rattle.serde_json.specs.View.{view, items_view};
ghost use Rattle.mj_angles.specs.Layout.{number_of, block_bytes_of, safe_of};
ghost use Rattle.rz_events.specs.Volume.{nodes_of};
ghost use Rattle.rz_config.specs.Answers.{Gives};
ghost use Rattle.rz_config.specs.Described.{layout_of, layouts, has_sid, has_cid, described_node, nodes_from, described_cid, described_nodes, described_cluster, clusters_from, described_layout, described_clusters, described_volume, volume_of_text};

use crate::parts::{
    ObjectKind, fault, fault_at, index_path, key_path, read_list, read_member, read_number,
    read_number_within, read_object,
};
use crate::volume::node_count;
use crate::{ClusterSpec, Layout, NodeSpec, Volume, VolumeCause, VolumeError};
use serde_json::Value;
use std::alloc::Global;

const LAYOUTS: [Layout; 12] = [
    Layout::L0,
    Layout::L0B1,
    Layout::L0B2,
    Layout::L0B3,
    Layout::L1,
    Layout::L1B1,
    Layout::L1B2,
    Layout::L1B3,
    Layout::L2,
    Layout::L2B1,
    Layout::L2B2,
    Layout::L2B3,
];

/// The layout with this number and so many bytes of a block.
#[tactic(auto, unfolding(crate::specs::Described::layout_of))]
fn layout_of(number: u64, bytes: u64) -> Option<Layout>
    ensures { result ≡ layout_of number bytes }
{
    LAYOUTS.iter().copied().find(|y| u64::from(y.number()) == number
        && y.block_bytes() as u64 == bytes)
}

/// Whether one of these nodes has this number.
fn is_among(nodes: &[NodeSpec], sid: u16) -> bool
    ensures { result ≡ has_sid sid nodes.now }
{
    nodes.iter().any(|n| n.sid == sid)
}

/// Whether a node of these clusters has this number.
fn is_in(clusters: &[ClusterSpec], sid: u16) -> bool
    ensures { result ≡ list_any (λ c. has_sid sid c.nodes) clusters.now }
{
    clusters.iter().any(|c| is_among(c.nodes.as_slice(), sid))
}

/// Whether a node of these clusters, or one of these, has this number.
#[tactic(auto, using(crate::proofs::Keys::has_sid_split))]
fn has_sid(clusters: &[ClusterSpec], nodes: &[NodeSpec], sid: u16) -> bool
    ensures { result ≡ has_sid sid (nodes_of clusters.now ++ nodes.now) }
{
    is_in(clusters, sid) || is_among(nodes, sid)
}

/// A node, whose number is none of those before it.
#[tactic(auto, unfolding(crate::specs::Described::described_node))]
fn read_node(
    alloc: Global,
    path: &str,
    clusters: &[ClusterSpec],
    nodes: &[NodeSpec],
    value: &Value,
) -> Result<NodeSpec, VolumeError>
    ensures { Gives (λ n. n) result (described_node path.now (nodes_of clusters.now ++ nodes.now) (view value.now)) }
{
    read_object(alloc, path, ObjectKind::Node, value)?;
    let sid = read_member(alloc, path, "sid", 1, 65535, value)? as u16;
    if has_sid(clusters, nodes, sid) {
        return Err(fault_at(alloc, path, "sid", VolumeCause::Twice));
    }
    let cells = read_member(alloc, path, "cells", 1, 1_048_576, value)? as u32;
    Ok(NodeSpec { sid, cells })
}

/// Finds the nodes of a cluster, after these clusters.
#[tactic(auto, unfolding(crate::specs::Described::nodes_from))]
fn read_nodes(
    alloc: Global,
    path: &str,
    clusters: &[ClusterSpec],
    items: &[Value],
    nodes: &mut Vec<NodeSpec>,
) -> Result<(), VolumeError>
    requires { nodes.old.items ≡ [] }
    ensures { Gives (λ _. nodes.new.items) result (nodes_from path.now clusters.now 0 [] (items_view items.now)) }
{
    for i in 0..items.len() {
        nodes.reserve(1)?;
        let place = index_path(alloc, path, i)?;
        let node = read_node(alloc, place.as_str(), clusters, nodes.as_slice(), &items[i])?;
        nodes.push_reserved(node);
    }
    Ok(())
}

/// Whether one of these clusters has this number.
fn has_cid(clusters: &[ClusterSpec], cid: u16) -> bool
    ensures { result ≡ has_cid cid clusters.now }
{
    clusters.iter().any(|c| c.cid == cid)
}

/// The number of a cluster, which is none of those before it.
#[tactic(auto, unfolding(crate::specs::Described::described_cid))]
fn read_cid(
    alloc: Global,
    path: &str,
    before: &[ClusterSpec],
    value: &Value,
) -> Result<u16, VolumeError>
    ensures { Gives (λ n. n) result (described_cid path.now before.now (view value.now)) }
{
    let cid = read_member(alloc, path, "cid", 1, 65535, value)? as u16;
    if has_cid(before, cid) {
        return Err(fault_at(alloc, path, "cid", VolumeCause::Twice));
    }
    Ok(cid)
}

/// The nodes of a cluster, at least `safe`.
#[tactic(auto, unfolding(crate::specs::Described::described_nodes))]
fn read_list_of_nodes(
    alloc: Global,
    path: &str,
    safe: usize,
    before: &[ClusterSpec],
    value: &Value,
) -> Result<Vec<NodeSpec>, VolumeError>
    ensures { Gives (λ v. v.items) result (described_nodes path.now safe before.now (view value.now)) }
{
    let place = key_path(alloc, path, "nodes")?;
    let path = place.as_str();
    let list = value.get("nodes");
    let items = read_list(alloc, path, safe, VolumeCause::TooFewNodes, 64, list)?;
    let mut nodes = Vec::new(alloc);
    match read_nodes(alloc, path, before, items, &mut nodes) {
        Ok(()) => Ok(nodes),
        Err(error) => {
            drop(nodes);
            Err(error)
        }
    }
}

/// A cluster of at least `safe` nodes, after these clusters.
#[tactic(auto, unfolding(crate::specs::Described::described_cluster))]
fn read_cluster(
    alloc: Global,
    path: &str,
    safe: usize,
    before: &[ClusterSpec],
    value: &Value,
) -> Result<ClusterSpec, VolumeError>
    ensures { Gives (λ c. c) result (described_cluster path.now safe before.now (view value.now)) }
{
    read_object(alloc, path, ObjectKind::Cluster, value)?;
    let cid = read_cid(alloc, path, before, value)?;
    let nodes = read_list_of_nodes(alloc, path, safe, before, value)?;
    Ok(ClusterSpec { cid, nodes })
}

/// The clusters.
#[tactic(auto, unfolding(crate::specs::Described::clusters_from))]
fn read_clusters(
    alloc: Global,
    safe: usize,
    items: &[Value],
) -> Result<Vec<ClusterSpec>, VolumeError>
    ensures { Gives (λ v. v.items) result (clusters_from (codes "clusters") safe 0 [] (items_view items.now)) }
{
    let mut clusters = Vec::new(alloc);
    for i in 0..items.len() {
        clusters.reserve(1)?;
        let place = index_path(alloc, "clusters", i)?;
        let cluster = read_cluster(alloc, place.as_str(), safe, clusters.as_slice(), &items[i])?;
        clusters.push_reserved(cluster);
    }
    Ok(clusters)
}

/// The layout with the number and the bytes of a block that a description gives.
#[tactic(auto, unfolding(crate::specs::Described::described_layout))]
fn read_layout(alloc: Global, value: &Value) -> Result<Layout, VolumeError>
    ensures { Gives (λ y. y) result (described_layout (view value.now)) }
{
    let number = read_number_within(alloc, "layout", 0, 2, value.get("layout"))?;
    let bytes = read_number(alloc, "bsize", value.get("bsize"))?;
    match layout_of(number, bytes) {
        Some(layout) => Ok(layout),
        None => Err(fault(alloc, "bsize", VolumeCause::OutOfRange)),
    }
}

/// The clusters of a volume whose files have `safe` positions.
#[tactic(auto, unfolding(crate::specs::Described::described_clusters))]
fn read_list_of_clusters(
    alloc: Global,
    safe: usize,
    value: &Value,
) -> Result<Vec<ClusterSpec>, VolumeError>
    ensures { Gives (λ v. v.items) result (described_clusters safe (view value.now)) }
{
    let list = value.get("clusters");
    let items = read_list(alloc, "clusters", 1, VolumeCause::OutOfRange, 16, list)?;
    let clusters = read_clusters(alloc, safe, items)?;
    if 256 < node_count(clusters.as_slice()) {
        drop(clusters);
        return Err(fault(alloc, "clusters", VolumeCause::TooMany));
    }
    Ok(clusters)
}

/// The volume that a value describes.
#[tactic(auto, unfolding(crate::specs::Described::described_volume))]
fn read_volume(alloc: Global, value: &Value) -> Result<Volume, VolumeError>
    ensures { Gives (λ v. v) result (described_volume (view value.now)) }
{
    read_object(alloc, "", ObjectKind::Volume, value)?;
    let layout = read_layout(alloc, value)?;
    let clusters = read_list_of_clusters(alloc, layout.safe(), value)?;
    Ok(Volume {
        layout,
        bsize: layout.bsize(),
        clusters,
    })
}

impl Volume {
    /// The volume that a text describes, or the first fault.
    #[tactic(auto, unfolding(crate::specs::Described::volume_of_text))]
    pub fn read(alloc: Global, text: &str) -> Result<Volume, VolumeError>
        ensures { Gives (λ v. v) result (volume_of_text text.now) }
    {
        match Value::from_str(alloc, text) {
            Ok(value) => read_volume(alloc, &value),
            Err(error) if error.is_memory() => Err(VolumeError::NoMemory),
            Err(_) => Err(fault(alloc, ".", VolumeCause::NotJson)),
        }
    }
}
