//! Volumes and the sizes of their disks.

ghost use Rattle.std.specs.Prelude.{◌≡◌, ◌<◌, ◌^◌, length, IfOk};
ghost use Rattle.rz_events.specs.Volume.{nodes_of, IsVolume};
ghost use Rattle.rz_config.specs.Plain.{plain_volume};
ghost use Rattle.rz_config.specs.Sizes.{disk_bytes_of, cluster_bytes_of, all_disk_bytes};

use crate::{Layout, NodeSpec};
use std::alloc::{AllocError, Global};
use std::marker::Model;

/// A cluster: its number, 1 to 65535, and its nodes in the order of the description.
#[derive(Debug, Drop)]
pub struct ClusterSpec {
    pub cid: u16,
    pub nodes: Vec<NodeSpec>,
}

impl Model for ClusterSpec {
    ghost use Rattle.rz_events.specs.Volume.{Cluster};

    ghost Value = { Cluster };

    ghost view = { λ c. record { cid = c.cid; nodes = c.nodes.items } };
}

/// A volume: its layout and its clusters in the order of the description. `bsize` is the layout's own
/// byte of the block size.
#[derive(Debug, Drop)]
pub struct Volume {
    pub layout: Layout,
    pub bsize: u8,
    pub clusters: Vec<ClusterSpec>,
}

impl Model for Volume {
    ghost use Rattle.std.specs.Prelude.{◌≡◌};
    ghost use Rattle.mj_angles.specs.Layout.{bsize_of};
    ghost use Rattle.rz_events.specs.Volume as model;
    ghost use Rattle.rz_events.specs.Volume.{IsVolume};

    ghost Value = { model.Volume };

    ghost view = { λ v. record { layout = v.layout; clusters = v.clusters.items } };

    ghost invariant = { λ v. (v.bsize ≡ bsize_of v.layout) × IsVolume (record { layout = v.layout; clusters = v.clusters.items }) };
}

impl ClusterSpec {
    /// An equal cluster.
    pub fn copy(&self, alloc: Global) -> Result<ClusterSpec, AllocError>
        ensures { IfOk result (λ c. c ≡ self.now) }
    {
        let nodes = Vec::from_slice(alloc, self.nodes.as_slice())?;
        Ok(ClusterSpec {
            cid: self.cid,
            nodes,
        })
    }
}

/// How many nodes these clusters have.
#[tactic(auto, using(crate::proofs::Sums::nodes_of_length))]
pub(crate) fn node_count(clusters: &[ClusterSpec]) -> usize
    requires { length (nodes_of clusters.now) < 2 ^ 64 }
    ensures { result ≡ length (nodes_of clusters.now) }
{
    clusters.iter().map(|c| c.nodes.len()).sum()
}

/// The bytes of a disk with so many pairs of cells.
fn disk_bytes_of(layout: Layout, pairs: u32) -> u64
    ensures { result ≡ disk_bytes_of layout pairs }
{
    let slot = 48 + 8 * layout.max_bins() as u64;
    let pairs = u64::from(pairs);
    64 + 2 * pairs + 4 * pairs * slot
}

/// The bytes of the disks of a cluster.
fn cluster_bytes_of(layout: Layout, cluster: &ClusterSpec) -> u64
    requires { cluster_bytes_of layout cluster.now < 2 ^ 64 }
    ensures { result ≡ cluster_bytes_of layout cluster.now }
{
    let nodes = cluster.nodes.as_slice();
    nodes.iter().map(|n| disk_bytes_of(layout, n.cells)).sum()
}

impl Volume {
    /// The volume that serves where none is described: layout 0 with blocks of 4096 bytes, and one
    /// cluster of the nodes 1 to 4 with 64 pairs of cells each.
    pub fn plain(alloc: Global) -> Result<Volume, AllocError>
        ensures { IfOk result (λ v. v ≡ plain_volume) }
    {
        let cells = 64;
        let nodes = vec![in alloc;
            NodeSpec { sid: 1, cells },
            NodeSpec { sid: 2, cells },
            NodeSpec { sid: 3, cells },
            NodeSpec { sid: 4, cells },
        ]?;
        let clusters = vec![in alloc; ClusterSpec { cid: 1, nodes }]?;
        Ok(Volume {
            layout: Layout::L0,
            bsize: Layout::L0.bsize(),
            clusters,
        })
    }

    /// An equal volume.
    pub fn copy(&self, alloc: Global) -> Result<Volume, AllocError>
        ensures { IfOk result (λ v. v ≡ self.now) }
    {
        let mut clusters = Vec::new(alloc);
        for cluster in &self.clusters {
            let cluster = cluster.copy(alloc)?;
            clusters.push(cluster)?;
        }
        Ok(Volume {
            layout: self.layout,
            bsize: self.bsize,
            clusters,
        })
    }

    /// How many nodes the volume has, at most 256.
    pub fn node_count(&self) -> usize
        ensures value { result ≡ length (nodes_of self.now.clusters) }
        ensures rules { IsVolume self.now }
    {
        node_count(self.clusters.as_slice())
    }

    /// The bytes of all disks of the volume.
    pub fn disk_bytes(&self) -> u64
        ensures value { result ≡ all_disk_bytes self.now }
        ensures rules { IsVolume self.now }
    {
        let layout = self.layout;
        let mut total = 0;
        for cluster in &self.clusters {
            total += cluster_bytes_of(layout, cluster);
        }
        total
    }
}
