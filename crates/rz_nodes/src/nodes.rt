//! The nodes of a volume.
ghost use Rattle.std.specs.Prelude.{◌≡◌, ◌++◌, IfOk, OnOk};
ghost use Rattle.std.specs.List.{AllByRecursion};
ghost use Rattle.rz_events.specs.Volume.{IsVolume, IsNode, nodes_of};

use rz_config::{ClusterSpec, Volume};
use rz_events::NodeSpec;
use std::alloc::{AllocError, Global};

/// The nodes of a volume, in the order of the description.
pub fn all_nodes(alloc: Global, volume: &Volume) -> Result<Vec<NodeSpec>, AllocError>
    ensures nodes { IfOk result (λ v. v.items ≡ nodes_of volume.now.clusters) }
    ensures rules { IsVolume volume.now }
    ensures proper { AllByRecursion IsNode (nodes_of volume.now.clusters) }
{
    let mut nodes = Vec::with_capacity(alloc, volume.node_count())?;
    add_clusters(&mut nodes, volume.clusters.as_slice())?;
    Ok(nodes)
}

/// Adds the nodes of these clusters.
fn add_clusters(nodes: &mut Vec<NodeSpec>, clusters: &[ClusterSpec]) -> Result<(), AllocError>
    ensures { OnOk result (nodes.new.items ≡ nodes.old.items ++ nodes_of clusters.now) }
{
    for cluster in clusters {
        add_nodes(nodes, cluster)?;
    }
    Ok(())
}

/// Adds the nodes of a cluster.
fn add_nodes(nodes: &mut Vec<NodeSpec>, cluster: &ClusterSpec) -> Result<(), AllocError>
    ensures { OnOk result (nodes.new.items ≡ nodes.old.items ++ cluster.now.nodes) }
{
    nodes.extend_from_slice(cluster.nodes.as_slice())
}
