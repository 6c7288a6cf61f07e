//! The volume of the workload.

ghost use Rattle.std.specs.Prelude.{◌≡◌, ◌<◌, IfOk};
ghost use Rattle.rz_generate.specs.Workload.{cluster_of, volume};

use mj_angles::Layout;
use rz_config::{ClusterSpec, NodeSpec, Volume};
use std::alloc::{AllocError, Global};

/// How many nodes a cluster has.
const NODES: u16 = 8;

/// A cluster of eight nodes, numbered from `first` on.
fn cluster(alloc: Global, cid: u16, first: u16) -> Result<ClusterSpec, AllocError>
    requires { first < 256 }
    ensures { IfOk result (λ c. c ≡ cluster_of cid first) }
{
    let mut nodes = Vec::new(alloc);
    for place in 0..NODES {
        nodes.push(NodeSpec {
            sid: first + place,
            cells: 4096,
        })?;
    }
    Ok(ClusterSpec { cid, nodes })
}

/// Layout 1 with blocks of 4096 bytes, and two clusters of eight nodes.
#[tactic(auto, unfolding(crate::specs::Workload::volume))]
pub fn workload_volume(alloc: Global) -> Result<Volume, AllocError>
    ensures { IfOk result (λ v. v ≡ volume) }
{
    let one = cluster(alloc, 1, 1)?;
    let two = cluster(alloc, 2, 9)?;
    let clusters = vec![in alloc; one, two]?;
    Ok(Volume {
        layout: Layout::L1,
        bsize: Layout::L1.bsize(),
        clusters,
    })
}
