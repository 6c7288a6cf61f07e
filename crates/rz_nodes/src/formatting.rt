//! Disks are formatted one after another.
ghost use Rattle.std.specs.Prelude.{◌≡◌, ◌≤◌, IfOk, IfErr, length};
ghost use Rattle.std.specs.List.{AllByRecursion};
ghost use Rattle.std.specs.Vec.{vec_len, vec_capacity};
ghost use Rattle.rz_disk.specs.Meter.{Rises, faults};
ghost use Rattle.rz_events.specs.Volume.{IsNode};
ghost use Rattle.rz_nodes.specs.Formatted.{AreBack, AreFormatted, IsBack, IsCause, IsNodeFormatted};

use crate::back::hand_back;
use crate::fault::{DriverFault, fault_at};
use mj_angles::Layout;
use rz_disk::{Disk, Fused};
use rz_events::NodeSpec;
use rz_node::{FormatFault, Geometry, Node};
use std::alloc::Global;

/// A node, its number, and how the next crash of its disk picks.
#[derive(Drop)]
pub struct Server<D: Disk> {
    pub sid: u16,
    pub node: Node<D>,
    pub pick: u64,
}

/// The nodes in order, each on its disk, and the emptied vector of the disks, which has room for them all.
pub fn format_all<D: Disk>(
    alloc: Global,
    layout: Layout,
    nodes: &[NodeSpec],
    disks: Vec<D>,
) -> Result<(Vec<Server<Fused<D>>>, Vec<D>), (Vec<D>, DriverFault)>
    requires nodes { AllByRecursion IsNode nodes.now }
    requires count { length disks.items ≡ length nodes.now }
    ensures made { IfOk result (λ r. AreFormatted D.tells D.meter D.text D.image layout nodes.now disks.items r.0.items) }
    ensures empty { IfOk result (λ r. vec_len r.1 ≡ 0) }
    ensures room { IfOk result (λ r. vec_len r.0 ≤ vec_capacity r.1) }
    ensures back { IfErr result (λ r. AreBack D.tells D.meter D.image layout nodes.now disks.items r.0.items) }
    ensures cause { IfErr result (λ r. IsCause D.meter disks.items r.0.items r.1) }
{
    let Ok(mut servers) = Vec::with_capacity(alloc, nodes.len()) else {
        return Err((disks, DriverFault::NoMemory));
    };
    let mut home = disks;
    home.reverse();
    for (index, node) in nodes.iter().enumerate() {
        let Some(disk) = home.pop() else {
            return Err((hand_back(servers, home), DriverFault::NoMemory));
        };
        match format_one(alloc, layout, *node, disk) {
            Ok(server) => {
                let _made = servers.push(server);
            }
            Err((disk, fault)) => {
                let _back = home.push(disk);
                return Err((hand_back(servers, home), fault_at(fault, index)));
            }
        }
    }
    Ok((servers, home))
}

/// A node on a disk that is formatted for it.
fn format_one<D: Disk>(
    alloc: Global,
    layout: Layout,
    node: NodeSpec,
    disk: D,
) -> Result<Server<Fused<D>>, (D, FormatFault)>
    requires node { IsNode node }
    ensures made { IfOk result (λ s. IsNodeFormatted D.tells D.meter D.text D.image layout (node, disk) s) }
    ensures back { IfErr result (λ r. IsBack D.tells D.meter D.image layout (node, disk) r.0) }
    ensures risen { IfErr result (λ r. r.1 ≡ FormatFault.DiskFault → Rises (faults (D.meter disk)) (faults (D.meter r.0))) }
{
    let geometry = Geometry {
        layout,
        bsize: layout.bsize(),
        node: node.sid,
        cells: node.cells,
    };
    match Node::format(alloc, geometry, Fused::new(disk)) {
        Ok(made) => Ok(Server {
            sid: node.sid,
            node: made,
            pick: 0,
        }),
        Err((fused, fault)) => Err((fused.into_inner(), fault)),
    }
}
