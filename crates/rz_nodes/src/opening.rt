//! Disks are opened one after another.
ghost use Rattle.std.specs.Prelude.{◌≡◌, ◌≤◌, ℕ, IfOk, IfErr, length};
ghost use Rattle.std.specs.List.{AllByRecursion};
ghost use Rattle.std.specs.Vec.{vec_len, vec_capacity};
ghost use Rattle.rz_events.specs.Volume.{IsNode};
ghost use Rattle.rz_nodes.specs.Opened.{AreDisksBack, AreOpened, IsCause, IsDiskBack, IsNodeOpened, IsFaultOf};

use crate::refusal::{OpenRefusal, refusal_at};
use crate::{Server, hand_back};
use mj_angles::Layout;
use rz_disk::{Disk, Fused};
use rz_events::{NodeSpec, OpenFault};
use rz_node::{Geometry, Node};
use std::alloc::Global;

/// The nodes in order, each on its disk, and the emptied vector of the disks, which has room for them all.
/// Each node lost so many disks as `losses` says at its place.
pub fn open_all<D: Disk>(
    alloc: Global,
    layout: Layout,
    nodes: &[NodeSpec],
    losses: &[u64],
    disks: Vec<D>,
) -> Result<(Vec<Server<Fused<D>>>, Vec<D>), (Vec<D>, OpenRefusal)>
    requires nodes { AllByRecursion IsNode nodes.now }
    requires count { length disks.items ≡ length nodes.now }
    requires losses { length losses.now ≡ length nodes.now }
    ensures made { IfOk result (λ r. AreOpened D.tells D.meter D.text D.image layout nodes.now losses.now disks.items r.0.items) }
    ensures empty { IfOk result (λ r. vec_len r.1 ≡ 0) }
    ensures room { IfOk result (λ r. vec_len r.0 ≤ vec_capacity r.1) }
    ensures back { IfErr result (λ r. AreDisksBack D.meter D.text D.image disks.items r.0.items) }
    ensures cause { IfErr result (λ r. IsCause D.tells D.meter D.text D.image layout nodes.now losses.now disks.items r.0.items r.1) }
{
    let Ok(mut servers) = Vec::with_capacity(alloc, nodes.len()) else {
        return Err((disks, OpenRefusal::NoMemory));
    };
    let mut home = disks;
    home.reverse();
    for (index, node) in nodes.iter().enumerate() {
        let Some(disk) = home.pop() else {
            return Err((hand_back(servers, home), OpenRefusal::NoMemory));
        };
        match open_one(alloc, layout, *node, losses[index], disk) {
            Ok(server) => {
                let _made = servers.push(server);
            }
            Err((disk, fault)) => {
                let _back = home.push(disk);
                return Err((hand_back(servers, home), refusal_at(fault, index)));
            }
        }
    }
    Ok((servers, home))
}

/// A node that lost so many disks, on its disk, which is opened.
pub(crate) fn open_one<D: Disk>(
    alloc: Global,
    layout: Layout,
    node: NodeSpec,
    losses: u64,
    disk: D,
) -> Result<Server<Fused<D>>, (D, OpenFault)>
    requires node { IsNode node }
    ensures made { IfOk result (λ s. IsNodeOpened D.tells D.meter D.text D.image layout ((node, losses), disk) s) }
    ensures back { IfErr result (λ r. IsDiskBack D.meter D.text D.image disk r.0) }
    ensures fault { IfErr result (λ r. IsFaultOf D.tells D.meter D.text layout node disk r.0 r.1) }
{
    let geometry = Geometry {
        layout,
        bsize: layout.bsize(),
        node: node.sid,
        cells: node.cells,
    };
    match Node::reopen(alloc, geometry, losses, Fused::new(disk)) {
        Ok(opened) => Ok(Server {
            sid: node.sid,
            node: opened,
            pick: 0,
        }),
        Err((fused, fault)) => Err((fused.into_inner(), fault)),
    }
}
