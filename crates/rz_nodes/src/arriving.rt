//! The disks of a store's nodes arrive: some open, and some are away.
ghost use Rattle.std.specs.Prelude.{◌≡◌, ◌≤◌, IfOk, IfErr, length};
ghost use Rattle.std.specs.List.{AllByRecursion, AllZip, zip};
ghost use Rattle.std.specs.Vec.{vec_len, vec_capacity};
ghost use Rattle.rz_nodes.specs.Arrived.{IsArrival, IsKnown};

use crate::Server;
use crate::opening::open_one;
use mj_angles::Layout;
use rz_disk::{Disk, Fused};
use rz_events::{NodeSpec, OpenFault};
use std::alloc::Global;

/// A node of a volume, and what its export knows of it.
#[derive(Clone, Copy, Drop)]
pub struct KnownNode {
    pub node: NodeSpec,
    /// How many disks it lost.
    pub losses: u64,
    /// The fence of the disk that it has now.
    pub fence: u64,
}

/// What came of the disk of a node.
#[derive(Drop)]
pub enum Arrival<D: Disk> {
    /// It opened, and is the disk that the node has now.
    Here(Server<Fused<D>>),
    Away(Missing<D>),
}

/// Why a node has no disk, and the disk in its place, as it came.
#[derive(Drop)]
pub enum Missing<D: Disk> {
    /// There is none.
    Absent,
    /// It did not open.
    Unopened(D, OpenFault),
    /// It opened, and is one that the node had before: its fence is not the one that is known.
    Stale(D),
}

/// What came of the disk of each node, in their order, and the emptied vector of the disks, which has room
/// for them all. Where memory is wanting for the list, the disks come back untouched.
pub fn open_each<D: Disk>(
    alloc: Global,
    layout: Layout,
    nodes: &[KnownNode],
    disks: Vec<Option<D>>,
) -> Result<(Vec<Arrival<D>>, Vec<Option<D>>), Vec<Option<D>>>
    requires nodes { AllByRecursion IsKnown nodes.now }
    requires count { length disks.items ≡ length nodes.now }
    ensures arrived { IfOk result (λ r. AllZip (IsArrival D.tells D.meter D.text D.image layout) (zip nodes.now disks.items) r.0.items) }
    ensures empty { IfOk result (λ r. vec_len r.1 ≡ 0) }
    ensures room { IfOk result (λ r. vec_len r.0 ≤ vec_capacity r.1) }
    ensures back { IfErr result (λ b. b ≡ disks) }
{
    let Ok(mut arrivals) = Vec::with_capacity(alloc, nodes.len()) else {
        return Err(disks);
    };
    let mut home = disks;
    home.reverse();
    for known in nodes {
        // There is one for each node.
        let disk = home.pop().flatten();
        arrivals.push_reserved(open_known(alloc, layout, *known, disk));
    }
    Ok((arrivals, home))
}

/// What came of the disk of a node, where there is one.
fn open_known<D: Disk>(
    alloc: Global,
    layout: Layout,
    known: KnownNode,
    disk: Option<D>,
) -> Arrival<D>
    requires node { IsKnown known }
    ensures { IsArrival D.tells D.meter D.text D.image layout (known, disk) result }
{
    let Some(disk) = disk else {
        return Arrival::Away(Missing::Absent);
    };
    match open_one(alloc, layout, known.node, known.losses, disk) {
        Ok(server) => {
            if server.node.fence() == known.fence {
                Arrival::Here(server)
            } else {
                Arrival::Away(Missing::Stale(server.node.into_disk().into_inner()))
            }
        }
        Err((disk, fault)) => Arrival::Away(Missing::Unopened(disk, fault)),
    }
}
