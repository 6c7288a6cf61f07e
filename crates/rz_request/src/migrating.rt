//! The migration that a command asks for.
ghost use Rattle.std.specs.Prelude.{◌≡◌, Ok, length};
ghost use Rattle.mj_angles.specs.Layout.{bsize_of};
ghost use Rattle.rz_events.specs.Volume.{IsNode};
ghost use Rattle.rz_request.specs.Carried.{FollowsOldDisk, Migrates, geometry_of};

use crate::carrying::carry;
use crate::{Migrated, OldNode, Stop, migration};
use rz_cells::Geometry;
use rz_disk::Disk;
use rz_ports::Source;
use std::alloc::Global;

/// How the disk of a node is laid out.
fn geometry_for(node: &OldNode) -> Geometry
    ensures { result ≡ geometry_of node.now }
{
    Geometry {
        layout: node.layout,
        bsize: node.layout.bsize(),
        node: node.node.sid,
        cells: node.node.cells,
    }
}

/// Carries the first of two disks over onto the second.
fn carry_in<D: Disk>(alloc: Global, node: &OldNode, disks: &mut Vec<D>) -> Result<Migrated, Stop>
    requires two { length disks.old.items ≡ 2 }
    requires rules { IsNode node.now.node }
    requires small { bsize_of node.now.layout ≡ 0 }
    ensures { FollowsOldDisk ⟦<D as Disk>⟧ (Ok node.now) disks.old.items disks.new.items result }
{
    let Some(new) = disks.pop() else {
        unreachable!()
    };
    let geometry = geometry_for(node);
    let (new, result) = carry(alloc, geometry, &mut disks[0], new);
    let _back = disks.push(new);
    result
}

/// Reads the volume of an input and carries the old disk of node `sid` over: the first of two disks, onto
/// the second. What stands in the way is answered in the order of `rz_request`, and then of
/// `Cells::migrate`. The disks are back in their order at every exit.
pub fn migrate<I: Source, D: Disk>(
    alloc: Global,
    sid: u16,
    input: &mut I,
    disks: &mut Vec<D>,
) -> Result<Migrated, Stop>
    ensures { Migrates ⟦<D as Disk>⟧ sid (record { before = I.left input.old; after = I.left input.new; old = I.faults input.old; new = I.faults input.new }) disks.old.items disks.new.items result }
{
    match migration(alloc, sid, input, disks.len() as u64) {
        Ok(node) => carry_in(alloc, &node, disks),
        Err(stop) => Err(stop),
    }
}
