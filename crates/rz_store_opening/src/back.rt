//! The disks of a store go back.
ghost use Rattle.std.specs.Prelude.{◌≡◌, ◌≤◌, true, Some, length};
ghost use Rattle.std.specs.Vec.{vec_len, vec_capacity};
ghost use Rattle.rz_metadata.specs.Stands.{disk_of, is_journaled};
ghost use Rattle.rz_store_opening.specs.Opening.{disk_in, disks_in};

use crate::disks::{OpenedDisks, Unopened};
use rz_disk::Disk;
use rz_journal::JournalFault;
use rz_metadata::Metadata;
use rz_nodes::Missing;
use rz_shared::{Arrived, OpenedParts};

/// The disks of what was opened, where memory was wanting afterwards.
pub(crate) fn hand_back<D: Disk>(opened: OpenedDisks<D>) -> Unopened<D>
    requires count { length opened.missing.items ≡ length opened.parts.nodes.items }
    requires empty { vec_len opened.parts.home ≡ 0 }
    requires room { vec_len opened.parts.nodes ≤ vec_capacity opened.parts.home }
    requires journaled { is_journaled opened.parts.metadata ≡ true }
    ensures disks { result.disks.items ≡ disks_in opened.parts.nodes.items opened.missing.items }
    ensures journal { disk_of opened.parts.metadata ≡ Some result.journal }
    ensures want { result.fault ≡ JournalFault.NoMemory }
{
    let OpenedDisks { parts, mut missing } = opened;
    let OpenedParts {
        mut nodes,
        home: mut disks,
        metadata,
    } = parts;
    while let Some(node) = nodes.pop() {
        let why = missing.pop().flatten();
        disks.push_reserved(disk_in(node, why));
    }
    disks.reverse();
    drop(missing);
    Unopened {
        disks,
        journal: journal_of(metadata),
        fault: JournalFault::NoMemory,
    }
}

/// The disk in the place of a node, which is away for this reason, if it is.
fn disk_in<D: Disk>(node: Arrived<D>, why: Option<Missing<D>>) -> Option<D>
    ensures { result ≡ disk_in node why }
{
    match node {
        Arrived::Here(server) => {
            drop(why);
            Some(server.node.into_disk().into_inner())
        }
        Arrived::Away(_) => match why {
            None | Some(Missing::Absent) => None,
            Some(Missing::Unopened(disk, _)) => Some(disk),
            Some(Missing::Stale(disk)) => Some(disk),
        },
    }
}

/// The journal's disk.
pub(crate) fn journal_of<D: Disk>(metadata: Metadata<D>) -> D
    requires { is_journaled metadata ≡ true }
    ensures { disk_of metadata ≡ Some result }
{
    let Some(disk) = metadata.into_disk() else {
        unreachable!()
    };
    disk
}
