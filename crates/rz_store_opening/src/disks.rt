//! The disks of a store are opened.
ghost use Rattle.std.specs.Prelude.{◌≡◌, List, true, IsTrue, IfOk, IfErr, OnOk, Some, length};
ghost use Rattle.rz_disk.specs.Meter.{faults};
ghost use Rattle.rz_events.specs.Volume.{IsVolume, nodes_of};
ghost use Rattle.rz_events.specs.declared.export.Call.{Call as ACall};
ghost use Rattle.rz_journal.specs.JournalText.{IsTextOf};
ghost use Rattle.rz_journal.specs.Kept.{IsExportAfter};
ghost use Rattle.rz_metadata.specs.Reopened.{AllTextsOf};
ghost use Rattle.rz_metadata.specs.Stands.{Stands, disk_of, export_in, is_journaled};
ghost use Rattle.rz_store_opening.specs.Opening.{AreOpenedDisks, IsOpenedStore, IsUnopened};

use crate::back::journal_of;
use crate::knowing::known_nodes;
use crate::rows::Rows;
use rz_config::Volume;
use rz_disk::Disk;
use rz_journal::JournalFault;
use rz_metadata::Metadata;
use rz_nodes::{Missing, open_each};
use rz_shared::OpenedParts;
use std::alloc::Global;

/// What was opened: the metadata behind the journal, the nodes in the order of the description, and why each of
/// them is away, if it is.
#[derive(Drop)]
pub struct OpenedDisks<D: Disk> {
    pub parts: OpenedParts<D>,
    pub missing: Vec<Option<Missing<D>>>,
}

/// Nothing was opened: the disks as they came, and why.
#[derive(Drop)]
pub struct Unopened<D: Disk> {
    /// Those of the nodes.
    pub disks: Vec<Option<D>>,
    pub journal: D,
    /// Why the journal did not open, or want of memory.
    pub fault: JournalFault,
}

/// Opens the journal, and then what there is of the nodes' disks, in the order of the description.
///
/// Where the journal does not open, or memory is wanting for what is not a node's, nothing is opened.
pub(crate) fn open_disks<D: Disk>(
    alloc: Global,
    volume: &Volume,
    disks: Vec<Option<D>>,
    journal: D,
) -> Result<OpenedDisks<D>, Unopened<D>>
    requires count { length disks.items ≡ length (nodes_of volume.now.clusters) }
    ensures opened { IfOk result (IsOpenedStore D.tells D.meter D.text D.image volume.now disks.items journal) }
    ensures calls { IfOk result (λ o. IsTrue D.tells → (calls : List ACall) → IsTextOf volume.now (D.text journal) calls → IsExportAfter (export_in o.parts.metadata) calls) }
    ensures stands { IfOk result (λ o. IsTrue D.tells → (calls : List ACall) → AllTextsOf volume.now (D.image journal) calls → Stands D.tells D.meter D.image (faults (D.meter journal)) o.parts.metadata calls) }
    ensures untouched { IfErr result (λ e. e.disks ≡ disks) }
    ensures unopened { IfErr result (λ e. IsUnopened D.tells D.meter D.text D.image volume.now journal e.journal e.fault) }
{
    let Ok(copy) = volume.copy(alloc) else {
        return Err(Unopened {
            disks,
            journal,
            fault: JournalFault::NoMemory,
        });
    };
    match Metadata::reopen(alloc, copy, journal) {
        Ok(metadata) => open_nodes(alloc, volume, metadata, disks),
        Err((journal, fault)) => Err(Unopened {
            disks,
            journal,
            fault,
        }),
    }
}

/// Opens what there is of the nodes' disks, as these metadata know them.
fn open_nodes<D: Disk>(
    alloc: Global,
    volume: &Volume,
    metadata: Metadata<D>,
    disks: Vec<Option<D>>,
) -> Result<OpenedDisks<D>, Unopened<D>>
    requires count { length disks.items ≡ length (nodes_of volume.now.clusters) }
    requires journaled { is_journaled metadata ≡ true }
    ensures rules { OnOk result (IsVolume volume.now) }
    ensures opened { IfOk result (AreOpenedDisks D.tells D.meter D.text D.image volume.now disks.items) }
    ensures metadata { IfOk result (λ o. o.parts.metadata ≡ metadata) }
    ensures untouched { IfErr result (λ e. e.disks ≡ disks) }
    ensures back { IfErr result (λ e. disk_of metadata ≡ Some e.journal) }
    ensures want { IfErr result (λ e. e.fault ≡ JournalFault.NoMemory) }
{
    let Ok(known) = known_nodes(alloc, volume, &metadata) else {
        return Err(untouched(metadata, disks));
    };
    let Ok(rows) = Rows::with_room(alloc, known.len()) else {
        drop(known);
        return Err(untouched(metadata, disks));
    };
    match open_each(alloc, volume.layout, known.as_slice(), disks) {
        Ok((arrivals, home)) => {
            let Rows { nodes, missing } = rows.with(known.as_slice(), arrivals);
            let parts = OpenedParts {
                nodes,
                home,
                metadata,
            };
            Ok(OpenedDisks { parts, missing })
        }
        Err(disks) => Err(untouched(metadata, disks)),
    }
}

/// Memory was wanting, and no node's disk was touched.
fn untouched<D: Disk>(metadata: Metadata<D>, disks: Vec<Option<D>>) -> Unopened<D>
    requires { is_journaled metadata ≡ true }
    ensures disks { result.disks ≡ disks }
    ensures journal { disk_of metadata ≡ Some result.journal }
    ensures want { result.fault ≡ JournalFault.NoMemory }
{
    Unopened {
        disks,
        journal: journal_of(metadata),
        fault: JournalFault::NoMemory,
    }
}
