//! The disks of a new store are formatted.
ghost use Rattle.std.specs.Prelude.{◌≡◌, ◌≤◌, ℕ, List, [], map, IsTrue, IfOk, IfErr, OnOk, Some, length};
ghost use Rattle.std.specs.List.{AllByRecursion, AllZip, zip};
ghost use Rattle.std.specs.Vec.{vec_len, vec_capacity};
ghost use Rattle.rz_disk.specs.Meter.{faults};
ghost use Rattle.rz_events.specs.Volume.{IsNode, IsVolume, nodes_of};
ghost use Rattle.rz_metadata.specs.Reopened.{AllTextsOf};
ghost use Rattle.rz_nodes.specs.Formatted.{AreBack, AreFormatted, disks_of};
ghost use Rattle.rz_restart_laws.specs.Returns.{NewDisk};
ghost use Rattle.rz_store_opening.specs.NewStores.{IsCause, IsFormattedDisk, IsJournalBack, disk_refusal, journal_refusal};
ghost use Rattle.rz_store_opening.specs.Opening.{AreLeft};

use crate::back::journal_of;
use rz_cells_slots::FormatFault;
use rz_config::Volume;
use rz_disk::{Disk, Fused};
use rz_events::NodeSpec;
use rz_metadata::Metadata;
use rz_nodes::{DriverFault, Server, all_nodes, format_all, hand_back};
use std::alloc::{AllocError, Global};

/// The disks of a new store: those of its nodes, in the order of the description, and its journal's.
#[derive(Drop)]
pub struct FormattedDisks<D: Disk> {
    pub disks: Vec<Option<D>>,
    pub journal: D,
}

/// No store was made: the disks, in their order, and why.
#[derive(Drop)]
pub struct Unmade<D: Disk> {
    pub disks: Vec<D>,
    pub journal: D,
    pub fault: FormatRefusal,
}

/// Why no store was made.
#[derive(Clone, Copy, Debug, PartialEq, Eq, Drop)]
pub enum FormatRefusal {
    NoMemory,
    /// The disk with this index failed while it was formatted.
    Disk { index: u64 },
    /// The journal's disk failed.
    Journal,
}

/// A copy of a volume, its nodes, and an empty row with room for their disks.
#[derive(Drop)]
struct NewParts<D: Disk> {
    volume: Volume,
    nodes: Vec<NodeSpec>,
    row: Vec<Option<D>>,
}

/// Formats a disk for each node of a volume, and then the journal's disk: what is opened on them is an empty
/// store. Where a disk fails or memory is wanting, all disks come back in their order.
pub fn format_disks<D: Disk>(
    alloc: Global,
    volume: &Volume,
    disks: Vec<D>,
    journal: D,
) -> Result<FormattedDisks<D>, Unmade<D>>
    requires count { length disks.items ≡ length (nodes_of volume.now.clusters) }
    ensures nodes { IfOk result (λ f. AllZip (IsFormattedDisk D.tells D.meter D.text D.image volume.now.layout) (zip (nodes_of volume.now.clusters) disks.items) f.disks.items) }
    ensures texts { IfOk result (λ f. IsTrue D.tells → AllTextsOf volume.now (D.image f.journal) []) }
    ensures lasts { IfOk result (λ f. faults (D.meter journal) ≤ faults (D.meter f.journal)) }

    // They are such as no run has left yet.
    ensures left { IfOk result (λ f. IsTrue D.tells → (new : ℕ → NewDisk) → AreLeft D.image volume.now [] new f.disks.items f.journal) }

    ensures back { IfErr result (λ e. AreBack D.tells D.meter D.image volume.now.layout (nodes_of volume.now.clusters) disks.items e.disks.items) }
    ensures journal { IfErr result (λ e. IsJournalBack D.tells D.meter D.image volume.now journal e.journal) }
    ensures cause { IfErr result (λ e. IsCause D.meter disks.items journal e.disks.items e.journal e.fault) }
{
    let Ok(NewParts { volume, nodes, row }) = new_parts::<D>(alloc, volume) else {
        return Err(Unmade {
            disks,
            journal,
            fault: FormatRefusal::NoMemory,
        });
    };
    match format_all(alloc, volume.layout, nodes.as_slice(), disks) {
        Ok((servers, home)) => format_journal(alloc, volume, servers, home, row, journal),
        Err((disks, fault)) => Err(Unmade {
            disks,
            journal,
            fault: disk_refusal(fault),
        }),
    }
}

/// What a new store has beside its disks.
fn new_parts<D: Disk>(alloc: Global, volume: &Volume) -> Result<NewParts<D>, AllocError>
    ensures volume { IfOk result (λ p. p.volume ≡ volume.now) }
    ensures nodes { IfOk result (λ p. p.nodes.items ≡ nodes_of volume.now.clusters) }
    ensures rules { OnOk result (IsVolume volume.now) }
    ensures proper { IfOk result (λ p. AllByRecursion IsNode p.nodes.items) }
    ensures room { IfOk result (λ p. (vec_len p.row ≡ 0) × (vec_len p.nodes ≤ vec_capacity p.row)) }
{
    let nodes = all_nodes(alloc, volume)?;
    let row = Vec::with_capacity(alloc, nodes.len())?;
    let volume = volume.copy(alloc)?;
    Ok(NewParts { volume, nodes, row })
}

/// Formats the journal's disk behind nodes that were formatted.
fn format_journal<D: Disk>(
    alloc: Global,
    volume: Volume,
    servers: Vec<Server<Fused<D>>>,
    home: Vec<D>,
    row: Vec<Option<D>>,
    journal: D,
) -> Result<FormattedDisks<D>, Unmade<D>>
    requires home { (vec_len home ≡ 0) × (vec_len servers ≤ vec_capacity home) }
    requires row { (vec_len row ≡ 0) × (vec_len servers ≤ vec_capacity row) }
    ensures here { IfOk result (λ f. f.disks.items ≡ map Some (disks_of servers.items)) }
    ensures texts { IfOk result (λ f. IsTrue D.tells → AllTextsOf volume (D.image f.journal) []) }
    ensures lasts { IfOk result (λ f. faults (D.meter journal) ≤ faults (D.meter f.journal)) }
    ensures disks { IfErr result (λ e. e.disks.items ≡ disks_of servers.items) }
    ensures back { IfErr result (λ e. IsJournalBack D.tells D.meter D.image volume journal e.journal) }
    ensures cause { IfErr result (λ e. (disks : List D) → IsCause D.meter disks journal e.disks.items e.journal e.fault) }
{
    match Metadata::format(alloc, volume, journal) {
        Ok(metadata) => {
            let journal = journal_of(metadata);
            let disks = all_here(servers, row);
            drop(home);
            Ok(FormattedDisks { disks, journal })
        }
        Err((journal, fault)) => {
            drop(row);
            Err(Unmade {
                disks: hand_back(servers, home),
                journal,
                fault: journal_refusal(fault),
            })
        }
    }
}

/// The disks of these nodes, in their order, in the places of a store's disks.
fn all_here<D: Disk>(servers: Vec<Server<Fused<D>>>, row: Vec<Option<D>>) -> Vec<Option<D>>
    requires row { (vec_len row ≡ 0) × (vec_len servers ≤ vec_capacity row) }
    ensures { result.items ≡ map Some (disks_of servers.items) }
{
    let mut servers = servers;
    let mut row = row;
    while let Some(server) = servers.pop() {
        row.push_reserved(Some(server.node.into_disk().into_inner()));
    }
    row.reverse();
    row
}

/// Why no store was made, where the disk of a node was not formatted.
fn disk_refusal(fault: DriverFault) -> FormatRefusal
    ensures { result ≡ disk_refusal fault }
{
    match fault {
        DriverFault::NoMemory => FormatRefusal::NoMemory,
        DriverFault::Disk { index } => FormatRefusal::Disk { index },
    }
}

/// Why no store was made, where the journal's disk was not formatted.
fn journal_refusal(fault: FormatFault) -> FormatRefusal
    ensures { result ≡ journal_refusal fault }
{
    match fault {
        FormatFault::NoMemory => FormatRefusal::NoMemory,
        FormatFault::DiskFault => FormatRefusal::Journal,
    }
}
