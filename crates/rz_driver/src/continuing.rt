//! A driver that goes on over the disks which earlier runs left.
ghost use Rattle.std.specs.Prelude.{◌≡◌, ◌+◌, ◌<◌, ◌≤◌, ◌^◌, ◌++◌, [], ℕ, List, IsTrue, IfOk, IfErr, IfSome, false, true, length, option_to_list};
ghost use Rattle.std.specs.Vec.{vec_capacity};
ghost use Rattle.rz_disk.specs.Meter.{faults};
ghost use Rattle.rz_events.specs.Volume.{IsVolume, nodes_of};
ghost use Rattle.rz_events.specs.declared.export.Call.{Call as ACall};
ghost use Rattle.rz_events.specs.declared.events.Event.{Event as AnEvent};
ghost use Rattle.rz_journal.specs.Stands.{disk_bytes as journal_bytes};
ghost use Rattle.rz_metadata.specs.Reopened.{AllTextsOf, IsAsItCame, MakesExport};
ghost use Rattle.rz_metadata.specs.Stands.{CountsFaults, IsJournalOpen, Stands, disk_of, export_in, is_journaled};
ghost use Rattle.rz_nodes.specs.Opened.{AreDisksBack};
ghost use Rattle.rz_restart_laws.specs.Earlier.{IsEarlier, IsRestarted};
ghost use Rattle.rz_driver_nodes.specs.Meters.{faults_at};
ghost use Rattle.rz_driver.specs.Continued.{journal_refusal, AllOpen, AreLeft, IsCauseAgain, IsJournalCause, IsOpenedAgain, IsOpenedOver, IsRefusedOver};
ghost use Rattle.rz_driver.specs.Worlds.{HasCounted, left_behind, IsDriver, HoldsBetweenTurns};

use crate::driver::Driver;
use crate::journaling::{split_last, with_last};
use crate::parts::new_parts;
use rz_config::Volume;
use rz_disk::Disk;
use rz_driver_actors::Shared;
use rz_journal::JournalFault;
use rz_locks::Locks;
use rz_log::Log;
use rz_metadata::{Metadata, fault_number};
use rz_nodes::{OpenRefusal, open_all};
use std::alloc::Global;

impl<D: Disk> Driver<D> {
    /// Opens the disks that earlier runs left: first the journal's, the last, behind which the export then
    /// stands, and then each node's, in their order, as one that lost what the export enrolled last. Where a
    /// disk does not open, or memory is wanting, all of them come back in their order, as they came.
    pub fn again(
        alloc: Global,
        volume: &Volume,
        disks: Vec<D>,
    ) -> Result<Driver<D>, (Vec<D>, OpenRefusal)>
        requires count { length disks.items ≡ length (nodes_of volume.now.clusters) + 1 }
        ensures ready { IfOk result (λ d. IsDriver d) }
        ensures volume { IfOk result (λ d. d.volume ≡ volume.now) }
        ensures journal { IfOk result (λ d. is_journaled d.shared.export ≡ true) }
        ensures opened { IfOk result (λ d. IsOpenedAgain volume.now disks.items d) }
        ensures open { IfOk result (λ d. AllOpen D.tells D.text volume.now disks.items) }
        ensures counted { IfOk result (λ d. HasCounted d (faults_at D.meter disks.items (length (nodes_of volume.now.clusters)))) }

        // Over disks that tell their texts a play goes on after the log of the earlier runs, in which each node that was up is
        // stopped and each node is started, whatever that log is.
        ensures held { IfOk result (λ d. IsTrue D.tells → (h : List AnEvent) → IsEarlier volume.now h → AreLeft D.image volume.now h disks.items
            → (old : List AnEvent) × IsRestarted volume.now h old × HoldsBetweenTurns d (left_behind (faults_at D.meter disks.items) old)) }

        // Over others nothing is said of the earlier log.
        ensures untold { IfOk result (λ d. D.tells ≡ false → (old : List AnEvent) → length old < 2 ^ 63 + 512 → HoldsBetweenTurns d (left_behind (faults_at D.meter disks.items) old)) }
        ensures back { IfErr result (λ r. AreDisksBack D.meter D.text D.image disks.items r.0.items) }
        ensures cause { IfErr result (λ r. IsCauseAgain D.tells D.meter D.text D.image volume.now disks.items r.0.items r.1) }
    {
        rz_restart_laws::found::<D>();
        rz_restart_laws::goes_on();
        match split_last(alloc, disks) {
            Ok((nodes, journal, room)) => match open_journal(alloc, volume, nodes.len(), journal) {
                Ok(export) => open_nodes(alloc, volume, export, nodes, room),
                Err((journal, refusal)) => Err((with_last(nodes, journal, room), refusal)),
            },
            Err(disks) => Err((disks, OpenRefusal::NoMemory)),
        }
    }
}

/// The export behind the journal on this disk, which is the one with this index.
fn open_journal<D: Disk>(
    alloc: Global,
    volume: &Volume,
    index: usize,
    disk: D,
) -> Result<Metadata<D>, (D, OpenRefusal)>
    ensures volume { IfOk result (λ m. (export_in m).volume ≡ volume.now) }
    ensures made { IfOk result (λ m. IsTrue D.tells → MakesExport volume.now (D.text disk) (export_in m)) }
    ensures journal { IfOk result (λ m. is_journaled m ≡ true) }
    ensures open { IfOk result (λ m. IsJournalOpen m) }
    ensures counted { IfOk result (λ m. CountsFaults D.meter (faults (D.meter disk)) m) }
    ensures stands { IfOk result (λ m. IsTrue D.tells → (calls : List ACall) → AllTextsOf volume.now (D.image disk) calls → Stands D.tells D.meter D.image (faults (D.meter disk)) m calls) }
    ensures sized { IfOk result (λ m. length (D.text disk) ≡ journal_bytes) }
    ensures came { IfOk result (λ m. IfSome (disk_of m) (IsAsItCame D.meter D.text D.image disk)) }
    ensures back { IfErr result (λ e. IsAsItCame D.meter D.text D.image disk e.0) }
    ensures cause { IfErr result (λ e. IsJournalCause D.tells D.meter D.text volume.now index disk e.0 e.1) }
{
    let Ok(copy) = volume.copy(alloc) else {
        return Err((disk, OpenRefusal::NoMemory));
    };
    match Metadata::reopen(alloc, copy, disk) {
        Ok(export) => Ok(export),
        Err((disk, fault)) => Err((disk, refusal_at(fault, index))),
    }
}

/// What ends the opening, where the journal with this index was not opened.
fn refusal_at(fault: JournalFault, index: usize) -> OpenRefusal
    ensures { result ≡ journal_refusal fault index }
{
    match fault {
        JournalFault::NoMemory => OpenRefusal::NoMemory,
        _ => OpenRefusal::Open {
            index: index as u64,
            cause: fault_number(fault),
        },
    }
}

/// The nodes on their disks, and nothing played. Where one does not open, the disks come back, that of the
/// export behind them.
fn open_nodes<D: Disk>(
    alloc: Global,
    volume: &Volume,
    export: Metadata<D>,
    nodes: Vec<D>,
    room: Vec<D>,
) -> Result<Driver<D>, (Vec<D>, OpenRefusal)>
    requires count { length nodes.items ≡ length (nodes_of volume.now.clusters) }
    requires empty { room.items ≡ [] }
    requires room { length nodes.items + 1 ≤ vec_capacity room }
    ensures rules { IsVolume volume.now }
    ensures opened { IfOk result (λ d. IsOpenedOver volume.now export nodes.items d) }
    ensures refused { IfErr result (λ r. IsRefusedOver D.tells D.meter D.text D.image volume.now export nodes.items r.0.items r.1) }
{
    let Ok(parts) = new_parts::<D>(alloc, volume) else {
        return Err((with_journal(nodes, export, room), OpenRefusal::NoMemory));
    };
    let specs = parts.nodes.as_slice();
    let Ok(losses) = export.losses(alloc, specs) else {
        drop(parts);
        return Err((with_journal(nodes, export, room), OpenRefusal::NoMemory));
    };
    let lost = losses.as_slice();
    match open_all(alloc, volume.layout, specs, lost, nodes) {
        Ok((servers, emptied)) => {
            drop(emptied);
            drop(room);
            let locks = Locks::new();
            let log = Log::new(alloc);
            Ok(Driver {
                alloc,
                volume: parts.volume,
                shared: Shared {
                    servers,
                    export,
                    locks,
                    lost: 0,
                    log,
                    bins: parts.bins,
                },
                agendas: parts.agendas,
                turns: 0,
                home: parts.home,
            })
        }
        Err((back, refusal)) => {
            drop(parts);
            Err((with_journal(back, export, room), refusal))
        }
    }
}

/// These disks, and behind them that of a journal, if there is one.
fn with_journal<D: Disk>(disks: Vec<D>, export: Metadata<D>, room: Vec<D>) -> Vec<D>
    requires empty { room.items ≡ [] }
    requires room { length disks.items + 1 ≤ vec_capacity room }
    ensures { result.items ≡ disks.items ++ option_to_list (disk_of export) }
{
    match export.into_disk() {
        Some(last) => with_last(disks, last, room),
        None => disks,
    }
}
