//! A new driver whose export stands behind a journal.
ghost use Rattle.std.specs.Prelude.{◌≡◌, ◌+◌, ◌≤◌, ◌++◌, ◌∷◌, [], true, IfOk, IfErr, length};
ghost use Rattle.std.specs.Vec.{vec_len, vec_capacity};
ghost use Rattle.rz_events.specs.Volume.{nodes_of};
ghost use Rattle.rz_nodes.specs.Formatted.{AreFormatted, IsCause, disks_of, fault_at};
ghost use Rattle.rz_metadata.specs.Stands.{is_journaled};
ghost use Rattle.rz_play.specs.World.{new_world};
ghost use Rattle.rz_driver_nodes.specs.Meters.{faults_at};
ghost use Rattle.rz_driver.specs.Formatted.{AreBackWithJournal, IsBehindJournal, IsJournalUnmade};
ghost use Rattle.rz_driver.specs.Worlds.{HasCounted, anew, world_of, IsDriver, HoldsBetweenTurns};

use crate::driver::Driver;
use rz_cells::FormatFault;
use rz_config::Volume;
use rz_disk::Disk;
use rz_metadata::Metadata;
use rz_nodes::DriverFault;
use std::alloc::Global;
use std::mem::replace;

impl<D: Disk> Driver<D> {
    /// Formats each disk of a volume for its node, and the one disk more, the last, for a journal, behind
    /// which the export then stands. Where a disk fails, or memory is wanting, all of them come back in
    /// their order.
    pub fn first(
        alloc: Global,
        volume: &Volume,
        disks: Vec<D>,
    ) -> Result<Driver<D>, (Vec<D>, DriverFault)>
        requires count { length disks.items ≡ length (nodes_of volume.now.clusters) + 1 }
        ensures ready { IfOk result (λ d. IsDriver d) }
        ensures volume { IfOk result (λ d. d.volume ≡ volume.now) }
        ensures journal { IfOk result (λ d. is_journaled d.shared.export ≡ true) }
        ensures world { IfOk result (λ d. world_of d ≡ new_world volume.now) }
        ensures made { IfOk result (λ d. AreFormatted D.tells D.meter D.text D.image volume.now.layout (nodes_of volume.now.clusters) disks.items d.shared.servers.items) }
        ensures held { IfOk result (λ d. HoldsBetweenTurns d (anew (faults_at D.meter disks.items))) }
        ensures counted { IfOk result (λ d. HasCounted d (faults_at D.meter disks.items (length (nodes_of volume.now.clusters)))) }
        ensures back { IfErr result (λ r. AreBackWithJournal D.tells D.meter D.image volume.now disks.items r.0.items) }
        ensures cause { IfErr result (λ r. IsCause D.meter disks.items r.0.items r.1) }
    {
        match split_last(alloc, disks) {
            Ok((nodes, journal, room)) => match Driver::new(alloc, volume, nodes) {
                Ok(driver) => driver.behind_journal(journal),
                Err((back, fault)) => Err((with_last(back, journal, room), fault)),
            },
            Err(disks) => Err((disks, DriverFault::NoMemory)),
        }
    }

    /// Formats a disk for a journal, and puts the export of a new driver behind it. Where that fails, the
    /// disks of the nodes come back, and behind them this one.
    fn behind_journal(mut self, disk: D) -> Result<Driver<D>, (Vec<D>, DriverFault)>
        ensures behind { IfOk result (λ d. IsBehindJournal disk self d) }
        ensures back { IfErr result (λ r. IsJournalUnmade D.tells D.meter D.image self.volume (disks_of self.shared.servers.items) disk r.0.items r.1) }
    {
        let Ok(volume) = self.volume.copy(self.alloc) else {
            return Err((self.back_with(disk), DriverFault::NoMemory));
        };
        match Metadata::format(self.alloc, volume, disk) {
            Ok(export) => {
                drop(replace(&mut self.shared.export, export));
                Ok(self)
            }
            Err((disk, fault)) => {
                let index = self.shared.servers.len();
                Err((self.back_with(disk), fault_at(fault, index)))
            }
        }
    }

    /// The disks of the nodes, and this one behind them.
    fn back_with(self, last: D) -> Vec<D>
        ensures { result.items ≡ disks_of self.shared.servers.items ++ last ∷ [] }
    {
        let (log, disks) = self.close_with(Some(last));
        drop(log);
        disks
    }
}

/// What ends the making, where the disk with this index was not formatted.
fn fault_at(fault: FormatFault, index: usize) -> DriverFault
    ensures { result ≡ fault_at fault index }
{
    match fault {
        FormatFault::NoMemory => DriverFault::NoMemory,
        FormatFault::DiskFault => DriverFault::Disk {
            index: index as u64,
        },
    }
}

/// All disks but the last, the last, and room for them all. Where memory is wanting, they come back.
pub(crate) fn split_last<D: Disk>(
    alloc: Global,
    disks: Vec<D>,
) -> Result<(Vec<D>, D, Vec<D>), Vec<D>>
    ensures split { IfOk result (λ r. disks.items ≡ r.0.items ++ r.1 ∷ []) }
    ensures empty { IfOk result (λ r. r.2.items ≡ []) }
    ensures room { IfOk result (λ r. length disks.items ≤ vec_capacity r.2) }
    ensures back { IfErr result (λ v. v.items ≡ disks.items) }
{
    let Ok(room) = Vec::with_capacity(alloc, disks.len()) else {
        return Err(disks);
    };
    let mut nodes = disks;
    let Some(last) = nodes.pop() else {
        return Err(nodes);
    };
    Ok((nodes, last, room))
}

/// These disks, and one behind them, in a vector that has room for them.
pub(crate) fn with_last<D: Disk>(disks: Vec<D>, last: D, room: Vec<D>) -> Vec<D>
    requires empty { room.items ≡ [] }
    requires room { length disks.items + 1 ≤ vec_capacity room }
    ensures { result.items ≡ disks.items ++ last ∷ [] }
{
    let mut disks = disks;
    let mut all = room;
    let _moved = all.append(&mut disks);
    all.push_reserved(last);
    all
}
