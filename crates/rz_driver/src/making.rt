//! A new driver: each disk is formatted, and nothing is played.
ghost use Rattle.std.specs.Prelude.{◌≡◌, ℕ, true, false, IfOk, IfErr, length};
ghost use Rattle.rz_events.specs.Volume.{nodes_of};
ghost use Rattle.rz_metadata.specs.Stands.{is_journaled};
ghost use Rattle.rz_play.specs.World.{new_world};
ghost use Rattle.rz_nodes.specs.Formatted.{AreBack, AreFormatted, IsCause};
ghost use Rattle.rz_driver_nodes.specs.Meters.{faults_at};
ghost use Rattle.rz_driver.specs.Worlds.{HasCounted, anew, world_of, IsDriver, HoldsBetweenTurns};

use crate::driver::Driver;
use crate::parts::{new_export, new_parts};
use rz_config::Volume;
use rz_disk::Disk;
use rz_driver_actors::Shared;
use rz_locks::Locks;
use rz_log::Log;
use rz_nodes::{DriverFault, format_all};
use std::alloc::Global;

impl<D: Disk> Driver<D> {
    /// Formats each disk of a volume for its node. The export is in memory. Where a disk fails, or memory is
    /// wanting, all of them come back in their order.
    pub fn new(
        alloc: Global,
        volume: &Volume,
        disks: Vec<D>,
    ) -> Result<Driver<D>, (Vec<D>, DriverFault)>
        requires count { length disks.items ≡ length (nodes_of volume.now.clusters) }
        ensures ready { IfOk result (λ d. IsDriver d) }
        ensures volume { IfOk result (λ d. d.volume ≡ volume.now) }
        ensures journal { IfOk result (λ d. is_journaled d.shared.export ≡ false) }
        ensures world { IfOk result (λ d. world_of d ≡ new_world volume.now) }
        ensures made { IfOk result (λ d. AreFormatted D.tells D.meter D.text D.image volume.now.layout (nodes_of volume.now.clusters) disks.items d.shared.servers.items) }
        ensures held { IfOk result (λ d. HoldsBetweenTurns d (anew (faults_at D.meter disks.items))) }

        // No disk is a journal's.
        ensures counted { IfOk result (λ d. (first : ℕ) → HasCounted d first) }

        ensures back { IfErr result (λ r. AreBack D.tells D.meter D.image volume.now.layout (nodes_of volume.now.clusters) disks.items r.0.items) }
        ensures cause { IfErr result (λ r. IsCause D.meter disks.items r.0.items r.1) }
    {
        rz_node_laws::fresh::<D>();
        let Ok(parts) = new_parts::<D>(alloc, volume) else {
            return Err((disks, DriverFault::NoMemory));
        };
        let Ok(export) = new_export::<D>(alloc, volume) else {
            drop(parts);
            return Err((disks, DriverFault::NoMemory));
        };
        match format_all(alloc, volume.layout, parts.nodes.as_slice(), disks) {
            Ok((servers, emptied)) => {
                drop(emptied);
                let locks = Locks::new();
                let log = Log::new(alloc);
                Ok(Driver {
                    alloc,
                    volume: parts.volume,
                    shared: Shared {
                        servers,
                        export,
                        locks,
                        lost: 0,
                        log,
                        bins: parts.bins,
                    },
                    agendas: parts.agendas,
                    turns: 0,
                    home: parts.home,
                })
            }
            Err(back) => {
                drop(parts);
                drop(export);
                Err(back)
            }
        }
    }
}
