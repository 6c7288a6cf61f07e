//! The driver.
ghost use Rattle.std.specs.Prelude.{◌+◌, ◌≤◌};
ghost use Rattle.std.specs.Vec.{vec_len, vec_capacity};

use rz_config::Volume;
use rz_disk::{Disk, Fused};
use rz_driver_actors::{Agenda, Shared};
use std::alloc::Global;

/// It plays a script over the nodes of a volume, their disks and the export. Each of these disks is in a
/// fuse. The export may stand behind a journal, whose disk is in none.
#[derive(Drop)]
pub struct Driver<D: Disk> {
    pub(crate) alloc: Global,
    pub(crate) volume: Volume,
    pub(crate) shared: Shared<Fused<D>, D>,
    /// The clients 1 to 64, and then the rebuilders 1 to 16.
    pub(crate) agendas: Vec<Agenda>,
    pub(crate) turns: u32,
    /// Room for the disks, the journal's too, for when they are handed back.
    pub(crate) home: Vec<D>,
    ghost room: { vec_len shared.servers + vec_len home + 1 ≤ vec_capacity home },
}
