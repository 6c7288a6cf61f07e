//! A disk whose writes wait a while for another one's.
ghost use Rattle.std.specs.Prelude.{◌≡◌, ◌⊎◌, ◌+◌, ◌≤◌, ℕ, List, length, replicate, IsTrue, IsErrOf, OnOk, OnErr, if◌then◌else◌};
ghost use Rattle.rz_disk.specs.Images.{window, Torn, Written, Follows, Within, Only};
ghost use Rattle.rz_disk.specs.Meter.{Passes, Rises, faults, armed};

use crate::meeting::Meeting;
use rz_disk::{Disk, DiskError, Failed};
use std::alloc::Global;
use std::marker::Model;

/// The bytes of a node's header. A format writes no others.
const HEADER: u64 = 64;

/// It passes all calls on to its disk. It is for tests.
#[derive(Drop)]
pub struct MeetDisk<'a, D: Disk> {
    disk: D,
    meeting: &'a Meeting,
}

impl<'a, D: Disk> Model for MeetDisk<'a, D> {
    ghost Value = { D };

    ghost coded = { D.code };

    ghost view = { λ m. m.disk };
}

impl<'a, D: Disk> MeetDisk<'a, D> {
    /// Its writes may meet those of the other disks of this meeting.
    pub fn new(disk: D, meeting: &'a Meeting) -> MeetDisk<'a, D>
        ensures { result ≡ disk }
    {
        MeetDisk { disk, meeting }
    }
}

impl<'a, D: Disk> Disk for MeetDisk<'a, D> {
    ghost tells = { D.tells };

    ghost has_fuse = { D.has_fuse };

    ghost text = { D.text };

    ghost image = { D.image };

    ghost picks = { D.picks };

    ghost meter = { D.meter };

    ghost text_is_image = { D.text_is_image };

    ghost no_fuse = { D.no_fuse };

    ghost none_planned = { D.none_planned };

    fn size(&self) -> u64 {
        self.disk.size()
    }

    fn reset(&mut self, alloc: Global, size: u64) -> Result<(), DiskError> {
        self.disk.reset(alloc, size)
    }

    fn read(&mut self, at: u64, out: &mut [u8]) -> Result<(), Failed> {
        self.disk.read(at, out)
    }

    fn write_at(&mut self, at: u64, bytes: &[u8]) -> Result<(), Failed> {
        if at >= HEADER {
            self.meeting.attend();
        }
        self.disk.write_at(at, bytes)
    }

    fn sync(&mut self) -> Result<(), Failed> {
        self.disk.sync()
    }

    fn crash(&mut self, pick: u64) {
        self.disk.crash(pick)
    }

    fn arm(&mut self, passes: Option<u64>) {
        self.disk.arm(passes)
    }
}
