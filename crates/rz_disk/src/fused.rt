//! A disk with a fuse.
ghost use Rattle.std.specs.Prelude.{◌≡◌, ◌⊎◌, ◌+◌, ◌≤◌, true, false, length, Option, Some, None, IsTrue, OnOk, OnErr, if◌then◌else◌};
ghost use Rattle.rz_disk.specs.Images.{window, Torn, Written, Follows, Within, Only};
ghost use Rattle.rz_disk.specs.Meter.{Passes, Rises, spent, faults, one_more};
ghost use Rattle.rz_disk.specs.UnderFuse.{UnderFuse, is_blown, planned_after, fused_meter};

use crate::{Disk, DiskError, Failed};
use std::alloc::Global;
use std::marker::Model;

/// It passes all calls but `arm` on to its disk. Armed with `k` passes, it lets that many device
/// calls pass, and fails each later one until it is disarmed. A write that it fails is still passed
/// on, and a read or a sync that it fails is not.
#[derive(Drop)]
pub struct Fused<D: Disk> {
    disk: D,
    left: Option<u64>,
    planned: u64,
}

impl<D: Disk> Model for Fused<D> {
    ghost Value = { UnderFuse D };

    ghost view = { λ f. record { disk = f.disk; fuse = f.left; planned = f.planned } };
}

impl<D: Disk> Fused<D> {
    /// It is not armed.
    pub fn new(disk: D) -> Self
        ensures { result ≡ record { disk = disk; fuse = None; planned = 0 } }
    {
        Fused {
            disk,
            left: None,
            planned: 0,
        }
    }

    pub fn into_inner(self) -> D
        ensures { result ≡ self.disk }
    {
        self.disk
    }
}

/// Takes a pass, and answers whether there was one, or the fuse is not armed.
fn spend(left: &mut Option<u64>, planned: &mut u64) -> bool
    ensures left { left.new ≡ spent left.old }
    ensures passes { result ≡ true → is_blown left.old ≡ false }
    ensures blown { result ≡ false → left.old ≡ Some 0 }
    ensures planned { planned.new
        ≡ (if is_blown left.old then one_more planned.old else planned.old) }
{
    match *left {
        None => true,
        Some(0) => {
            *planned = planned.saturating_add(1);
            false
        }
        Some(n) => {
            *left = Some(n - 1);
            true
        }
    }
}

impl<D: Disk> Disk for Fused<D> {
    ghost tells = { D.tells };

    ghost has_fuse = { true };

    ghost text = { λ f. D.text f.disk };

    ghost image = { λ f. D.image f.disk };

    ghost picks = { λ f. D.picks f.disk };

    ghost meter = { λ f. fused_meter D.meter f };

    ghost text_is_image = { λ f. D.text_is_image f.disk };

    ghost no_fuse = { λ f no. cc };

    ghost none_planned = { λ f no. cc };

    fn size(&self) -> u64 {
        self.disk.size()
    }

    fn reset(&mut self, alloc: Global, size: u64) -> Result<(), DiskError> {
        self.disk.reset(alloc, size)
    }

    fn read(&mut self, at: u64, out: &mut [u8]) -> Result<(), Failed>
        requires { at + length out.old ≤ length (D.text self.old.disk) }
        ensures gives { OnOk result (IsTrue D.tells
            → out.new ≡ window at (length out.old) (D.text self.old.disk)) }
        ensures text { D.text self.new.disk ≡ D.text self.old.disk }
        ensures crash { Within (D.image self.old.disk) (D.image self.new.disk) }
        ensures kept { Within (D.image self.new.disk) (D.image self.old.disk) }
        ensures meter { Passes result (fused_meter D.meter self.old)
            (fused_meter D.meter self.new) }
        ensures planned { self.new.planned ≡ planned_after self.old }
        ensures not_passed_on { self.old.fuse ≡ Some 0 → self.new.disk ≡ self.old.disk }
        ensures unread { self.old.fuse ≡ Some 0 → out.new ≡ out.old }
    {
        if spend(&mut self.left, &mut self.planned) {
            self.disk.read(at, out)
        } else {
            Err(Failed)
        }
    }

    fn write_at(&mut self, at: u64, bytes: &[u8]) -> Result<(), Failed>
        requires { at + length bytes.now ≤ length (D.text self.old.disk) }
        ensures size { length (D.text self.new.disk) ≡ length (D.text self.old.disk) }
        ensures written { OnOk result (IsTrue D.tells
            → Written at bytes.now (D.text self.old.disk) (D.text self.new.disk)) }
        ensures crash { Follows (Torn at (length bytes.now)) (D.image self.old.disk)
            (D.image self.new.disk) }
        ensures meter { Passes result (fused_meter D.meter self.old)
            (fused_meter D.meter self.new) }
        ensures planned { self.new.planned ≡ planned_after self.old }

        // Also where the fuse fails it.
        ensures passed_on { (IsTrue D.tells → Written at bytes.now (D.text self.old.disk) (D.text self.new.disk))
            ⊎ Rises (faults (D.meter self.old.disk)) (faults (D.meter self.new.disk)) }
    {
        let passes = spend(&mut self.left, &mut self.planned);
        let written = self.disk.write_at(at, bytes);
        if passes { written } else { Err(Failed) }
    }

    fn sync(&mut self) -> Result<(), Failed>
        ensures text { D.text self.new.disk ≡ D.text self.old.disk }
        ensures only { OnOk result (Only (D.text self.old.disk) (D.image self.new.disk)) }
        ensures crash { Within (D.image self.old.disk) (D.image self.new.disk) }
        ensures kept { OnErr result (Within (D.image self.new.disk) (D.image self.old.disk)) }
        ensures meter { Passes result (fused_meter D.meter self.old)
            (fused_meter D.meter self.new) }
        ensures planned { self.new.planned ≡ planned_after self.old }
        ensures not_passed_on { self.old.fuse ≡ Some 0 → self.new.disk ≡ self.old.disk }
    {
        if spend(&mut self.left, &mut self.planned) {
            self.disk.sync()
        } else {
            Err(Failed)
        }
    }

    fn crash(&mut self, pick: u64) {
        self.disk.crash(pick)
    }

    fn arm(&mut self, passes: Option<u64>)
        ensures { self.new ≡ record self.old { fuse = passes } }
    {
        self.left = passes;
    }
}
