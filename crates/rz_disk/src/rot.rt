//! A disk of which one byte is read wrong.
ghost use Rattle.std.specs.Prelude.{◌≡◌, ◌⊎◌, ◌+◌, ◌≤◌, ℕ, false, List, length, replicate, IsTrue, IsErrOf, OnOk, OnErr, if◌then◌else◌};
ghost use Rattle.rz_disk.specs.Images.{window, Torn, Written, Follows, Within, Only};
ghost use Rattle.rz_disk.specs.Meter.{Passes, Rises, faults, armed};
ghost use Rattle.rz_disk.specs.Rotting.{Rotting, Rots, IsSameRot};

use crate::{Disk, DiskError, Failed};
use std::alloc::Global;
use std::marker::Model;

/// It passes all calls on to its disk. In what each read gives, the byte of one address is changed
/// to its exclusive or with `flips`, so it does not tell what it reads. It is for tests.
#[derive(Drop)]
pub struct RotDisk<D: Disk> {
    disk: D,
    at: u64,
    flips: u8,
}

impl<D: Disk> Model for RotDisk<D> {
    ghost Value = { Rotting D };

    ghost view = { λ r. record { disk = r.disk; at = r.at; flips = r.flips } };
}

impl<D: Disk> RotDisk<D> {
    /// The byte of address `at` is read wrong.
    pub fn new(disk: D, at: u64, flips: u8) -> Self
        ensures { result ≡ record { disk = disk; at = at; flips = flips } }
    {
        RotDisk { disk, at, flips }
    }
}

impl<D: Disk> Disk for RotDisk<D> {
    ghost tells = { false };

    ghost has_fuse = { D.has_fuse };

    ghost text = { λ r. D.text r.disk };

    ghost image = { λ r. D.image r.disk };

    ghost picks = { λ r. D.picks r.disk };

    ghost meter = { λ r. D.meter r.disk };

    ghost text_is_image = { λ r no. cc };

    ghost no_fuse = { λ r. D.no_fuse r.disk };

    ghost none_planned = { λ r. D.none_planned r.disk };

    fn size(&self) -> u64 {
        self.disk.size()
    }

    fn reset(&mut self, alloc: Global, size: u64) -> Result<(), DiskError>
        ensures text { OnOk result (D.text self.new.disk ≡ replicate size 0) }
        ensures only { OnOk result (Only (D.text self.new.disk) (D.image self.new.disk)) }
        ensures kept { OnErr result ((D.text self.new.disk ≡ D.text self.old.disk)
            ⊎ (D.text self.new.disk ≡ replicate size 0)) }
        ensures crash { (c : List ℕ) → D.image self.new.disk c → D.image self.old.disk c
            ⊎ (c ≡ replicate size 0) }
        ensures fuse { (D.meter self.new.disk).fuse ≡ (D.meter self.old.disk).fuse }
        ensures planned { (D.meter self.new.disk).planned ≡ (D.meter self.old.disk).planned }
        ensures own { (D.meter self.old.disk).own ≤ (D.meter self.new.disk).own }
        ensures risen { IsErrOf result DiskError.Failed
            → Rises (faults (D.meter self.old.disk)) (faults (D.meter self.new.disk)) }
        ensures own_risen { IsErrOf result DiskError.Failed
            → Rises (D.meter self.old.disk).own (D.meter self.new.disk).own }
        ensures same_rot { IsSameRot self.old self.new }
    {
        self.disk.reset(alloc, size)
    }

    fn read(&mut self, at: u64, out: &mut [u8]) -> Result<(), Failed>
        requires { at + length out.old ≤ length (D.text self.old.disk) }
        ensures rots { OnOk result (IsTrue D.tells → Rots self.old.at self.old.flips at
            (window at (length out.old) (D.text self.old.disk)) out.new) }
        ensures text { D.text self.new.disk ≡ D.text self.old.disk }
        ensures crash { Within (D.image self.old.disk) (D.image self.new.disk) }
        ensures kept { Within (D.image self.new.disk) (D.image self.old.disk) }
        ensures meter { Passes result (D.meter self.old.disk) (D.meter self.new.disk) }
        ensures same_rot { IsSameRot self.old self.new }
    {
        self.disk.read(at, out)?;
        flip(out, at, self.at, self.flips);
        Ok(())
    }

    fn write_at(&mut self, at: u64, bytes: &[u8]) -> Result<(), Failed>
        requires { at + length bytes.now ≤ length (D.text self.old.disk) }
        ensures size { length (D.text self.new.disk) ≡ length (D.text self.old.disk) }
        ensures written { OnOk result (IsTrue D.tells
            → Written at bytes.now (D.text self.old.disk) (D.text self.new.disk)) }
        ensures crash { Follows (Torn at (length bytes.now)) (D.image self.old.disk)
            (D.image self.new.disk) }
        ensures meter { Passes result (D.meter self.old.disk) (D.meter self.new.disk) }
        ensures same_rot { IsSameRot self.old self.new }
    {
        self.disk.write_at(at, bytes)
    }

    fn sync(&mut self) -> Result<(), Failed>
        ensures text { D.text self.new.disk ≡ D.text self.old.disk }
        ensures only { OnOk result (Only (D.text self.old.disk) (D.image self.new.disk)) }
        ensures crash { Within (D.image self.old.disk) (D.image self.new.disk) }
        ensures kept { OnErr result (Within (D.image self.new.disk) (D.image self.old.disk)) }
        ensures meter { Passes result (D.meter self.old.disk) (D.meter self.new.disk) }
        ensures same_rot { IsSameRot self.old self.new }
    {
        self.disk.sync()
    }

    fn crash(&mut self, pick: u64)
        ensures by_pick { D.picks self.old.disk pick (D.text self.new.disk) }
        ensures left { IsTrue D.tells → D.image self.old.disk (D.text self.new.disk) }
        ensures only { Only (D.text self.new.disk) (D.image self.new.disk) }
        ensures meter { D.meter self.new.disk ≡ D.meter self.old.disk }
        ensures same_rot { IsSameRot self.old self.new }
    {
        self.disk.crash(pick)
    }

    fn arm(&mut self, passes: Option<u64>)
        ensures text { D.text self.new.disk ≡ D.text self.old.disk }
        ensures crash { Within (D.image self.old.disk) (D.image self.new.disk) }
        ensures kept { Within (D.image self.new.disk) (D.image self.old.disk) }
        ensures meter { D.meter self.new.disk
            ≡ (if D.has_fuse then armed passes (D.meter self.old.disk) else D.meter self.old.disk) }
        ensures same_rot { IsSameRot self.old self.new }
    {
        self.disk.arm(passes)
    }
}

/// Flips bits of the byte of address `at`, where it is one of those from `start` on.
fn flip(out: &mut [u8], start: u64, at: u64, flips: u8)
    ensures { Rots at flips start out.old out.new }
{
    if start <= at && at - start < out.len() as u64 {
        out[(at - start) as usize] ^= flips;
    }
}
