//! A disk made anew.

ghost use Rattle.std.specs.Prelude.{◌≡◌, ◌⊎◌, ℕ, List, [], length, replicate, IsTrue, IsErr, IsErrOf, OnOk, OnErr, IfOk, IfErr, MatchResult};
ghost use Rattle.rz_disk.specs.Images.{Only};
ghost use Rattle.rz_disk.specs.Meter.{Took, Lasts, Rises, faults};
ghost use Rattle.rz_journal.specs.Stands.{disk_bytes, HalfHolds, StandsFor, IsHalfOpen};
ghost use Rattle.rz_cells_slots.specs.Stands.{IsShut};

use crate::Entries;
use crate::shape::{disk_bytes, header};
use rz_disk::{Disk, DiskError, Failed, store};
use std::alloc::Global;

impl<D: Disk> Entries<D> {
    /// Makes a disk anew, with no entries.
    pub fn format(alloc: Global, disk: D) -> Result<Entries<D>, (D, DiskError)>
        ensures open { IfOk result (λ e. IsHalfOpen D.tells (D.text e.disk) (D.image e.disk) e.half e.used) }
        ensures none { IfOk result (λ e. IsTrue D.tells → StandsFor (D.text e.disk) []) }
        ensures used { IfOk result (λ e. e.used ≡ 0) }

        // Otherwise each image is one from before, or its header is shut, or it stands for no entries.
        ensures crash { IfErr result (λ e. IsTrue D.tells → (c : List ℕ) → D.image e.0 c
            → D.image disk c ⊎ IsShut c ⊎ StandsFor c []) }
        ensures meter { MatchResult result (λ e. Lasts (D.meter disk) (D.meter e.disk)) (λ e. Lasts (D.meter disk) (D.meter e.0)) }
        ensures risen { IfErr result (λ e. e.1 ≡ DiskError.Failed → Rises (faults (D.meter disk)) (faults (D.meter e.0))) }
    {
        let mut disk = disk;
        match blank(&mut disk, alloc) {
            Ok(()) => Ok(Entries {
                disk,
                half: 0,
                used: 0,
            }),
            Err(error) => Err((disk, error)),
        }
    }
}

/// Makes a disk anew.
fn blank<D: Disk>(disk: &mut D, alloc: Global) -> Result<(), DiskError>
    ensures crash { IsTrue D.tells → (c : List ℕ) → D.image disk.new c → D.image disk.old c ⊎ IsShut c ⊎ HalfHolds 0 [] c }
    ensures done { OnOk result (IsTrue D.tells → HalfHolds 0 [] (D.text disk.new)) }
    ensures size { OnOk result (length (D.text disk.new) ≡ disk_bytes) }
    ensures only { OnOk result (Only (D.text disk.new) (D.image disk.new)) }
    ensures meter { Lasts (D.meter disk.old) (D.meter disk.new) }
    ensures risen { IsErrOf result DiskError.Failed → Rises (faults (D.meter disk.old)) (faults (D.meter disk.new)) }
{
    match disk.reset(alloc, disk_bytes()) {
        Ok(()) => match write_header(disk) {
            Ok(()) => Ok(()),
            Err(Failed) => Err(DiskError::Failed),
        },
        Err(error) => Err(error),
    }
}

/// Writes the header on a disk of zeros, and then opens its gate.
fn write_header<D: Disk>(disk: &mut D) -> Result<(), Failed>
    requires zeros { D.text disk.old ≡ replicate disk_bytes 0 }
    requires only { Only (D.text disk.old) (D.image disk.old) }
    ensures crash { IsTrue D.tells → (c : List ℕ) → D.image disk.new c → IsShut c ⊎ HalfHolds 0 [] c }
    ensures done { OnOk result (IsTrue D.tells → HalfHolds 0 [] (D.text disk.new)) }
    ensures size { length (D.text disk.new) ≡ length (D.text disk.old) }
    ensures only { OnOk result (Only (D.text disk.new) (D.image disk.new)) }
    ensures meter { Lasts (D.meter disk.old) (D.meter disk.new) }
    ensures risen { IsErr result → Rises (faults (D.meter disk.old)) (faults (D.meter disk.new)) }
{
    store(disk, 0, &header())?;
    store(disk, 32, &[1])?;
    Ok(())
}
