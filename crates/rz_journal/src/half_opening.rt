//! A disk opened again.

ghost use Rattle.std.specs.Prelude.{◌≡◌, ◌⊎◌, ◌<◌, length, IsTrue, IsErrOf, IfOk, IfErr, MatchResult};
ghost use Rattle.rz_disk.specs.Images.{Within};
ghost use Rattle.rz_disk.specs.Meter.{Lasts, Rises, faults};
ghost use Rattle.rz_journal.specs.Stands.{disk_bytes, half_bytes, IsHalfOpen};
ghost use Rattle.rz_journal.specs.HalfOpening.{IsHalf, IsPicked, Refuses, IsOfCall, HoldsSoFar};

use crate::Entries;
use crate::shape::{disk_bytes, half_at, half_bytes, header};
use rz_disk::Disk;
use std::alloc::Global;

/// Why a disk was not opened.
#[derive(Clone, Copy, Drop)]
pub enum HalfFault {
    NoMemory,
    /// The disk has other bytes than so many.
    WrongSize { have: u64, need: u64 },
    DiskFault,
    /// The header's gate is shut.
    Unformatted,
    /// Other bytes stand before the header's gate than those of a journal.
    BadHeader,
}

/// A disk, and the half of it that counts.
#[derive(Drop)]
pub struct Half<D: Disk> {
    pub(crate) disk: D,
    pub(crate) half: u8,
    pub(crate) bytes: Vec<u8>,
}

impl<D: Disk> Half<D> {
    /// Opens a disk that was formatted. All memory is taken before the disk is looked at, and the disk
    /// stays as it is.
    pub fn open(alloc: Global, disk: D) -> Result<Half<D>, (D, HalfFault)>
        ensures open { IfOk result (λ h. IsHalf D.tells (D.text h.disk) (D.image h.disk) h.half h.bytes.items) }

        // Each fault is the first that the text has.
        ensures refused { IfErr result (λ e. Refuses D.tells (D.text disk) e.1) }

        ensures text { MatchResult result (λ h. D.text h.disk ≡ D.text disk) (λ e. D.text e.0 ≡ D.text disk) }
        ensures crash { MatchResult result (λ h. Within (D.image disk) (D.image h.disk)) (λ e. Within (D.image disk) (D.image e.0)) }
        ensures meter { MatchResult result (λ h. Lasts (D.meter disk) (D.meter h.disk)) (λ e. Lasts (D.meter disk) (D.meter e.0)) }
        ensures risen { IfErr result (λ e. e.1 ≡ HalfFault.DiskFault → Rises (faults (D.meter disk)) (faults (D.meter e.0))) }

        // It is not called for want of memory or a wrong size.
        ensures uncalled { IfErr result (λ e. IsOfCall e.1 ⊎ (e.0 ≡ disk)) }
    {
        let mut disk = disk;
        let Ok(bytes) = Vec::from_elem(alloc, 0, half_bytes() as usize) else {
            return Err((disk, HalfFault::NoMemory));
        };
        match read_half(&mut disk, bytes) {
            Ok((half, bytes)) => Ok(Half { disk, half, bytes }),
            Err(fault) => Err((disk, fault)),
        }
    }

    /// The bytes of the half that counts.
    pub fn bytes(&self) -> &[u8]
        ensures { result.now ≡ self.now.bytes.items }
    {
        self.bytes.as_slice()
    }

    /// The list of the entries that the half holds, which take `used` bytes in all.
    pub fn into_entries(self, used: u64) -> Entries<D>
        requires open { IsHalf D.tells (D.text self.disk) (D.image self.disk) self.half self.bytes.items }
        requires room { used < 8_388_576 }
        requires holds { HoldsSoFar self.bytes.items used }
        ensures open { IsHalfOpen D.tells (D.text result.disk) (D.image result.disk) result.half result.used }
        ensures disk { result.disk ≡ self.disk }
        ensures half { result.half ≡ self.half }
        ensures used { result.used ≡ used }
    {
        Entries {
            disk: self.disk,
            half: self.half,
            used,
        }
    }

    /// The disk.
    pub fn into_disk(self) -> D
        ensures { result ≡ self.disk }
    {
        self.disk
    }
}

/// The half that counts, and its bytes in the memory that is given.
fn read_half<D: Disk>(disk: &mut D, bytes: Vec<u8>) -> Result<(u8, Vec<u8>), HalfFault>
    requires { length bytes.items ≡ half_bytes }
    ensures open { IfOk result (λ r. IsHalf D.tells (D.text disk.new) (D.image disk.new) r.0 r.1.items) }
    ensures refused { IfErr result (Refuses D.tells (D.text disk.old)) }
    ensures text { D.text disk.new ≡ D.text disk.old }
    ensures crash { Within (D.image disk.old) (D.image disk.new) }
    ensures meter { Lasts (D.meter disk.old) (D.meter disk.new) }
    ensures risen { IsErrOf result HalfFault.DiskFault → Rises (faults (D.meter disk.old)) (faults (D.meter disk.new)) }
    ensures uncalled { IfErr result (λ e. IsOfCall e ⊎ (disk.new ≡ disk.old)) }
{
    let have = disk.size();
    let need = disk_bytes();
    if have != need {
        return Err(HalfFault::WrongSize { have, need });
    }
    let Ok(()) = disk.sync() else {
        return Err(HalfFault::DiskFault);
    };
    let half = read_header(disk)?;
    let mut bytes = bytes;
    let Ok(()) = disk.read(half_at(half), &mut bytes) else {
        return Err(HalfFault::DiskFault);
    };
    Ok((half, bytes))
}

/// The half that the header picks.
fn read_header<D: Disk>(disk: &mut D) -> Result<u8, HalfFault>
    requires { length (D.text disk.old) ≡ disk_bytes }
    ensures picked { IfOk result (IsPicked D.tells (D.text disk.old)) }
    ensures refused { IfErr result (Refuses D.tells (D.text disk.old)) }
    ensures text { D.text disk.new ≡ D.text disk.old }
    ensures crash { Within (D.image disk.old) (D.image disk.new) }
    ensures meter { Lasts (D.meter disk.old) (D.meter disk.new) }
    ensures risen { IsErrOf result HalfFault.DiskFault → Rises (faults (D.meter disk.old)) (faults (D.meter disk.new)) }
    ensures called { IfErr result IsOfCall }
{
    let mut front = [0u8; 32];
    let Ok(()) = disk.read(0, &mut front) else {
        return Err(HalfFault::DiskFault);
    };
    let mut gates = [0u8; 2];
    let Ok(()) = disk.read(32, &mut gates) else {
        return Err(HalfFault::DiskFault);
    };
    if gates[0] % 2 == 0 {
        return Err(HalfFault::Unformatted);
    }
    if front != header() {
        return Err(HalfFault::BadHeader);
    }
    Ok(gates[1] % 2)
}
