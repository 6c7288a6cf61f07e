//! A disk made anew.
ghost use Rattle.std.specs.Prelude.{◌≡◌, ◌⊎◌, ℕ, List, length, replicate, IsTrue, IsErrOf, OnOk};
ghost use Rattle.rz_disk.specs.Images.{Only};
ghost use Rattle.rz_cells_slots.specs.Counted.{Counted, CountedWhere};
ghost use Rattle.rz_cells_slots.specs.Shape.{IsGeometry, disk_bytes};
ghost use Rattle.rz_cells_slots.specs.Stands.{IsFresh, ShutOrFresh, IsHeader};

use crate::Geometry;
use crate::geometry::DiskVersion;
use rz_disk::{Disk, DiskError, Failed, store};
use rz_record::fields::{put_u16, put_u32, put_u64};
use std::alloc::Global;

/// Why a disk was not formatted.
#[derive(Clone, Copy, Drop)]
pub enum FormatFault {
    NoMemory,
    DiskFault,
}

/// Makes the disk anew.
pub fn blank<D: Disk>(
    disk: &mut D,
    alloc: Global,
    geometry: &Geometry,
    fence: u64,
) -> Result<(), FormatFault>
    requires { IsGeometry geometry.now }
    ensures crash { IsTrue D.tells → (c : List ℕ) → D.image disk.new c → D.image disk.old c ⊎ ShutOrFresh geometry.now fence c }
    ensures done { OnOk result (IsTrue D.tells → IsFresh geometry.now fence (D.text disk.new)) }
    ensures size { OnOk result (length (D.text disk.new) ≡ disk_bytes geometry.now) }
    ensures only { OnOk result (Only (D.text disk.new) (D.image disk.new)) }
    ensures meter { CountedWhere 4 result (IsErrOf result FormatFault.DiskFault) (D.meter disk.old) (D.meter disk.new) }
    ensures unspent { IsErrOf result FormatFault.NoMemory → (D.meter disk.new).fuse ≡ (D.meter disk.old).fuse }
    ensures unplanned { IsErrOf result FormatFault.NoMemory → (D.meter disk.new).planned ≡ (D.meter disk.old).planned }
{
    match disk.reset(alloc, geometry.disk_bytes()) {
        Ok(()) => match write_header(disk, geometry, fence) {
            Ok(()) => Ok(()),
            Err(Failed) => Err(FormatFault::DiskFault),
        },
        Err(DiskError::Failed) => Err(FormatFault::DiskFault),
        Err(DiskError::NoMemory) => Err(FormatFault::NoMemory),
    }
}

/// Writes a header on a disk of zeros, and then opens its gate.
fn write_header<D: Disk>(disk: &mut D, geometry: &Geometry, fence: u64) -> Result<(), Failed>
    requires geometry { IsGeometry geometry.now }
    requires zeros { D.text disk.old ≡ replicate (disk_bytes geometry.now) 0 }
    requires only { Only (D.text disk.old) (D.image disk.old) }
    ensures crash { IsTrue D.tells → (c : List ℕ) → D.image disk.new c → ShutOrFresh geometry.now fence c }
    ensures done { OnOk result (IsTrue D.tells → IsFresh geometry.now fence (D.text disk.new)) }
    ensures size { length (D.text disk.new) ≡ length (D.text disk.old) }
    ensures only { OnOk result (Only (D.text disk.new) (D.image disk.new)) }
    ensures meter { Counted 4 result (D.meter disk.old) (D.meter disk.new) }
{
    let mut header = [0u8; 32];
    spell_header(geometry, fence, &mut header);
    store(disk, 0, &header)?;
    store(disk, 32, &[1])?;
    Ok(())
}

/// The header without its gate.
pub fn spell_header(geometry: &Geometry, fence: u64, out: &mut [u8])
    requires { length out.old ≡ 32 }
    ensures { IsHeader geometry.now fence out.new }
{
    put_u64(out, 0, DiskVersion::Two.magic());
    out[8] = geometry.layout.number();
    out[9] = geometry.bsize;
    put_u16(out, 10, geometry.node);
    put_u32(out, 12, geometry.cells);
    put_u64(out, 16, fence);
    put_u64(out, 24, 0);
}
