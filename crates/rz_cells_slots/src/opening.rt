//! A disk read whole.
ghost use Rattle.std.specs.Prelude.{◌≡◌, ◌⊎◌, ◌*◌, ◌≤◌, ◌<◌, ℕ, None, length, IsTrue, IsErrOf, OnOk, IfOk, IfErr};
ghost use Rattle.std.specs.HashMap.{IsEmpty, spare};
ghost use Rattle.rz_disk.specs.Meter.{Took, Rises, HasPasses, faults};
ghost use Rattle.rz_cells_slots.specs.Held.{in_cell};
ghost use Rattle.rz_cells_slots.specs.Shape.{IsGeometry, disk_bytes, slot_of};
ghost use Rattle.rz_cells_slots.specs.Open.{IsOpen};
ghost use Rattle.rz_cells_slots.specs.Opening.{NotSize, OnlyRead, Refuses, opening_calls};

use crate::Geometry;
use crate::geometry::{DiskVersion, HEADER_BYTES};
use crate::heads::Heads;
use crate::judging::Firsts;
use crate::reading::{read_header, read_heads};
use crate::room::CellsMemory;
use rz_disk::Disk;
use rz_events::OpenFault;
use std::alloc::Global;
use std::collections::HashMap;

/// The fence, and the gates and heads of all cells in new memory.
pub fn read_disk<D: Disk>(
    disk: &mut D,
    alloc: Global,
    geometry: &Geometry,
) -> Result<(u64, CellsMemory), OpenFault>
    requires { IsGeometry geometry.now }
    ensures open { IfOk result (λ r. IsOpen D.tells (D.text disk.new) (D.image disk.new) geometry.now r.0 r.1.gates.items r.1.heads) }
    ensures gates { IfOk result (λ r. length r.1.gates.items ≡ 2 * geometry.now.cells) }
    ensures heads { IfOk result (λ r. length r.1.heads ≡ 2 * geometry.now.cells) }
    ensures buffer { IfOk result (λ r. length r.1.buffer.items ≡ slot_of geometry.now) }
    ensures refused { IfErr result (λ e. IsTrue D.tells → Refuses geometry.now (D.text disk.old) e) }
    ensures wrong_size { IfErr result (λ e. NotSize e ⊎ Refuses geometry.now (D.text disk.old) e) }
    ensures fits { IfErr result (λ e. NotSize e → length (D.text disk.old) ≡ disk_bytes geometry.now) }
    ensures read { OnlyRead (D.text disk.old) (D.text disk.new) (D.image disk.old) (D.image disk.new) (D.meter disk.old) (D.meter disk.new) }
    ensures untouched { IfErr result (λ e. NotSize e ⊎ (disk.new ≡ disk.old)) }
    ensures took { Took (opening_calls geometry.now) result (D.meter disk.old) (D.meter disk.new) }
    ensures fault { IsErrOf result OpenFault.DiskFault → Rises (faults (D.meter disk.old)) (faults (D.meter disk.new)) }
    ensures own_fault { IsErrOf result OpenFault.DiskFault → HasPasses (opening_calls geometry.now) (D.meter disk.old) → Rises (D.meter disk.old).own (D.meter disk.new).own }
{
    let Ok(room) = CellsMemory::new(alloc, geometry) else {
        return Err(OpenFault::NoMemory);
    };
    let Ok(firsts) = HashMap::with_capacity(alloc, 2 * geometry.cells as usize) else {
        drop(room);
        return Err(OpenFault::NoMemory);
    };
    let mut room = room;
    let mut firsts = firsts;
    let read = read_all(
        disk,
        geometry,
        &mut room.gates,
        &mut room.heads,
        &mut firsts,
    );
    drop(firsts);
    match read {
        Ok(fence) => Ok((fence, room)),
        Err(fault) => {
            drop(room);
            Err(fault)
        }
    }
}

/// The fence, and the gates and heads of all cells.
fn read_all<D: Disk>(
    disk: &mut D,
    geometry: &Geometry,
    gates: &mut Vec<u8>,
    heads: &mut Heads,
    firsts: &mut Firsts,
) -> Result<u64, OpenFault>
    requires geometry { IsGeometry geometry.now }
    requires gates { length gates.old.items ≡ 2 * geometry.now.cells }
    requires heads { length heads.old ≡ 2 * geometry.now.cells }
    requires empty { (c : ℕ) → in_cell heads.old c ≡ None }
    requires firsts { IsEmpty firsts.old }
    requires spare { 2 * geometry.now.cells ≤ spare firsts.old }
    ensures open { IfOk result (λ fence. IsOpen D.tells (D.text disk.new) (D.image disk.new) geometry.now fence gates.new.items heads.new) }
    ensures gates { OnOk result (length gates.new.items ≡ 2 * geometry.now.cells) }
    ensures heads { OnOk result (length heads.new ≡ 2 * geometry.now.cells) }
    ensures refused { IfErr result (λ e. IsTrue D.tells → Refuses geometry.now (D.text disk.old) e) }
    ensures wrong_size { IfErr result (λ e. NotSize e ⊎ Refuses geometry.now (D.text disk.old) e) }
    ensures fits { IfErr result (λ e. NotSize e → length (D.text disk.old) ≡ disk_bytes geometry.now) }
    ensures read { OnlyRead (D.text disk.old) (D.text disk.new) (D.image disk.old) (D.image disk.new) (D.meter disk.old) (D.meter disk.new) }
    ensures untouched { IfErr result (λ e. NotSize e ⊎ (disk.new ≡ disk.old)) }
    ensures took { Took (opening_calls geometry.now) result (D.meter disk.old) (D.meter disk.new) }
    ensures fault { IsErrOf result OpenFault.DiskFault → Rises (faults (D.meter disk.old)) (faults (D.meter disk.new)) }
    ensures own_fault { IsErrOf result OpenFault.DiskFault → HasPasses (opening_calls geometry.now) (D.meter disk.old) → Rises (D.meter disk.old).own (D.meter disk.new).own }
{
    let have = disk.size();
    let need = geometry.disk_bytes();
    if have != need {
        return Err(OpenFault::WrongSize { have, need });
    }
    let Ok(()) = disk.sync() else {
        return Err(OpenFault::DiskFault);
    };
    let fence = read_header(disk, geometry, DiskVersion::Two)?;
    let Ok(()) = disk.read(HEADER_BYTES, gates) else {
        return Err(OpenFault::DiskFault);
    };
    read_heads(disk, geometry, gates, heads, firsts)?;
    Ok(fence)
}
