//! What is read of a disk when it is opened.
ghost use Rattle.std.specs.Prelude.{◌≡◌, ◌≢◌, ◌*◌, ◌%◌, ◌≤◌, ◌<◌, ℕ, List, Option, Some, None, length, slice_index, IsTrue, IsErrOf, OnOk, IfOk, IfErr, IfSome, IfNone};
ghost use Rattle.std.specs.HashMap.{IsEmpty, spare};
ghost use Rattle.rz_events.specs.declared.records.Head.{Head};
ghost use Rattle.rz_disk.specs.Meter.{Took, Rises, HasPasses, faults};
ghost use Rattle.rz_record.specs.Record.{IsValid};
ghost use Rattle.rz_cells_slots.specs.Held.{in_cell};
ghost use Rattle.rz_cells_slots.specs.Shape.{IsGeometry, disk_bytes, picked, gate_at};
ghost use Rattle.rz_cells_slots.specs.Stands.{IsHeaderOf, IsFormatted};
ghost use Rattle.rz_cells_slots.specs.Open.{Knows};
ghost use Rattle.rz_cells_slots.specs.Opening.{Agrees, CellFault, CellsFault, FieldFault, FitTo, HeaderFault, KnowsFirsts, NotSize, OnlyRead, ReadTo, ReadsHead};

use crate::Geometry;
use crate::geometry::DiskVersion;
use crate::heads::Heads;
use crate::judging::{Firsts, admit};
use rz_disk::Disk;
use rz_events::{Head, HeaderField, OpenFault};
use rz_record::fields::{u16_at, u32_at, u64_at};
use rz_record::{HEAD_BYTES, RecordFault, head_of};

/// The fence of a header that is the geometry's, in this version.
pub fn read_header<D: Disk>(
    disk: &mut D,
    geometry: &Geometry,
    version: DiskVersion,
) -> Result<u64, OpenFault>
    requires size { 64 ≤ length (D.text disk.old) }
    ensures ok { IfOk result (λ fence. IsTrue D.tells → IsHeaderOf version geometry.now fence (D.text disk.old) × IsFormatted (D.text disk.old)) }
    ensures refused { IfErr result (λ e. IsTrue D.tells → HeaderFault version geometry.now (D.text disk.old) e) }
    ensures not_size { IfErr result NotSize }
    ensures read { OnlyRead (D.text disk.old) (D.text disk.new) (D.image disk.old) (D.image disk.new) (D.meter disk.old) (D.meter disk.new) }
    ensures took { Took 1 result (D.meter disk.old) (D.meter disk.new) }
    ensures fault { IsErrOf result OpenFault.DiskFault → Rises (faults (D.meter disk.old)) (faults (D.meter disk.new)) }
    ensures own_fault { IsErrOf result OpenFault.DiskFault → HasPasses 1 (D.meter disk.old) → Rises (D.meter disk.old).own (D.meter disk.new).own }
{
    let mut header = [0u8; 33];
    let Ok(()) = disk.read(0, &mut header) else {
        return Err(OpenFault::DiskFault);
    };
    if header[32] % 2 == 0 {
        return Err(OpenFault::Unformatted);
    }
    check_fields(&header, geometry, version)?;
    Ok(u64_at(&header, 16))
}

/// Whether the fields of a header are the version's and the geometry's.
fn check_fields(header: &[u8], geometry: &Geometry, version: DiskVersion) -> Result<(), OpenFault>
    requires { 32 ≤ length header.now }
    ensures ok { OnOk result (Agrees version geometry.now header.now) }
    ensures err { IfErr result (FieldFault version geometry.now header.now) }
{
    check(HeaderField::Magic, u64_at(header, 0), version.magic())?;
    check(
        HeaderField::Layout,
        header[8] as u64,
        geometry.layout.number() as u64,
    )?;
    check(HeaderField::Bsize, header[9] as u64, geometry.bsize as u64)?;
    check(
        HeaderField::Node,
        u16_at(header, 10) as u64,
        geometry.node as u64,
    )?;
    check(
        HeaderField::Cells,
        u32_at(header, 12) as u64,
        geometry.cells as u64,
    )?;
    check(HeaderField::Reserved, u64_at(header, 24), 0)?;
    Ok(())
}

fn check(field: HeaderField, value: u64, wanted: u64) -> Result<(), OpenFault>
    ensures ok { OnOk result (value ≡ wanted) }
    ensures err { IfErr result (λ e. (e ≡ OpenFault.BadHeader field value) × (value ≢ wanted)) }
{
    if value == wanted {
        Ok(())
    } else {
        Err(OpenFault::BadHeader { field, value })
    }
}

/// The heads of all cells, where each may stand behind the earlier ones.
pub fn read_heads<D: Disk>(
    disk: &mut D,
    geometry: &Geometry,
    gates: &[u8],
    heads: &mut Heads,
    firsts: &mut Firsts,
) -> Result<(), OpenFault>
    requires geometry { IsGeometry geometry.now }
    requires size { length (D.text disk.old) ≡ disk_bytes geometry.now }
    requires gates { length gates.now ≡ 2 * geometry.now.cells }
    requires known { IsTrue D.tells → Knows geometry.now gates.now (D.text disk.old) }
    requires heads { length heads.old ≡ 2 * geometry.now.cells }
    requires empty { (c : ℕ) → in_cell heads.old c ≡ None }
    requires firsts { IsEmpty firsts.old }
    requires spare { 2 * geometry.now.cells ≤ spare firsts.old }
    ensures reads { OnOk result (IsTrue D.tells → ReadTo geometry.now (D.text disk.old) heads.new (2 * geometry.now.cells)) }
    ensures fits { OnOk result (FitTo geometry.now heads.new (2 * geometry.now.cells)) }
    ensures heads { OnOk result (length heads.new ≡ 2 * geometry.now.cells) }
    ensures firsts { OnOk result (KnowsFirsts firsts.new heads.new (2 * geometry.now.cells)) }
    ensures refused { IfErr result (λ e. IsTrue D.tells → CellsFault geometry.now (D.text disk.old) e) }
    ensures not_size { IfErr result NotSize }
    ensures read { OnlyRead (D.text disk.old) (D.text disk.new) (D.image disk.old) (D.image disk.new) (D.meter disk.old) (D.meter disk.new) }
    ensures took { Took (2 * geometry.now.cells) result (D.meter disk.old) (D.meter disk.new) }
    ensures fault { IsErrOf result OpenFault.DiskFault → Rises (faults (D.meter disk.old)) (faults (D.meter disk.new)) }
    ensures own_fault { IsErrOf result OpenFault.DiskFault → HasPasses (2 * geometry.now.cells) (D.meter disk.old) → Rises (D.meter disk.old).own (D.meter disk.new).own }
{
    for cell in 0..2 * geometry.cells {
        let head = read_head(disk, geometry, cell, gates[cell as usize])?;
        admit(heads, firsts, cell, &head)?;
        heads.set(cell, &head);
    }
    Ok(())
}

/// The head in the slot that a gate picks.
fn read_head<D: Disk>(
    disk: &mut D,
    geometry: &Geometry,
    cell: u32,
    gate: u8,
) -> Result<Option<Head>, OpenFault>
    requires geometry { IsGeometry geometry.now }
    requires cell { cell < 2 * geometry.now.cells }
    requires size { length (D.text disk.old) ≡ disk_bytes geometry.now }
    requires gate { IsTrue D.tells → gate % 2 ≡ slice_index (D.text disk.old) (gate_at cell) % 2 }
    ensures reads { IfOk result (λ o. IsTrue D.tells → ReadsHead geometry.now (picked geometry.now (D.text disk.old) cell) o) }
    ensures valid { IfOk result (λ o. (h : Head) → o ≡ Some h → IsValid h × (h.layout ≡ geometry.now.layout)) }
    ensures refused { IfErr result (λ e. IsTrue D.tells → CellFault geometry.now (D.text disk.old) cell e) }
    ensures not_size { IfErr result NotSize }
    ensures read { OnlyRead (D.text disk.old) (D.text disk.new) (D.image disk.old) (D.image disk.new) (D.meter disk.old) (D.meter disk.new) }
    ensures took { Took 1 result (D.meter disk.old) (D.meter disk.new) }
    ensures fault { IsErrOf result OpenFault.DiskFault → Rises (faults (D.meter disk.old)) (faults (D.meter disk.new)) }
    ensures own_fault { IsErrOf result OpenFault.DiskFault → HasPasses 1 (D.meter disk.old) → Rises (D.meter disk.old).own (D.meter disk.new).own }
{
    let mut bytes = [0u8; HEAD_BYTES];
    let Ok(()) = disk.read(geometry.slot_at(cell, gate % 2), &mut bytes) else {
        return Err(OpenFault::DiskFault);
    };
    match find(&bytes, geometry) {
        Some(head) => Ok(head),
        None => Err(OpenFault::Damaged { cell }),
    }
}

/// The head that the bytes begin with, if there is one of this geometry, or that there is none.
pub fn find(bytes: &[u8], geometry: &Geometry) -> Option<Option<Head>>
    requires { length bytes.now ≡ 48 }
    ensures some { IfSome result (ReadsHead geometry.now bytes.now) }
    ensures none { IfNone result ((o : Option Head) → ReadsHead geometry.now bytes.now o → ⊥) }
{
    match head_of(bytes) {
        Ok(head) => {
            if head.layout == geometry.layout {
                Some(Some(head))
            } else {
                None
            }
        }
        Err(RecordFault::Empty) => Some(None),
        Err(_) => None,
    }
}
