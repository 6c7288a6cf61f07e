//! An old disk, with one cell where there is now a pair. It is only read.
ghost use Rattle.std.specs.Prelude.{◌≡◌, ◌⊎◌, ◌+◌, ◌*◌, ◌%◌, ◌^◌, ◌<◌, ◌≤◌, ℕ, Option, Some, None, length, slice_index, IsTrue, IsErrOf, OnOk, IfOk, IfErr};
ghost use Rattle.std.specs.HashMap.{IsEmpty, spare};
ghost use Rattle.rz_events.specs.declared.records.Head.{Head};
ghost use Rattle.rz_disk.specs.Meter.{Took, Rises, HasPasses, faults};
ghost use Rattle.rz_record.specs.Record.{IsValid};
ghost use Rattle.rz_cells_slots.specs.declared.geometry.DiskVersion.TheVariants.{One};
ghost use Rattle.rz_cells_slots.specs.Held.{in_cell};
ghost use Rattle.rz_cells_slots.specs.Shape.{IsGeometry, gate_at};
ghost use Rattle.rz_cells_slots.specs.Stands.{IsHeaderOf, IsFormatted};
ghost use Rattle.rz_cells_slots.specs.Opening.{NotSize, OnlyRead, ReadsHead, Unreadable};
ghost use Rattle.rz_cells_slots.specs.Old.{old_disk_bytes, old_slot};
ghost use Rattle.rz_cells_slots.specs.OldOpening.{OldCellsFault, OldFitTo, OldKnows, OldReadTo, OldRefuses, old_opening_calls};

use crate::Geometry;
use crate::geometry::{DiskVersion, HEADER_BYTES};
use crate::judging::{Firsts, note_once};
use crate::reading::{find, read_header};
use rz_disk::Disk;
use rz_events::{Head, OpenFault};
use rz_record::HEAD_BYTES;
use std::alloc::{AllocError, Global};

/// The bytes of a head, which has no base.
pub const OLD_HEAD_BYTES: usize = 40;

/// What an old disk carries: its fence, and a gate and a head for each cell.
#[derive(Drop)]
pub struct OldCells {
    pub fence: u64,
    pub gates: Vec<u8>,
    pub heads: Vec<Option<Head>>,
}

impl OldCells {
    /// Room for what a disk carries.
    pub fn new(alloc: Global, geometry: &Geometry) -> Result<OldCells, AllocError>
        ensures gates { IfOk result (λ o. length o.gates.items ≡ geometry.now.cells) }
        ensures heads { IfOk result (λ o. length o.heads.items ≡ geometry.now.cells) }
        ensures empty { IfOk result (λ o. (c : ℕ) → in_cell o.heads.items c ≡ None) }
    {
        let cells = geometry.cells as usize;
        let gates = Vec::from_elem(alloc, 0, cells)?;
        match no_heads(alloc, cells) {
            Ok(heads) => Ok(OldCells {
                fence: 0,
                gates,
                heads,
            }),
            Err(error) => {
                drop(gates);
                Err(error)
            }
        }
    }
}

/// So many cells that hold nothing.
fn no_heads(alloc: Global, cells: usize) -> Result<Vec<Option<Head>>, AllocError>
    ensures heads { IfOk result (λ v. length v.items ≡ cells) }
    ensures empty { IfOk result (λ v. (c : ℕ) → in_cell v.items c ≡ None) }
{
    Vec::from_elem(alloc, None, cells)
}

impl Geometry {
    ghost use Rattle.rz_cells_slots.specs.Old.{old_slot_at, old_slot_of};

    /// The bytes of a slot of the old disk, which is shorter by a base.
    fn old_slot_bytes(&self) -> u64
        ensures value { result ≡ old_slot_of self.now }
        ensures some { 40 ≤ result }
        ensures few { result ≤ 16872 }
    {
        self.slot_bytes() - (HEAD_BYTES - OLD_HEAD_BYTES) as u64
    }

    /// The bytes of the old disk.
    fn old_disk_bytes(&self) -> u64
        requires { IsGeometry self.now }
        ensures { result ≡ old_disk_bytes self.now }
    {
        let cells = u64::from(self.cells);
        HEADER_BYTES + cells + 2 * cells * self.old_slot_bytes()
    }

    /// Where slot `i` of a cell of the old disk begins.
    pub(crate) fn old_slot_at(&self, cell: u32, i: u8) -> u64
        requires geometry { IsGeometry self.now }
        requires cell { cell < self.now.cells }
        requires slot { i < 2 }
        ensures value { result ≡ old_slot_at self.now cell i }
        ensures within { result + old_slot_of self.now ≤ old_disk_bytes self.now }
        ensures few { result + old_slot_of self.now < 2 ^ 41 }
    {
        let slot = 2 * cell as u64 + i as u64;
        HEADER_BYTES + self.cells as u64 + slot * self.old_slot_bytes()
    }
}

/// Opens an old disk: its fence, and the gates and heads of all cells.
pub fn open_old<D: Disk>(
    disk: &mut D,
    geometry: &Geometry,
    room: &mut OldCells,
    firsts: &mut Firsts,
) -> Result<(), OpenFault>
    requires geometry { IsGeometry geometry.now }
    requires gates { length room.old.gates.items ≡ geometry.now.cells }
    requires heads { length room.old.heads.items ≡ geometry.now.cells }
    requires empty { (c : ℕ) → in_cell room.old.heads.items c ≡ None }
    requires firsts { IsEmpty firsts.old }
    requires spare { geometry.now.cells ≤ spare firsts.old }
    ensures size { OnOk result (length (D.text disk.old) ≡ old_disk_bytes geometry.now) }
    ensures header { OnOk result (IsTrue D.tells → IsHeaderOf One geometry.now room.new.fence (D.text disk.old) × IsFormatted (D.text disk.old)) }
    ensures gates { OnOk result (length room.new.gates.items ≡ geometry.now.cells) }
    ensures known { OnOk result (IsTrue D.tells → OldKnows geometry.now room.new.gates.items (D.text disk.old)) }
    ensures heads { OnOk result (length room.new.heads.items ≡ geometry.now.cells) }
    ensures fits { OnOk result (OldFitTo geometry.now room.new.heads.items geometry.now.cells) }
    ensures reads { OnOk result (IsTrue D.tells → OldReadTo geometry.now (D.text disk.old) room.new.heads.items geometry.now.cells) }
    ensures refused { IfErr result (λ e. IsTrue D.tells → OldRefuses geometry.now (D.text disk.old) e) }
    ensures wrong_size { IfErr result (λ e. NotSize e ⊎ OldRefuses geometry.now (D.text disk.old) e) }
    ensures fits_size { IfErr result (λ e. NotSize e → length (D.text disk.old) ≡ old_disk_bytes geometry.now) }
    ensures read { OnlyRead (D.text disk.old) (D.text disk.new) (D.image disk.old) (D.image disk.new) (D.meter disk.old) (D.meter disk.new) }
    ensures untouched { IfErr result (λ e. NotSize e ⊎ (disk.new ≡ disk.old)) }
    ensures took { Took (old_opening_calls geometry.now) result (D.meter disk.old) (D.meter disk.new) }
    ensures fault { IsErrOf result OpenFault.DiskFault → Rises (faults (D.meter disk.old)) (faults (D.meter disk.new)) }
    ensures own_fault { IsErrOf result OpenFault.DiskFault → HasPasses (old_opening_calls geometry.now) (D.meter disk.old) → Rises (D.meter disk.old).own (D.meter disk.new).own }
{
    let have = disk.size();
    let need = geometry.old_disk_bytes();
    if have != need {
        return Err(OpenFault::WrongSize { have, need });
    }
    let Ok(()) = disk.sync() else {
        return Err(OpenFault::DiskFault);
    };
    let fence = read_header(disk, geometry, DiskVersion::One)?;
    let Ok(()) = disk.read(HEADER_BYTES, &mut room.gates) else {
        return Err(OpenFault::DiskFault);
    };
    read_old_heads(disk, geometry, &room.gates, &mut room.heads, firsts)?;
    room.fence = fence;
    Ok(())
}

/// The heads of all cells, where each key stands once.
fn read_old_heads<D: Disk>(
    disk: &mut D,
    geometry: &Geometry,
    gates: &[u8],
    heads: &mut Vec<Option<Head>>,
    firsts: &mut Firsts,
) -> Result<(), OpenFault>
    requires geometry { IsGeometry geometry.now }
    requires size { length (D.text disk.old) ≡ old_disk_bytes geometry.now }
    requires gates { length gates.now ≡ geometry.now.cells }
    requires known { IsTrue D.tells → OldKnows geometry.now gates.now (D.text disk.old) }
    requires heads { length heads.old.items ≡ geometry.now.cells }
    requires empty { (c : ℕ) → in_cell heads.old.items c ≡ None }
    requires firsts { IsEmpty firsts.old }
    requires spare { geometry.now.cells ≤ spare firsts.old }
    ensures reads { OnOk result (IsTrue D.tells → OldReadTo geometry.now (D.text disk.old) heads.new.items geometry.now.cells) }
    ensures fits { OnOk result (OldFitTo geometry.now heads.new.items geometry.now.cells) }
    ensures heads { OnOk result (length heads.new.items ≡ geometry.now.cells) }
    ensures refused { IfErr result (λ e. IsTrue D.tells → OldCellsFault geometry.now (D.text disk.old) e) }
    ensures not_size { IfErr result NotSize }
    ensures read { OnlyRead (D.text disk.old) (D.text disk.new) (D.image disk.old) (D.image disk.new) (D.meter disk.old) (D.meter disk.new) }
    ensures took { Took geometry.now.cells result (D.meter disk.old) (D.meter disk.new) }
    ensures fault { IsErrOf result OpenFault.DiskFault → Rises (faults (D.meter disk.old)) (faults (D.meter disk.new)) }
    ensures own_fault { IsErrOf result OpenFault.DiskFault → HasPasses geometry.now.cells (D.meter disk.old) → Rises (D.meter disk.old).own (D.meter disk.new).own }
{
    for cell in 0..geometry.cells {
        let head = read_old_head(disk, geometry, cell, gates[cell as usize])?;
        note_once(firsts, cell, &head)?;
        heads[cell as usize] = head;
    }
    Ok(())
}

/// The head in the slot that a gate picks, with a base of 0.
fn read_old_head<D: Disk>(
    disk: &mut D,
    geometry: &Geometry,
    cell: u32,
    gate: u8,
) -> Result<Option<Head>, OpenFault>
    requires geometry { IsGeometry geometry.now }
    requires cell { cell < geometry.now.cells }
    requires size { length (D.text disk.old) ≡ old_disk_bytes geometry.now }
    requires gate { IsTrue D.tells → gate % 2 ≡ slice_index (D.text disk.old) (gate_at cell) % 2 }
    ensures reads { IfOk result (λ o. IsTrue D.tells → ReadsHead geometry.now (old_slot geometry.now (D.text disk.old) cell) o) }
    ensures valid { IfOk result (λ o. (h : Head) → o ≡ Some h → IsValid h × (h.layout ≡ geometry.now.layout)) }
    ensures refused { IfErr result (λ e. (e ≡ OpenFault.DiskFault) ⊎ ((e ≡ OpenFault.Damaged cell) × (IsTrue D.tells → Unreadable geometry.now (old_slot geometry.now (D.text disk.old) cell)))) }
    ensures read { OnlyRead (D.text disk.old) (D.text disk.new) (D.image disk.old) (D.image disk.new) (D.meter disk.old) (D.meter disk.new) }
    ensures took { Took 1 result (D.meter disk.old) (D.meter disk.new) }
    ensures fault { IsErrOf result OpenFault.DiskFault → Rises (faults (D.meter disk.old)) (faults (D.meter disk.new)) }
    ensures own_fault { IsErrOf result OpenFault.DiskFault → HasPasses 1 (D.meter disk.old) → Rises (D.meter disk.old).own (D.meter disk.new).own }
{
    let mut bytes = [0u8; HEAD_BYTES];
    let at = geometry.old_slot_at(cell, gate % 2);
    let Ok(()) = disk.read(at, &mut bytes[..OLD_HEAD_BYTES]) else {
        return Err(OpenFault::DiskFault);
    };
    match find(&bytes, geometry) {
        Some(head) => Ok(head),
        None => Err(OpenFault::Damaged { cell }),
    }
}
